// The long-range tail of a table: its writing and its reading.
ghost use Rattle.std.specs.Prelude.{◌≡◌};
ghost use Rattle.mesh.specs.Mesh.{mesh_of};
ghost use Rattle.builder.specs.BuilderLists.{word_lists};
ghost use Rattle.writer.specs.Write.{WriteOut};
ghost use Rattle.writer.specs.Tailed.{tail_lists, write_tail_out};
ghost use Rattle.tail.specs.Reading.{tail_values, tail_out};
ghost use Rattle.icotable.specs.Answers.{written_in, value_in, tail_shown, table_from};

use crate::{TableAnswer, ValueAnswer, WriteAnswer};
use builder::Builder;
use mesh::Mesh;
use refusals::Refusal;
use writer::LentTail;

#[unsafe(no_mangle)]
pub extern "C" fn icotable_write_tail(
    builder: Builder,
    store: &[f64],
    words: &[u64],
    vertices: &[f64],
    neighbour_counts: &[u8],
    neighbours: &[u16],
    angles: &[f64],
    coefficients: &[f64],
    kappas: &[f64],
    powers: &[u32],
    prefactor: &[f64],
    output: &mut [u8],
) -> WriteAnswer
    ensures { ◌≡◌ {A = WriteOut}
        (record { answer = written_in result; builder = builder; lists = word_lists store.now words.now; output = output.new })
        (write_tail_out builder (mesh_of vertices.now neighbour_counts.now neighbours.now angles.now)
        (word_lists store.now words.now)
        (tail_lists coefficients.now kappas.now powers.now prefactor.now) output.old) }
{
    let mesh = Mesh {
        vertices,
        counts: neighbour_counts,
        neighbours,
        angles,
    };
    let tail = LentTail {
        coefficients,
        kappas,
        powers,
        prefactor,
    };
    writer::write_tail(builder, store, words, &mesh, &tail, output).into()
}

impl From<Result<f64, Refusal>> for ValueAnswer {
    ghost from_gives = { λ a v. value_in v ≡ tail_shown (tail_values a) };

    #[tactic(auto, unfolding(crate::specs::Answers::value_in, crate::specs::Answers::tail_shown))]
    fn from(a: Result<f64, Refusal>) -> ValueAnswer {
        let (number, energy) = match a {
            Ok(energy) => (0, energy),
            Err(e) => (e.number(), 0.0),
        };
        ValueAnswer {
            number,
            energy,
            distance_a: 0.0,
            distance_b: 0.0,
        }
    }
}

// The tail's energy at a distance; the table is lent, as to a reading.
#[unsafe(no_mangle)]
pub extern "C" fn icotable_tail(table: &TableAnswer, file: &[u8], r: f64) -> ValueAnswer
    ensures { value_in result ≡ tail_shown (tail_out file.now (table_from table.now) r) }
{
    tail::tail_energy((*table).into(), file, r).into()
}
