// Write: its questions, then the file.
ghost use Rattle.std.specs.Prelude.{◌≡◌, ◌≤◌, length};
ghost use Rattle.lists.specs.Lists.{put};
ghost use Rattle.mesh.specs.Levels.{per};
ghost use Rattle.mesh.specs.Lent.{lent};
ghost use Rattle.refusals.specs.Numbers.{asked};
ghost use Rattle.builder.specs.BuilderLists.{slabs, word_lists};
ghost use Rattle.writer.specs.Write.{WriteOut, written_values, file_from, write_out};
ghost use Rattle.writer.specs.Internal.{WriteReady, write_question};

use crate::sections::{put_head, put_rest};
use crate::slabs::{Slabs, rows_known};
use crate::tail::{LentTail, write_tail};
use builder::Builder;
use mesh::Mesh;
use refusals::{Asked, Refusal};
use rows::LentRows;

// Questions 1 to 7, then 15 of every row.
#[tactic(auto, using(refusals::proofs::Numbers::numbered, builder::proofs::Laws::words_long), unfolding(lists::specs::Questions::ask, lists::specs::Questions::first, builder::specs::Refusals::meshed_refusal))]
pub(crate) fn write_question(b: Builder, store: &[f64], words: &[u64], mesh: &Mesh) -> Asked
    ensures { asked result ≡ write_question b (lent mesh.now) (word_lists store.now words.now) }
{
    builder::meshed_refusal(b, store.len() as u64, words.len() as u64, mesh)?;
    let slabs = Slabs {
        rows: LentRows::Words(words),
        n: b.grid.n_r * b.grid.n_omega,
    };
    if !rows_known(&slabs, b.top) {
        return Err(Refusal::Row);
    }
    Ok(())
}

// The file, whose rows hold e energies together.
pub(crate) fn put_file(b: Builder, store: &[f64], words: &[u64], e: u64, out: &mut [u8])
    requires { WriteReady per 40 b.top (slabs b.grid) (word_lists store.now words.now) e (length out.old)
        × (b.grid.n_r ≤ 65535) × (b.grid.n_omega ≤ 65535) }
    ensures { out.new ≡ put out.old 0 (file_from b (word_lists store.now words.now)) }
{
    let slabs = Slabs {
        rows: LentRows::Words(words),
        n: b.grid.n_r * b.grid.n_omega,
    };
    let g = b.grid;
    put_head(
        out,
        &[g.rmin, g.dr, g.omega_step],
        &[g.n_r as u32, g.n_omega as u32],
    );
    put_rest(out, 40, b.top, e, store, &slabs);
}

// Writes the table file of a builder: that with a tail of no terms.
pub fn write(
    b: Builder,
    store: &[f64],
    words: &[u64],
    mesh: &Mesh,
    output: &mut [u8],
) -> Result<u64, Refusal>
    ensures { ◌≡◌ {A = WriteOut}
        (record { answer = written_values result; builder = b; lists = word_lists store.now words.now; output = output.new })
        (write_out b (lent mesh.now) (word_lists store.now words.now) output.old) }
{
    let no_tail = LentTail {
        coefficients: &[],
        kappas: &[],
        powers: &[],
        prefactor: &[],
    };
    write_tail(b, store, words, mesh, &no_tail, output)
}
