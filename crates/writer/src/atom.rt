// Write of a table against an atom: its questions, then the file.
ghost use Rattle.std.specs.Prelude.{◌≡◌, ◌≤◌, length};
ghost use Rattle.lists.specs.Lists.{put};
ghost use Rattle.mesh.specs.Lent.{lent};
ghost use Rattle.mesh.specs.Levels.{vertex_count};
ghost use Rattle.refusals.specs.Numbers.{asked};
ghost use Rattle.builder.specs.BuilderLists.{lists_of};
ghost use Rattle.writer.specs.Write.{written_values};
ghost use Rattle.writer.specs.Atom.{AtomWriteOut, atom_file_from, atom_write_out};
ghost use Rattle.writer.specs.Internal.{WriteReady, atom_write_question};

use crate::sections::{put_head, put_rest};
use crate::slabs::{Slabs, energy_total, file_size, rows_known};
use builder::{AtomBuilder, Lengths};
use mesh::Mesh;
use refusals::{Asked, Refusal};
use rows::LentRows;

// Questions 1 to 7, then 15 of every row.
#[tactic(auto, using(refusals::proofs::Numbers::numbered), unfolding(lists::specs::Questions::ask, lists::specs::Questions::first, builder::specs::Atom::atom_meshed_refusal))]
fn atom_write_question(
    b: AtomBuilder,
    store: &[f64],
    kinds: &[u8],
    levels: &[u8],
    values: &[u32],
    mesh: &Mesh,
) -> Asked
    ensures { asked result ≡ atom_write_question b (lent mesh.now) (lists_of store.now kinds.now levels.now values.now) }
{
    let lengths = Lengths {
        store: store.len() as u64,
        kinds: kinds.len() as u64,
        levels: levels.len() as u64,
        values: values.len() as u64,
    };
    builder::atom_meshed_refusal(b, lengths, mesh)?;
    let slabs = Slabs {
        rows: LentRows::Lists(kinds, levels, values),
        n: b.grid.n_r,
    };
    if !rows_known(&slabs, b.top) {
        return Err(Refusal::Row);
    }
    Ok(())
}

// The file, whose rows hold e energies together.
fn put_atom_file(
    b: AtomBuilder,
    store: &[f64],
    kinds: &[u8],
    levels: &[u8],
    values: &[u32],
    e: u64,
    out: &mut [u8],
)
    requires { WriteReady vertex_count 28 b.top b.grid.n_r (lists_of store.now kinds.now levels.now values.now) e (length out.old)
        × (b.grid.n_r ≤ 65535) }
    ensures { out.new ≡ put out.old 0 (atom_file_from b (lists_of store.now kinds.now levels.now values.now)) }
{
    let slabs = Slabs {
        rows: LentRows::Lists(kinds, levels, values),
        n: b.grid.n_r,
    };
    put_head(out, &[b.grid.rmin, b.grid.dr], &[b.grid.n_r as u32]);
    put_rest(out, 28, b.top, e, store, &slabs);
}

// Writes the table file of a builder against an atom.
pub fn atom_write(
    b: AtomBuilder,
    store: &[f64],
    kinds: &[u8],
    levels: &[u8],
    values: &[u32],
    mesh: &Mesh,
    output: &mut [u8],
) -> Result<u64, Refusal>
    ensures { ◌≡◌ {A = AtomWriteOut}
        (record { answer = written_values result; builder = b; lists = lists_of store.now kinds.now levels.now values.now; output = output.new })
        (atom_write_out b (lent mesh.now) (lists_of store.now kinds.now levels.now values.now) output.old) }
{
    atom_write_question(b, store, kinds, levels, values, mesh)?;
    let slabs = Slabs {
        rows: LentRows::Lists(kinds, levels, values),
        n: b.grid.n_r,
    };
    let e = energy_total(&slabs);
    let size = file_size(28, b.top, slabs.n, e);
    if (output.len() as u64) < size {
        return Err(Refusal::ShortOutput);
    }
    put_atom_file(b, store, kinds, levels, values, e, output);
    Ok(size)
}
