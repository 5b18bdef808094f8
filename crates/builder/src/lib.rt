// The builder of a table, by value; its store, rows and meshes are lent.
#![tactic(auto)]

ghost use Rattle.std.specs.Prelude.{◌≡◌, [], ◌≤◌, length};
ghost use Rattle.mesh.specs.Lent.{lent};
ghost use Rattle.rows.specs.Rows.{row_with};
ghost use Rattle.builder.specs.BuilderLists.{word_lists};
ghost use Rattle.builder.specs.Calls.{BuiltOut, SettleOut, built_values, settled_values, no_builder, fresh_builder, fresh_out, set_builder, set_out, settle_out};

use grid::{AtomGrid, Grid};
use mesh::Mesh;
use refusals::Refusal;
use rows::SlabResolution;

mod atom;
mod copies;
mod questions;
mod slices;

pub use atom::{atom_fresh, atom_meshed_refusal, atom_set, atom_settle};
pub use questions::meshed_refusal;

// The settings, the top level, the current one, and the number of packed energies: n·n of the level of each Mesh row.
#[repr(C)]
#[derive(Clone, Copy)]
pub struct Builder {
    pub grid: Grid,
    pub top: u64,
    pub level: u64,
    pub packed: u64,
}

// The same of a table against an atom.
#[repr(C)]
#[derive(Clone, Copy)]
pub struct AtomBuilder {
    pub grid: AtomGrid,
    pub top: u64,
    pub level: u64,
}

// What settle answers: the builder after it, the largest gradient, and the neighbour comparisons made. Against an
// atom the gradient is that of the slab.
#[derive(Clone, Copy)]
pub struct Settled<B> {
    pub builder: B,
    pub gradient: f64,
    pub comparisons: u64,
}

// The lengths of the lists that are lent to a builder's calls.
#[derive(Clone, Copy)]
pub struct Lengths {
    pub store: u64,
    pub kinds: u64,
    pub levels: u64,
    pub values: u64,
}

impl Lengths {
    fn of(store: &[f64], kinds: &[u8], levels: &[u8], values: &[u32]) -> Lengths
        ensures { ◌≡◌ {A = Lengths} result (record {
          store = length store.now;
          kinds = length kinds.now;
          levels = length levels.now;
          values = length values.now;
        }) }
    {
        Lengths {
            store: store.len() as u64,
            kinds: kinds.len() as u64,
            levels: levels.len() as u64,
            values: values.len() as u64,
        }
    }

    // Rows as words are one list, as long as each of the three.
    fn of_words(store: u64, words: u64) -> Lengths
        ensures { ◌≡◌ {A = Lengths} result (record { store = store; kinds = words; levels = words; values = words }) }
    {
        Lengths {
            store,
            kinds: words,
            levels: words,
            values: words,
        }
    }
}

#[tactic(auto, unfolding(crate::specs::Calls::fresh_builder))]
fn fresh_builder(g: Grid, top: u64) -> Builder
    ensures { result ≡ fresh_builder g top }
{
    Builder {
        grid: grid::counted(g),
        top,
        level: top,
        packed: 0,
    }
}

// A builder of these settings, with no slab set; the counts in the settings are ignored.
#[tactic(auto, using(refusals::proofs::Numbers::numbered, crate::proofs::Laws::words_long), unfolding(crate::specs::Calls::fresh_out, crate::specs::Refusals::meshed_refusal))]
pub fn fresh(
    g: Grid,
    top: u64,
    store: &mut [f64],
    words: &mut [u64],
    mesh: &Mesh,
) -> Result<Builder, Refusal>
    ensures { ◌≡◌ {A = BuiltOut}
        (record { answer = built_values no_builder result; lists = word_lists store.new words.new })
        (fresh_out g top (lent mesh.now) (word_lists store.old words.old)) }
{
    let made = fresh_builder(g, top);
    questions::meshed_refusal(made, store.len() as u64, words.len() as u64, mesh)?;
    let slabs = made.grid.n_r * made.grid.n_omega;
    copies::clear_slabs(slabs, mesh::per_level(made.top as u8), store, words);
    Ok(made)
}

// The builder after a set that replaces this row.
#[tactic(auto, unfolding(crate::specs::Calls::set_builder))]
fn set_builder(b: Builder, row: SlabResolution) -> Builder
    requires { b.level ≤ 15 }
    ensures { result ≡ set_builder b (row_with row []) }
{
    let old = settling::packed_row(row);
    let new = mesh::per_level(b.level as u8);
    Builder {
        packed: settling::packed_after(b.packed, old, new),
        ..b
    }
}

// Gives a slab its energies, which are those of the current level.
#[tactic(auto, using(refusals::proofs::Numbers::numbered, crate::proofs::Laws::words_long, crate::proofs::Laws::accepted), unfolding(crate::specs::Calls::set_out, crate::specs::Refusals::set_refusal))]
pub fn set(
    b: Builder,
    store: &mut [f64],
    words: &mut [u64],
    ri: u64,
    oi: u64,
    energies: &[f64],
) -> Result<Builder, Refusal>
    ensures { ◌≡◌ {A = BuiltOut}
        (record { answer = built_values b result; lists = word_lists store.new words.new })
        (set_out b (word_lists store.old words.old) ri oi energies.now) }
{
    questions::set_refusal(b, store.len() as u64, words, ri, oi, energies)?;
    let s = ri * b.grid.n_omega + oi;
    let after = set_builder(b, rows::resolution_in(words, s));
    let z = mesh::per_level(b.top as u8);
    copies::set_slab(z, b.level as u8, store, words, s, energies);
    Ok(after)
}

// Settles a slice: each of its slabs that holds energies, and then the level.
#[tactic(auto, using(refusals::proofs::Numbers::numbered, crate::proofs::Accepted::ready), unfolding(crate::specs::Calls::settle_out))]
pub fn settle(
    b: Builder,
    store: &[f64],
    words: &mut [u64],
    mesh: &Mesh,
    ri: u64,
) -> Result<Settled<Builder>, Refusal>
    ensures { ◌≡◌ {A = SettleOut}
        (record { answer = settled_values b result; lists = word_lists store.now words.new })
        (settle_out b (lent mesh.now) (word_lists store.now words.old) ri) }
{
    questions::settle_refusal(b, store, words, mesh, ri)?;
    let t = slices::settle_rows(b, ri, store, &mesh.level_part(b.level as u8), words);
    Ok(Settled {
        builder: slices::dropped(b, t),
        gradient: t.gradient,
        comparisons: slices::compared(b, t, mesh.counts),
    })
}
