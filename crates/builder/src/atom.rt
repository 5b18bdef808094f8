// The builder of a table against an atom, by value; its store, rows and meshes are lent. A slab is a distance bin,
// and a slice of its own.
ghost use Rattle.std.specs.Prelude.{◌≡◌, ◌&&◌, suc, ◌≤◌};
ghost use Rattle.lists.specs.Questions.{ask, first};
ghost use Rattle.refusals.specs.Numbers.{asked};
ghost use Rattle.mesh.specs.Lent.{lent};
ghost use Rattle.mesh.specs.Levels.{vertices_below};
ghost use Rattle.mesh.specs.Mesh.{level_part, mesh_long, meshes_keep, neighbour_total};
ghost use Rattle.rows.specs.Rows.{rows_of};
ghost use Rattle.settling.specs.Settling.{comparisons_for};
ghost use Rattle.builder.specs.BuilderLists.{lists_of};
ghost use Rattle.builder.specs.Atom.{AtomBuiltOut, AtomSettleOut, atom_built_values, atom_settled_values, no_atom_builder, atom_builder_question, atom_room, atom_fresh_builder, atom_fresh_out, atom_set_question, atom_set_out, atom_settle_refusal, atom_settle_out};
ghost use Rattle.builder.specs.Internal.{AtomSettleReady, atom_settle_question, atom_settled_slab};

use crate::{AtomBuilder, Lengths, Settled, copies, questions};
use grid::AtomGrid;
use mesh::Mesh;
use refusals::{Asked, Refusal};
use settling::{AtomVerdict, Verdict};

// Questions 1 to 7 of a call that the meshes are lent to.
#[tactic(auto, using(refusals::proofs::Numbers::numbered, crate::proofs::Laws::atom_asked, grid::proofs::Laws::slab_energies_le), unfolding(lists::specs::Questions::ask, lists::specs::Questions::first, crate::specs::Atom::atom_room))]
pub fn atom_meshed_refusal(b: AtomBuilder, l: Lengths, mesh: &Mesh) -> Asked
    ensures { asked result ≡ first (atom_builder_question b)
        (ask (atom_room b.grid b.top l.store l.kinds l.levels l.values
        && mesh_long (vertices_below (suc b.top)) (lent mesh.now)) 6
        (ask (meshes_keep b.top (lent mesh.now)) 7 0)) }
{
    grid::atom_question(b.grid, b.top, b.level)?;
    let z = mesh::vertex_count(b.top as u8);
    questions::mesh_question(b.grid.n_r, z, b.top, l, mesh)
}

#[tactic(auto, unfolding(crate::specs::Atom::atom_fresh_builder))]
fn atom_fresh_builder(g: AtomGrid, top: u64) -> AtomBuilder
    ensures { result ≡ atom_fresh_builder g top }
{
    AtomBuilder {
        grid: grid::atom_counted(g),
        top,
        level: top,
    }
}

// A builder of these settings, with no slab set; the count in the settings is ignored.
#[tactic(auto, using(refusals::proofs::Numbers::numbered), unfolding(crate::specs::Atom::atom_fresh_builder, crate::specs::Atom::atom_fresh_out, crate::specs::Atom::atom_meshed_refusal))]
pub fn atom_fresh(
    g: AtomGrid,
    top: u64,
    store: &mut [f64],
    kinds: &mut [u8],
    levels: &mut [u8],
    values: &mut [u32],
    mesh: &Mesh,
) -> Result<AtomBuilder, Refusal>
    ensures { ◌≡◌ {A = AtomBuiltOut}
        (record {
          answer = atom_built_values no_atom_builder result;
          lists = lists_of store.new kinds.new levels.new values.new;
        })
        (atom_fresh_out g top (lent mesh.now) (lists_of store.old kinds.old levels.old values.old)) }
{
    let made = atom_fresh_builder(g, top);
    atom_meshed_refusal(made, Lengths::of(store, kinds, levels, values), mesh)?;
    let z = mesh::vertex_count(made.top as u8);
    copies::atom_clear_slabs(made.grid.n_r, z, store, kinds, levels, values);
    Ok(made)
}

// Questions 1 to 6 and 8 to 10, of set.
#[tactic(auto, using(refusals::proofs::Numbers::numbered, crate::proofs::Laws::atom_asked, grid::proofs::Laws::slab_energies_le), unfolding(lists::specs::Questions::ask, lists::specs::Questions::first, crate::specs::Atom::atom_room, crate::specs::Atom::atom_set_question))]
fn atom_set_refusal(b: AtomBuilder, l: Lengths, ri: u64, energies: &[f64]) -> Asked
    ensures { asked result ≡ first (atom_builder_question b)
        (ask (atom_room b.grid b.top l.store l.kinds l.levels l.values) 6
        (atom_set_question b.grid b.level ri energies.now)) }
{
    grid::atom_question(b.grid, b.top, b.level)?;
    let z = mesh::vertex_count(b.top as u8);
    let m = mesh::vertex_count(b.level as u8);
    questions::set_question(b.grid.n_r, z, l, ri < b.grid.n_r, m, energies)
}

// Gives a slab its energies, which are those of the current level.
#[tactic(auto, using(refusals::proofs::Numbers::numbered, crate::proofs::Laws::atom_accepted), unfolding(crate::specs::Atom::atom_set_out, crate::specs::Atom::atom_set_refusal))]
pub fn atom_set(
    b: AtomBuilder,
    store: &mut [f64],
    kinds: &mut [u8],
    levels: &mut [u8],
    values: &mut [u32],
    ri: u64,
    energies: &[f64],
) -> Result<AtomBuilder, Refusal>
    ensures { ◌≡◌ {A = AtomBuiltOut}
        (record { answer = atom_built_values b result; lists = lists_of store.new kinds.new levels.new values.new })
        (atom_set_out b (lists_of store.old kinds.old levels.old values.old) ri energies.now) }
{
    atom_set_refusal(b, Lengths::of(store, kinds, levels, values), ri, energies)?;
    let z = mesh::vertex_count(b.top as u8);
    copies::atom_set_slab(z, b.level as u8, store, kinds, levels, values, ri, energies);
    Ok(b)
}

// Questions 8, 15 and 11 of settle, whose slice is one row.
#[tactic(auto, using(refusals::proofs::Numbers::numbered), unfolding(lists::specs::Questions::ask, crate::specs::Internal::atom_settle_question))]
fn atom_settle_question(
    bins: u64,
    top: u64,
    level: u64,
    kinds: &[u8],
    levels: &[u8],
    values: &[u32],
    ri: u64,
) -> Asked
    ensures { asked result ≡ atom_settle_question bins top level (rows_of kinds.now levels.now values.now) ri }
{
    if bins <= ri {
        return Err(Refusal::Bin);
    }
    if !rows::row_known(top, kinds, levels, ri) {
        return Err(Refusal::Row);
    }
    if !questions::from_level(level, rows::resolution_at(kinds, levels, values, ri)) {
        return Err(Refusal::OtherLevel);
    }
    Ok(())
}

// Questions 1 to 8, 15 and 11, of settle.
#[tactic(auto, using(refusals::proofs::Numbers::numbered), unfolding(lists::specs::Questions::first, crate::specs::Atom::atom_meshed_refusal))]
fn atom_settle_refusal(
    b: AtomBuilder,
    store: &[f64],
    kinds: &[u8],
    levels: &[u8],
    values: &[u32],
    mesh: &Mesh,
    ri: u64,
) -> Asked
    ensures { asked result ≡ atom_settle_refusal b (lent mesh.now)
        (lists_of store.now kinds.now levels.now values.now) ri }
{
    atom_meshed_refusal(b, Lengths::of(store, kinds, levels, values), mesh)?;
    atom_settle_question(b.grid.n_r, b.top, b.level, kinds, levels, values, ri)
}

// Settles slab ri over the mesh of the current level.
fn atom_settle_slab(
    b: AtomBuilder,
    ri: u64,
    store: &[f64],
    mesh: &Mesh,
    kinds: &mut [u8],
    levels: &mut [u8],
    values: &mut [u32],
) -> AtomVerdict
    requires { AtomSettleReady b store.now ri }
    ensures { atom_settled_slab b (lent mesh.now) store.now
        ri (rows_of kinds.old levels.old values.old) result (rows_of kinds.new levels.new values.new) }
{
    let level = b.level as u8;
    let at = (ri * mesh::vertex_count(b.top as u8)) as usize;
    let end = at + mesh::vertex_count(level) as usize;
    let v = settling::atom_verdict_of(
        b.grid.threshold,
        b.grid.beta,
        mesh,
        &store[at..end],
        level,
        rows::resolution_at(kinds, levels, values, ri),
    );
    settling::replace_by(kinds, levels, values, ri, level, v.verdict);
    v
}

// The comparisons of a slab: the level's total of neighbours, if it reached the gradient.
#[tactic(auto, unfolding(settling::specs::Settling::comparisons_for))]
fn atom_compared(level: u64, v: Verdict, counts: &[u8]) -> u64
    requires { level ≤ 15 }
    ensures { result ≡ comparisons_for (neighbour_total counts.now level) v }
{
    if settling::settles(v) {
        return mesh::neighbour_total(level as u8, counts);
    }
    0
}

// Settles a slab, if it holds energies, and then the level.
#[tactic(auto, using(refusals::proofs::Numbers::numbered, crate::proofs::Accepted::atom_ready), unfolding(crate::specs::Atom::atom_settle_out))]
pub fn atom_settle(
    b: AtomBuilder,
    store: &[f64],
    kinds: &mut [u8],
    levels: &mut [u8],
    values: &mut [u32],
    mesh: &Mesh,
    ri: u64,
) -> Result<Settled<AtomBuilder>, Refusal>
    ensures { ◌≡◌ {A = AtomSettleOut}
        (record { answer = atom_settled_values b result; lists = lists_of store.now kinds.new levels.new values.new })
        (atom_settle_out b (lent mesh.now) (lists_of store.now kinds.old levels.old values.old) ri) }
{
    atom_settle_refusal(b, store, kinds, levels, values, mesh, ri)?;
    let part = mesh.level_part(b.level as u8);
    let v = atom_settle_slab(b, ri, store, &part, kinds, levels, values);
    let level = settling::atom_level(b.grid.threshold, b.level, v);
    Ok(Settled {
        builder: AtomBuilder { level, ..b },
        gradient: v.gradient,
        comparisons: atom_compared(b.level, v.verdict, mesh.counts),
    })
}
