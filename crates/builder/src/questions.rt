// The questions that a call puts before it acts. They take the lengths of the lists that are lent.
ghost use Rattle.std.specs.Prelude.{◌≡◌, not, ◌&&◌, [], suc, ◌*◌, ◌≤◌, eqb, length};
ghost use Rattle.std.specs.Float.Ieee.{is_nan};
ghost use Rattle.lists.specs.Questions.{ask, first};
ghost use Rattle.lists.specs.Lists.{every};
ghost use Rattle.refusals.specs.Numbers.{asked};
ghost use Rattle.mesh.specs.Lent.{lent};
ghost use Rattle.mesh.specs.Levels.{vertices_below};
ghost use Rattle.mesh.specs.Mesh.{mesh_long, meshes_keep};
ghost use Rattle.rows.specs.Rows.{row_with, row_known};
ghost use Rattle.rows.specs.Words.{word_rows};
ghost use Rattle.settling.specs.Settling.{from_level};
ghost use Rattle.builder.specs.BuilderLists.{slab, slab_room, list_room, rows_known, word_lists};
ghost use Rattle.builder.specs.Internal.{rows_from_level, settle_question};
ghost use Rattle.builder.specs.Refusals.{builder_question, set_question, settle_refusal};

use crate::{Builder, Lengths};
use mesh::Mesh;
use refusals::{Asked, Refusal};
use rows::SlabResolution;

// Question 6 of store and rows: n slabs of z energies each.
#[tactic(auto, unfolding(rows::specs::Rows::row_room))]
fn slab_room(n: u64, z: u64, l: Lengths) -> bool
    requires { n * z ≤ 18446744073709551615 }
    ensures { result ≡ slab_room n z l.store l.kinds l.levels l.values }
{
    (n * z <= l.store) & ((n <= l.kinds) & ((n <= l.levels) & (n <= l.values)))
}

#[tactic(auto, using(bits::proofs::Laws::unlike_itself))]
fn is_number(x: f64) -> bool
    ensures { result ≡ not (is_nan x) }
{
    !(x != x)
}

// With no way out of the loop, so that it is compiled to many entries at a time.
#[tactic(auto, using(lists::proofs::Loops::every_turn), unfolding(lists::specs::Lists::every))]
fn no_nan(energies: &[f64]) -> bool
    ensures { result ≡ every (λ x. not (is_nan x)) energies.now }
{
    let mut held = true;
    for e in energies {
        held &= is_number(*e);
    }
    held
}

// Questions 6 and 8 to 10 of set: n slabs of z energies each, a bin that is inside or not, and m energies at the
// current level.
#[tactic(auto, using(refusals::proofs::Numbers::numbered), unfolding(lists::specs::Questions::ask))]
pub(crate) fn set_question(
    n: u64,
    z: u64,
    l: Lengths,
    inside: bool,
    m: u64,
    energies: &[f64],
) -> Asked
    requires { n * z ≤ 18446744073709551615 }
    ensures { asked result ≡ ask (slab_room n z l.store l.kinds l.levels l.values) 6 (ask inside 8
        (ask (eqb (length energies.now) m) 9 (ask (every (λ x. not (is_nan x)) energies.now) 10 0))) }
{
    if !slab_room(n, z, l) {
        return Err(Refusal::ShortList);
    }
    if !inside {
        return Err(Refusal::Bin);
    }
    if energies.len() as u64 != m {
        return Err(Refusal::EnergyCount);
    }
    if !no_nan(energies) {
        return Err(Refusal::NanEnergy);
    }
    Ok(())
}

// Questions 1 to 6, 8 to 10 and 15, of set.
#[tactic(auto, using(refusals::proofs::Numbers::numbered, crate::proofs::Laws::asked), unfolding(lists::specs::Questions::ask, lists::specs::Questions::first, crate::specs::BuilderLists::list_room, crate::specs::Refusals::set_question))]
pub(crate) fn set_refusal(
    b: Builder,
    store: u64,
    words: &[u64],
    ri: u64,
    oi: u64,
    energies: &[f64],
) -> Asked
    ensures { asked result ≡ first (builder_question b)
        (ask (list_room b.grid b.top store (length words.now) (length words.now) (length words.now)) 6
        (first (set_question b.grid b.level ri oi energies.now)
        (ask (row_known b.top (word_rows words.now) (slab b.grid ri oi)) 15 0))) }
{
    grid::question(b.grid, b.top, b.level)?;
    set_question(
        b.grid.n_r * b.grid.n_omega,
        mesh::per_level(b.top as u8),
        Lengths::of_words(store, words.len() as u64),
        (ri < b.grid.n_r) & (oi < b.grid.n_omega),
        mesh::per_level(b.level as u8),
        energies,
    )?;
    if !rows::known_in(b.top, words, ri * b.grid.n_omega + oi) {
        return Err(Refusal::Row);
    }
    Ok(())
}

// Questions 6 and 7, of n slabs of z energies each and of the meshes.
#[tactic(auto, using(refusals::proofs::Numbers::numbered), unfolding(lists::specs::Questions::ask))]
pub(crate) fn mesh_question(n: u64, z: u64, top: u64, l: Lengths, mesh: &Mesh) -> Asked
    requires { (n * z ≤ 18446744073709551615) × (top ≤ 15) }
    ensures { asked result ≡ ask (slab_room n z l.store l.kinds l.levels l.values
        && mesh_long (vertices_below (suc top)) (lent mesh.now)) 6
        (ask (meshes_keep top (lent mesh.now)) 7 0) }
{
    if !slab_room(n, z, l) {
        return Err(Refusal::ShortList);
    }
    if !mesh::meshes_long(top as u8, mesh) {
        return Err(Refusal::ShortList);
    }
    if !mesh::meshes_keep(top as u8, mesh) {
        return Err(Refusal::Mesh);
    }
    Ok(())
}

// Questions 1 to 7 of a call that the meshes are lent to.
#[tactic(auto, using(refusals::proofs::Numbers::numbered, crate::proofs::Laws::asked), unfolding(lists::specs::Questions::ask, lists::specs::Questions::first, crate::specs::BuilderLists::list_room))]
pub fn meshed_refusal(b: Builder, store: u64, words: u64, mesh: &Mesh) -> Asked
    ensures { asked result ≡ first (builder_question b)
        (ask (list_room b.grid b.top store words words words
        && mesh_long (vertices_below (suc b.top)) (lent mesh.now)) 6
        (ask (meshes_keep b.top (lent mesh.now)) 7 0)) }
{
    grid::question(b.grid, b.top, b.level)?;
    mesh_question(
        b.grid.n_r * b.grid.n_omega,
        mesh::per_level(b.top as u8),
        b.top,
        Lengths::of_words(store, words),
        mesh,
    )
}

// The kind and level part of question 15, of the rows of a slice.
#[tactic(auto, using(lists::proofs::Counting::all_fails), unfolding(lists::specs::Lists::all_up_to, crate::specs::BuilderLists::rows_known))]
fn rows_known(top: u64, words: &[u64], s: u64, n: u64) -> bool
    requires { (s ≤ 4294967295) × (n ≤ 65535) }
    ensures { result ≡ rows_known top (word_rows words.now) s n }
{
    for i in 0..n {
        if !rows::known_in(top, words, s + i) {
            return false;
        }
    }
    true
}

// A row's energies, if it holds any, are from a level.
pub(crate) fn from_level(level: u64, row: SlabResolution) -> bool
    ensures { result ≡ from_level level (row_with row []) }
{
    match row {
        SlabResolution::Mesh(v, _) => v as u64 == level,
        SlabResolution::Scalar(_) | SlabResolution::Repulsive => true,
    }
}

// Question 11.
#[tactic(auto, using(lists::proofs::Counting::all_fails), unfolding(lists::specs::Lists::all_up_to, crate::specs::Internal::rows_from_level))]
fn rows_from_level(level: u64, words: &[u64], s: u64, n: u64) -> bool
    requires { (s ≤ 4294967295) × (n ≤ 65535) }
    ensures { result ≡ rows_from_level level (word_rows words.now) s n }
{
    for i in 0..n {
        if !from_level(level, rows::resolution_in(words, s + i)) {
            return false;
        }
    }
    true
}

// Questions 8, 15 and 11 of settle, with n rows a slice.
#[tactic(auto, using(refusals::proofs::Numbers::numbered), unfolding(lists::specs::Questions::ask, crate::specs::Internal::settle_question))]
fn settle_question(bins: u64, n: u64, top: u64, level: u64, words: &[u64], ri: u64) -> Asked
    requires { (bins ≤ 65535) × (n ≤ 65535) }
    ensures { asked result ≡ settle_question bins n top level (word_rows words.now) ri }
{
    if bins <= ri {
        return Err(Refusal::Bin);
    }
    let s = ri * n;
    if !rows_known(top, words, s, n) {
        return Err(Refusal::Row);
    }
    if !rows_from_level(level, words, s, n) {
        return Err(Refusal::OtherLevel);
    }
    Ok(())
}

// Questions 1 to 8, 15 and 11, of settle.
#[tactic(auto, using(refusals::proofs::Numbers::numbered), unfolding(lists::specs::Questions::first, crate::specs::Refusals::meshed_refusal))]
pub(crate) fn settle_refusal(
    b: Builder,
    store: &[f64],
    words: &[u64],
    mesh: &Mesh,
    ri: u64,
) -> Asked
    ensures { asked result ≡ settle_refusal b (lent mesh.now) (word_lists store.now words.now) ri }
{
    meshed_refusal(b, store.len() as u64, words.len() as u64, mesh)?;
    settle_question(b.grid.n_r, b.grid.n_omega, b.top, b.level, words, ri)
}
