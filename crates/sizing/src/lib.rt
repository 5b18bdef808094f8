// What a build needs, from its settings, top level and neighbour lists alone: no slab is sampled, and no vertex or
// angle is looked at.
#![tactic(auto)]

ghost use Rattle.std.specs.Prelude.{◌≡◌, ℕ, ◌<◌, ◌+◌, ◌*◌, suc, ◌≤◌, [], length, leb};
ghost use Rattle.lists.specs.Questions.{ask, first};
ghost use Rattle.refusals.specs.Numbers.{number, asked};
ghost use Rattle.grid.specs.Settings.{fresh_question};
ghost use Rattle.grid.specs.Atom.{atom_question};
ghost use Rattle.mesh.specs.Levels.{vertex_count, grid_size, cell_count, vertices_below};
ghost use Rattle.mesh.specs.Mesh.{mesh_of, neighbour_total, links_room, meshes_linked};
ghost use Rattle.sizing.specs.Sizing.{sizing_refusal, by_level, no_size, sized, sizing_out, atom_sizing_out};

use grid::{AtomGrid, Grid};
use mesh::Mesh;
use refusals::{Asked, Refusal};

// The lengths of the store and of the longest file, and for each level those of the locator's lists and the
// comparisons of one settle. Above the top level stands 0, and beside a number that refuses 0 everywhere.
#[repr(C)]
#[derive(Clone, Copy)]
pub struct Size {
    pub number: u64,
    pub store: u64,
    pub file: u64,
    pub cell_offsets: [u64; 16],
    pub cell_vertices: [u64; 16],
    pub face_offsets: [u64; 16],
    pub faces: [u64; 16],
    pub comparisons: [u64; 16],
}

// Questions 6 and 7 of the neighbour lists.
#[tactic(auto, using(refusals::proofs::Numbers::numbered), unfolding(lists::specs::Questions::ask))]
fn links_question(top: u8, counts: &[u8], neighbours: &[u16]) -> Asked
    ensures { asked result ≡ ask (links_room (vertices_below (suc top)) (length counts.now) (length neighbours.now)) 6
        (ask (meshes_linked top (mesh_of [] counts.now neighbours.now [])) 7 0) }
{
    if !mesh::links_room(top, counts.len(), neighbours.len()) {
        return Err(Refusal::ShortList);
    }
    let links = Mesh {
        vertices: &[],
        counts,
        neighbours,
        angles: &[],
    };
    if !mesh::meshes_linked(top, &links) {
        return Err(Refusal::Mesh);
    }
    Ok(())
}

// Questions 1 to 7, and 23 of the number of terms.
#[tactic(auto, using(refusals::proofs::Numbers::numbered), unfolding(lists::specs::Questions::ask, lists::specs::Questions::first, crate::specs::Sizing::sizing_refusal))]
fn sizing_question(g: Grid, top: u64, counts: &[u8], neighbours: &[u16], terms: u64) -> Asked
    ensures { asked result ≡ first (sizing_refusal (fresh_question g top) top counts.now neighbours.now)
        (ask (leb terms 4294967295) 23 0) }
{
    grid::fresh_question(g, top)?;
    links_question(top as u8, counts, neighbours)?;
    if 4294967295 < terms {
        return Err(Refusal::Term);
    }
    Ok(())
}

// Questions 1 to 7 against an atom.
#[tactic(auto, using(refusals::proofs::Numbers::numbered, builder::proofs::Laws::atom_asked), unfolding(lists::specs::Questions::first, crate::specs::Sizing::sizing_refusal))]
fn atom_sizing_question(g: AtomGrid, top: u64, counts: &[u8], neighbours: &[u16]) -> Asked
    ensures { asked result ≡ sizing_refusal (atom_question g top top) top counts.now neighbours.now }
{
    grid::atom_question(g, top, top)?;
    links_question(top as u8, counts, neighbours)
}

#[tactic(auto, unfolding(crate::specs::Sizing::no_size))]
fn no_size(e: Refusal) -> Size
    ensures { result ≡ no_size (number e) }
{
    Size {
        number: e.number(),
        store: 0,
        file: 0,
        cell_offsets: [0; 16],
        cell_vertices: [0; 16],
        face_offsets: [0; 16],
        faces: [0; 16],
        comparisons: [0; 16],
    }
}

// A number for each of 16 levels: what `of` makes of the first ones, as many as there are levels, and 0 for those
// above.
#[tactic(auto, using(crate::proofs::Levels::none_yet, crate::proofs::Levels::one_more))]
fn by_level<F: Fn(u8) -> u64>(levels: u8, of: F) -> [u64; 16]
    requires few { levels ≤ 16 }
    requires calls { (m : ℕ) → m < levels → F.pre of m }
    ensures { (f : ℕ → ℕ) → ((m r : ℕ) → m < levels → F.post of m r → r ≡ f m) → result ≡ by_level levels f }
{
    let mut out = [0; 16];
    for m in 0..levels {
        out[m as usize] = of(m);
    }
    out
}

// So many for each vertex of a level, and some more.
#[tactic(auto, using(mesh::proofs::Laws::count_le))]
fn of_vertices(m: u8, times: u64, more: u64) -> u64
    requires { (m ≤ 15) × (times ≤ 45) × (more ≤ 1) }
    ensures { result ≡ times * vertex_count m + more }
{
    times * mesh::vertex_count(m) + more
}

// One cell offset more than there are cells.
#[tactic(auto, using(mesh::proofs::Tables::cells_le), unfolding(mesh::specs::Levels::cell_count))]
fn of_cells(m: u8) -> u64
    requires { m ≤ 15 }
    ensures { result ≡ cell_count (grid_size (vertex_count m)) + 1 }
{
    let g = mesh::grid_size(m);
    6 * (g * g) + 1
}

// The comparisons of one settle: against each neighbour, so many for each vertex of a line and some more.
#[tactic(auto, using(mesh::proofs::Laws::count_le, crate::proofs::Levels::total_le))]
fn of_neighbours(m: u8, times: u64, more: u64, counts: &[u8]) -> u64
    requires { (m ≤ 15) × (times ≤ 131070) × (more ≤ 1) }
    ensures { result ≡ (times * vertex_count m + more) * neighbour_total counts.now m }
{
    (times * mesh::vertex_count(m) + more) * mesh::neighbour_total(m, counts)
}

// Of so many slabs with `each` energies at the top level, in a file with `head` bytes besides vertex counts, rows and
// energies.
fn sized(head: u64, slabs: u64, each: u64, top: u8, times: u64, more: u64, counts: &[u8]) -> Size
    requires { (head ≤ 85899345964) × (slabs ≤ 4294836225) × (slabs * each ≤ 4294967295)
        × (top ≤ 15) × (times ≤ 131070) × (more ≤ 1) }
    ensures { result ≡ sized head slabs each top (λ m. (times * vertex_count m + more) * neighbour_total counts.now m) }
{
    let levels = top + 1;
    let store = slabs * each;
    Size {
        number: 0,
        store,
        file: head + 4 * levels as u64 + 10 * slabs + 4 * store,
        cell_offsets: by_level(levels, |m| of_cells(m)),
        cell_vertices: by_level(levels, |m| of_vertices(m, 27, 0)),
        face_offsets: by_level(levels, |m| of_vertices(m, 1, 1)),
        faces: by_level(levels, |m| of_vertices(m, 45, 0)),
        comparisons: by_level(levels, |m| of_neighbours(m, times, more, counts)),
    }
}

// What a build of these settings needs, with so many terms in its tail. The counts in the settings are ignored, as
// fresh ignores them.
#[tactic(auto, using(refusals::proofs::Numbers::numbered, lists::proofs::Asking::first_yes, lists::proofs::Asking::ask_yes, table::proofs::OfTail::tail_small), unfolding(crate::specs::Sizing::sizing_out))]
pub fn sizing(g: Grid, top: u64, counts: &[u8], neighbours: &[u16], terms: u64) -> Size
    ensures { result ≡ sizing_out g top counts.now neighbours.now terms }
{
    if let Err(e) = sizing_question(g, top, counts, neighbours, terms) {
        return no_size(e);
    }
    let c = grid::counted(g);
    let m = top as u8;
    let head = 52 + table::tail_size(terms as u32);
    let slabs = c.n_r * c.n_omega;
    sized(head, slabs, mesh::per_level(m), m, 2 * c.n_omega, 0, counts)
}

// The same of a table against an atom, whose slabs are distance bins: each compares each neighbour once.
#[tactic(auto, using(refusals::proofs::Numbers::numbered, lists::proofs::Asking::first_yes, builder::proofs::Laws::atom_asked, grid::proofs::Laws::slab_energies_le), unfolding(crate::specs::Sizing::atom_sizing_out, crate::specs::Sizing::sizing_refusal))]
pub fn atom_sizing(g: AtomGrid, top: u64, counts: &[u8], neighbours: &[u16]) -> Size
    ensures { result ≡ atom_sizing_out g top counts.now neighbours.now }
{
    let c = grid::atom_counted(g);
    if let Err(e) = atom_sizing_question(c, top, counts, neighbours) {
        return no_size(e);
    }
    let m = top as u8;
    sized(40, c.n_r, mesh::vertex_count(m), m, 0, 1, counts)
}
