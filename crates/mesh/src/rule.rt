// The mesh rule. The entries are read by functions that have an answer at every place, so that no list has to be questioned before another.
ghost use Rattle.std.specs.Prelude.{◌≡◌, ◌&&◌, [], ◌+◌, ◌*◌, ◌≤◌, length, get_or, eqb};
ghost use Rattle.std.specs.Float.{nan};
ghost use Rattle.lists.specs.Lists.{any_up_to};
ghost use Rattle.mesh.specs.Levels.{vertex_count};
ghost use Rattle.mesh.specs.Mesh.{within, lists, angle_kept, neighbour_linked, vertex_linked, links_kept, angles_of, angles_kept, vertices_finite, keeps_rule, mesh_room, mesh_long};
ghost use Rattle.mesh.specs.Internal.{links};
ghost use Rattle.mesh.specs.Lent.{lent};

use crate::Mesh;
use crate::levels::vertex_count;
use lists::entry_or;

// How many neighbours v has; 0 where no count was lent.
pub fn degree(counts: &[u8], v: u32) -> u32
    ensures { result ≡ get_or counts.now v 0 }
{
    entry_or(counts, v as usize, 0) as u32
}

// The neighbour at place k of v; 0 where none was lent.
pub fn neighbour(neighbours: &[u16], v: u32, k: u32) -> u32
    ensures { result ≡ get_or neighbours.now (6 * v + k) 0 }
{
    entry_or(neighbours, 6 * v as usize + k as usize, 0) as u32
}

// The entry at place i; a NaN where none was lent.
pub fn entry(list: &[f64], i: usize) -> f64
    ensures { result ≡ get_or list.now i nan }
{
    entry_or(list, i, 0.0 / 0.0)
}

// w is among the k entries from a place on, all of which are there.
#[tactic(auto, using(lists::proofs::Counting::any_found), unfolding(lists::specs::Lists::any_up_to))]
fn among(neighbours: &[u16], at: usize, k: u32, w: u32) -> bool
    requires { at + k ≤ length neighbours.now }
    ensures { result ≡ any_up_to k (λ j. eqb (get_or neighbours.now (at + j) 0) w) }
{
    for j in 0..k {
        if neighbours[at + j as usize] as u32 == w {
            return true;
        }
    }
    false
}

// w is among the first k neighbours of v. Where all of these are there, as in every mesh that is asked about, none is asked for singly.
#[tactic(auto, using(lists::proofs::Counting::any_found), unfolding(lists::specs::Lists::any_up_to, crate::specs::Mesh::within))]
fn within(neighbours: &[u16], v: u32, k: u32, w: u32) -> bool
    ensures { result ≡ within (links [] neighbours.now) v k w }
{
    let at = 6 * v as usize;
    if at + k as usize <= neighbours.len() {
        return among(neighbours, at, k, w);
    }
    for j in 0..k {
        if neighbour(neighbours, v, j) == w {
            return true;
        }
    }
    false
}

// w is among the neighbours of v.
#[tactic(auto, unfolding(crate::specs::Mesh::lists, crate::specs::Mesh::within))]
pub fn lists(mesh: &Mesh, v: u32, w: u32) -> bool
    ensures { result ≡ lists (lent mesh.now) v w }
{
    within(mesh.neighbours, v, degree(mesh.counts, v), w)
}

// The neighbour at place k of v keeps the rule, but for its angle.
#[tactic(auto, unfolding(crate::specs::Mesh::neighbour_linked, crate::specs::Mesh::lists, crate::specs::Mesh::within))]
fn neighbour_linked(n: u32, mesh: &Mesh, v: u32, k: u32) -> bool
    ensures { result ≡ neighbour_linked n (lent mesh.now) v k }
{
    let w = neighbour(mesh.neighbours, v, k);
    if n <= w {
        return false;
    }
    if w == v {
        return false;
    }
    if within(mesh.neighbours, v, k, w) {
        return false;
    }
    lists(mesh, w, v)
}

#[tactic(auto, using(lists::proofs::Counting::all_fails), unfolding(lists::specs::Lists::all_up_to, crate::specs::Mesh::vertex_linked))]
fn vertex_linked(n: u32, mesh: &Mesh, v: u32) -> bool
    ensures { result ≡ vertex_linked n (lent mesh.now) v }
{
    let d = degree(mesh.counts, v);
    if d < 5 {
        return false;
    }
    if 6 < d {
        return false;
    }
    for k in 0..d {
        if !neighbour_linked(n, mesh, v, k) {
            return false;
        }
    }
    true
}

// The part of the mesh rule that neighbour counts and neighbours decide.
#[tactic(auto, using(lists::proofs::Counting::all_fails), unfolding(lists::specs::Lists::all_up_to, crate::specs::Mesh::links_kept))]
pub fn links_kept(n: u32, mesh: &Mesh) -> bool
    ensures { result ≡ links_kept n (lent mesh.now) }
{
    for v in 0..n {
        if !vertex_linked(n, mesh, v) {
            return false;
        }
    }
    true
}

#[tactic(auto, unfolding(crate::specs::Mesh::angle_kept))]
fn angle_kept(x: f64) -> bool
    ensures { result ≡ angle_kept x }
{
    ieee::is_finite(x) & !(x < 0.0)
}

// An angle that is not lent is a NaN, and keeps no rule.
#[tactic(auto, using(lists::proofs::Counting::all_fails), unfolding(lists::specs::Lists::all_up_to, crate::specs::Mesh::angles_of))]
fn angles_of(mesh: &Mesh, v: u32) -> bool
    ensures { result ≡ angles_of (lent mesh.now) v }
{
    let d = degree(mesh.counts, v);
    let at = 6 * v as usize;
    let end = at + d as usize;
    if mesh.angles.len() < end {
        return d == 0;
    }
    let mut all = true;
    for x in &mesh.angles[at..end] {
        all &= angle_kept(*x);
    }
    all
}

#[tactic(auto, using(lists::proofs::Counting::all_fails), unfolding(lists::specs::Lists::all_up_to, crate::specs::Mesh::angles_kept))]
fn angles_kept(n: u32, mesh: &Mesh) -> bool
    ensures { result ≡ angles_kept n (lent mesh.now) }
{
    for v in 0..n {
        if !angles_of(mesh, v) {
            return false;
        }
    }
    true
}

#[tactic(auto, using(lists::proofs::Counting::all_fails), unfolding(lists::specs::Lists::all_up_to, crate::specs::Mesh::vertices_finite))]
pub fn vertices_finite(n: u32, vertices: &[f64]) -> bool
    ensures { result ≡ vertices_finite n vertices.now }
{
    let end = 3 * n as usize;
    if vertices.len() < end {
        return false;
    }
    let mut all = true;
    for x in &vertices[..end] {
        all &= ieee::is_finite(*x);
    }
    all
}

// The mesh rule, of one level's lists, part by part.
#[tactic(auto, using(crate::proofs::Parts::rule_parts))]
pub(crate) fn keeps_rule(n: u32, mesh: &Mesh) -> bool
    ensures { result ≡ keeps_rule n (lent mesh.now) }
{
    if !vertices_finite(n, mesh.vertices) {
        return false;
    }
    if !links_kept(n, mesh) {
        return false;
    }
    angles_kept(n, mesh)
}

// The lengths that n vertices need.
#[tactic(auto, unfolding(crate::specs::Mesh::mesh_room))]
pub fn mesh_room(n: u32, vertices: usize, counts: usize, neighbours: usize, angles: usize) -> bool
    ensures { result ≡ mesh_room n vertices counts neighbours angles }
{
    let m = n as usize;
    (3 * m <= vertices) & ((m <= counts) & ((6 * m <= neighbours) & (6 * m <= angles)))
}

impl Mesh<'_> {
    // The lists have the lengths that n vertices need.
    pub fn is_long(&self, n: u32) -> bool
        ensures { result ≡ mesh_long n (lent self.now) }
    {
        mesh_room(
            n,
            self.vertices.len(),
            self.counts.len(),
            self.neighbours.len(),
            self.angles.len(),
        )
    }
}

// A level's mesh is as long as it needs to be, and keeps the rule.
#[tactic(auto, using(crate::proofs::Laws::count_le))]
pub fn mesh_keeps(level: u8, mesh: &Mesh) -> bool
    ensures { result ≡ mesh_long (vertex_count level) (lent mesh.now) && keeps_rule (vertex_count level) (lent mesh.now) }
{
    let n = vertex_count(level) as u32;
    if !mesh.is_long(n) {
        return false;
    }
    keeps_rule(n, mesh)
}
