// The faces of each vertex, in the order of `extract_faces`. No face is kept anywhere before it is written: those of v are found from v and its
// neighbours, which are gone through ascending.
ghost use Rattle.std.specs.Prelude.{◌≡◌, [], ◌∷◌, ℕ, ◌+◌, ◌*◌, ◌<◌, ◌≤◌, length};
ghost use Rattle.lists.specs.Lists.{put, joined};
ghost use Rattle.mesh.specs.Mesh.{neighbour};
ghost use Rattle.mesh.specs.Faces.{face};
ghost use Rattle.mesh.specs.Lent.{lent};
ghost use Rattle.search.specs.Cells.{faces_of, flat};
ghost use Rattle.locator.specs.Internal.{Graph, only, wanted, touches, thirds, block, Next, FacesOut, faces_out};

use mesh::Mesh;

// i, j, k is a face, and v is a vertex of it.
#[tactic(auto, using(crate::proofs::Blocks::wanted_are), unfolding(crate::specs::Internal::wanted, mesh::specs::Faces::is_face, mesh::specs::Faces::has))]
pub fn wanted(mesh: &Mesh, i: u32, j: u32, k: u32, v: u32) -> bool
    ensures { result ≡ wanted (lent mesh.now) i j k v }
{
    i < j && j < k && ((i == v) | ((j == v) | (k == v))) && mesh::lists(mesh, j, k)
}

// Face number at, of three places each.
fn put_face(i: u32, j: u32, k: u32, out: &mut [u16], at: usize)
    requires { (i < 65536) × (j < 65536) × (k < 65536) × (3 * at + 3 ≤ length out.old) }
    ensures { out.new ≡ put out.old (3 * at) (i ∷ j ∷ k ∷ []) }
{
    let p = 3 * at;
    out[p] = i as u16;
    out[p + 1] = j as u16;
    out[p + 2] = k as u16;
}

fn put_wanted(mesh: &Mesh, i: u32, j: u32, k: u32, v: u32, out: &mut [u16], at: usize) -> usize
    requires { (i < 65536) × (j < 65536) × (k < 65536)
        × (3 * (at + length (only (wanted (lent mesh.now) i j k v) (face i j k))) ≤ length out.old) }
    ensures { (result ≡ at + length (only (wanted (lent mesh.now) i j k v) (face i j k)))
        × (out.new ≡ put out.old (3 * at) (flat (only (wanted (lent mesh.now) i j k v) (face i j k)))) }
{
    if !wanted(mesh, i, j, k, v) {
        return at;
    }
    put_face(i, j, k, out, at);
    at + 1
}

// v is i, or one of its neighbours.
#[tactic(auto, unfolding(crate::specs::Internal::touches))]
pub fn touches(mesh: &Mesh, i: u32, v: u32) -> bool
    ensures { result ≡ touches (lent mesh.now) i v }
{
    i == v || mesh::lists(mesh, i, v)
}

// The faces of v whose least vertices are i and j, the third among i's first c neighbours.
fn put_third(mesh: &Mesh, c: u32, i: u32, j: u32, v: u32, out: &mut [u16], at: usize) -> usize
    requires { (i < 65536) × (j < 65536) × ((y : ℕ) → y < c → neighbour (lent mesh.now) i y < 65536)
        × (3 * (at + length (thirds (lent mesh.now) v i c j)) ≤ length out.old) }
    ensures { (result ≡ at + length (thirds (lent mesh.now) v i c j))
        × (out.new ≡ put out.old (3 * at) (flat (thirds (lent mesh.now) v i c j))) }
{
    if j <= i {
        return at;
    }
    if (i < v) & (v < j) {
        return at;
    }
    let mut to = at;
    for y in 0..c {
        let k = mesh::neighbour(mesh.neighbours, i, y);
        to = put_wanted(mesh, i, j, k, v, out, to);
    }
    to
}

// The faces of v whose least vertex is i.
fn put_block(mesh: &Mesh, n: u32, i: u32, v: u32, out: &mut [u16], at: usize) -> usize
    requires { Graph n (lent mesh.now) × (i < n)
        × (3 * (at + length (block (lent mesh.now) v i)) ≤ length out.old) }
    ensures { (result ≡ at + length (block (lent mesh.now) v i))
        × (out.new ≡ put out.old (3 * at) (flat (block (lent mesh.now) v i))) }
{
    if !touches(mesh, i, v) {
        return at;
    }
    let c = mesh::degree(mesh.counts, i);
    let mut to = at;
    for x in 0..c {
        let j = mesh::neighbour(mesh.neighbours, i, x);
        to = put_third(mesh, c, i, j, v, out, to);
    }
    to
}

// The smaller of w and best, where w is at or above from.
fn nearer(w: u32, from: u32, best: u32) -> u32
    ensures { (result ≤ best) × (from ≤ w → result ≤ w) × (from ≤ best → from ≤ result) }
{
    if w < from {
        return best;
    }
    if w < best { w } else { best }
}

// The next vertex from `from` on that is v or touches it.
fn next(mesh: &Mesh, n: u32, v: u32, from: u32) -> u32
    requires { Graph n (lent mesh.now) × (v < n) × (from ≤ n) }
    ensures { Next (lent mesh.now) n v from result }
{
    let c = mesh::degree(mesh.counts, v);
    let mut best = nearer(v, from, n);
    for k in 0..c {
        best = nearer(mesh::neighbour(mesh.neighbours, v, k), from, best);
    }
    best
}

// The faces of v: the least vertex of none is above v.
fn put_faces_of(mesh: &Mesh, n: u32, v: u32, out: &mut [u16], at: usize) -> usize
    requires { Graph n (lent mesh.now) × (v < n)
        × (3 * (at + length (faces_of (lent mesh.now) n v)) ≤ length out.old) }
    ensures { (result ≡ at + length (faces_of (lent mesh.now) n v))
        × (out.new ≡ put out.old (3 * at) (flat (faces_of (lent mesh.now) n v))) }
{
    let mut to = at;
    let mut i = next(mesh, n, v, 0);
    while i <= v {
        to = put_block(mesh, n, i, v, out, to);
        i = next(mesh, n, v, i + 1);
    }
    to
}

// The faces of each vertex, and where these start, counted in faces.
pub(crate) fn put_faces(mesh: &Mesh, n: u32, offsets: &mut [u32], out: &mut [u16])
    requires { Graph n (lent mesh.now) × (n < length offsets.old)
        × (3 * length (joined n (faces_of (lent mesh.now) n)) ≤ length out.old)
        × (length (joined n (faces_of (lent mesh.now) n)) ≤ 4294967295) }
    ensures { ◌≡◌ {A = FacesOut}
        (record { offsets = offsets.new; entries = out.new })
        (faces_out (lent mesh.now) n offsets.old out.old) }
{
    let mut to = 0;
    for v in 0..n {
        offsets[v as usize] = to as u32;
        to = put_faces_of(mesh, n, v, out, to);
    }
    offsets[n as usize] = to as u32;
}
