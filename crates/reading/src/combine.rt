// The last stage: the energies that a search picked, and what they make together.
ghost use Rattle.std.specs.Prelude.{◌≡◌, true, false, ◌+◌, ◌*◌, ◌≤◌, ◌<◌, length};
ghost use Rattle.refusals.specs.Numbers.{asked};
ghost use Rattle.table.specs.Bytes.{number_at};
ghost use Rattle.std.specs.Float.{inf, binary64};
ghost use Rattle.std.specs.Float.Ieee.{of_bits};
ghost use Rattle.reading.specs.Resolve.{reading_of, linear, joint, nearest_pick, face_pick, widened};
ghost use Rattle.reading.specs.Reading.{read_picks};
ghost use Rattle.reading.specs.Internal.{plain_energy, table_for, way_of, IsSearched, NearestBelow, LocatedBelow, Small, RowInside, CornersInside, places_below, face_places_below, row_terms, face_terms, lesser, weighed, row_corners, face_corners, face_average};

use crate::places::{items_inside, u32_inside};
use crate::{Corners, Energy, RowTable};
use mesh::Face;
use refusals::{Asked, Refusal};
use search::{Located, Nearest, Weights};

// An energy without distances.
pub(crate) fn plain(energy: f64) -> Energy
    ensures { result ≡ plain_energy energy }
{
    Energy {
        distance_a: 0.0,
        energy,
        distance_b: 0.0,
    }
}

// What the numbers of two searches say: 19 for either direction before 20 for either.
#[tactic(auto, unfolding(crate::specs::Resolve::joint))]
pub(crate) fn joint(a: u64, b: u64) -> Asked
    requires { IsSearched a × IsSearched b }
    ensures { asked result ≡ joint a b }
{
    if (a == 19) | (b == 19) {
        return Err(Refusal::NotLent);
    }
    if (a != 0) | (b != 0) {
        return Err(Refusal::EmptyCell);
    }
    Ok(())
}

// Energy k of those that start at a byte.
pub(crate) fn energy(file: &[u8], start: u64, k: u64) -> f64
    requires { start + k * 4 + 4 ≤ length file.now }
    ensures { result ≡ widened (number_at 4 file.now (start + k * 4)) }
{
    bits::widened(u32_inside(file, start + k * 4))
}

// The energy of a pair of vertices, and how far they lie.
pub(crate) fn nearest(
    s: RowTable,
    file: &[u8],
    offset: u64,
    n: u64,
    x: Nearest,
    y: Nearest,
) -> Result<Energy, Refusal>
    requires { (offset < 4294967296) × (n ≤ 655362) × NearestBelow n x × NearestBelow n y }
    ensures { reading_of result ≡ read_picks file.now (table_for s) linear false offset (nearest_pick n x y) }
{
    joint(x.number, y.number)?;
    let k = offset + (x.vertex * n + y.vertex);
    let held = items_inside(s.energies, 4, file.len() as u64);
    if held <= k {
        return Err(Refusal::NotLent);
    }
    Ok(Energy {
        distance_a: x.distance,
        energy: energy(file, s.energies.start, k),
        distance_b: y.distance,
    })
}

// The energies of a vertex, whose places begin at k, against those of a face are among the first ones held.
pub(crate) fn places_below(held: u64, offset: u64, k: u64, f: Face) -> bool
    requires { (offset < 4294967296) × (k ≤ 429499351044) × Small f }
    ensures { result ≡ places_below held offset k f }
{
    (offset + (k + f.a) < held) & ((offset + (k + f.b) < held) & (offset + (k + f.c) < held))
}

pub(crate) fn face_places_below(held: u64, x: &Corners) -> bool
    requires { (x.now.offset < 4294967296) × (x.now.n ≤ 655362) × Small x.now.f × Small x.now.g }
    ensures { result ≡ face_places_below held x.now.offset x.now.n x.now.f x.now.g }
{
    places_below(held, x.offset, x.f.a * x.n, x.g)
        & (places_below(held, x.offset, x.f.b * x.n, x.g)
            & places_below(held, x.offset, x.f.c * x.n, x.g))
}

// A vertex's three terms of the sum, added to x.
#[tactic(auto, unfolding(crate::specs::Internal::row_terms))]
pub(crate) fn row_terms(
    file: &[u8],
    start: u64,
    offset: u64,
    k: u64,
    f: Face,
    w: f64,
    q: Weights,
    x: f64,
) -> f64
    requires { RowInside file.now start offset k f }
    ensures { result ≡ row_terms file.now start offset k f w q x }
{
    let y = x + w * energy(file, start, offset + (k + f.a)) * q.a;
    let z = y + w * energy(file, start, offset + (k + f.b)) * q.b;
    z + w * energy(file, start, offset + (k + f.c)) * q.c
}

#[tactic(auto, unfolding(crate::specs::Internal::face_terms))]
fn face_terms(file: &[u8], start: u64, x: &Corners) -> f64
    requires { CornersInside file.now start x.now }
    ensures { result ≡ face_terms file.now start x.now.offset x.now.n x.now.f x.now.g x.now.p x.now.q }
{
    let a = row_terms(file, start, x.offset, x.f.a * x.n, x.g, x.p.a, x.q, 0.0);
    let b = row_terms(file, start, x.offset, x.f.b * x.n, x.g, x.p.b, x.q, a);
    row_terms(file, start, x.offset, x.f.c * x.n, x.g, x.p.c, x.q, b)
}

// The least energy so far and that of a corner of weight w, unless the corner is dropped.
fn lesser(w: f64, e: f64, x: f64) -> f64
    ensures { result ≡ lesser w e x }
{
    if 0.0 < w { float::min(x, e) } else { x }
}

// A corner's term of the weighted sum, added to x, unless the corner is dropped.
fn weighed(beta: f64, u: f64, w: f64, e: f64, x: f64) -> f64
    ensures { result ≡ weighed beta u w e x }
{
    if 0.0 < w {
        return x + w * float::exp(-beta * (e - u));
    }
    x
}

// The least energy of a vertex's three corners and x.
#[tactic(auto, unfolding(crate::specs::Internal::row_corners))]
fn row_least(
    file: &[u8],
    start: u64,
    offset: u64,
    k: u64,
    f: Face,
    w: f64,
    q: Weights,
    x: f64,
) -> f64
    requires { RowInside file.now start offset k f }
    ensures { result ≡ row_corners file.now start lesser offset k f w q x }
{
    let y = lesser(w * q.a, energy(file, start, offset + (k + f.a)), x);
    let z = lesser(w * q.b, energy(file, start, offset + (k + f.b)), y);
    lesser(w * q.c, energy(file, start, offset + (k + f.c)), z)
}

fn face_least(file: &[u8], start: u64, x: &Corners) -> f64
    requires { CornersInside file.now start x.now }
    ensures { result ≡ face_corners file.now start lesser x.now.offset x.now.n x.now.f x.now.g x.now.p x.now.q
        (inf false) }
{
    let a = row_least(
        file,
        start,
        x.offset,
        x.f.a * x.n,
        x.g,
        x.p.a,
        x.q,
        1.0 / 0.0,
    );
    let b = row_least(file, start, x.offset, x.f.b * x.n, x.g, x.p.b, x.q, a);
    row_least(file, start, x.offset, x.f.c * x.n, x.g, x.p.c, x.q, b)
}

// A vertex's three terms of the weighted sum, added to x.
#[tactic(auto, unfolding(crate::specs::Internal::row_corners))]
fn row_weighed(
    file: &[u8],
    start: u64,
    offset: u64,
    k: u64,
    f: Face,
    w: f64,
    q: Weights,
    beta: f64,
    u: f64,
    x: f64,
) -> f64
    requires { RowInside file.now start offset k f }
    ensures { result ≡ row_corners file.now start (weighed beta u) offset k f w q x }
{
    let y = weighed(beta, u, w * q.a, energy(file, start, offset + (k + f.a)), x);
    let z = weighed(beta, u, w * q.b, energy(file, start, offset + (k + f.b)), y);
    weighed(beta, u, w * q.c, energy(file, start, offset + (k + f.c)), z)
}

fn face_weighed(file: &[u8], start: u64, x: &Corners, beta: f64, u: f64) -> f64
    requires { CornersInside file.now start x.now }
    ensures { result ≡ face_corners file.now start
        (weighed beta u) x.now.offset x.now.n x.now.f x.now.g x.now.p x.now.q (of_bits binary64 0) }
{
    let a = row_weighed(
        file,
        start,
        x.offset,
        x.f.a * x.n,
        x.g,
        x.p.a,
        x.q,
        beta,
        u,
        0.0,
    );
    let b = row_weighed(
        file,
        start,
        x.offset,
        x.f.b * x.n,
        x.g,
        x.p.b,
        x.q,
        beta,
        u,
        a,
    );
    row_weighed(
        file,
        start,
        x.offset,
        x.f.c * x.n,
        x.g,
        x.p.c,
        x.q,
        beta,
        u,
        b,
    )
}

// The average over two faces, weighted by temperature.
fn face_average(file: &[u8], start: u64, x: &Corners, beta: f64) -> f64
    requires { CornersInside file.now start x.now }
    ensures { result ≡ face_average file.now start x.now.offset x.now.n x.now.f x.now.g x.now.p x.now.q beta }
{
    let u = face_least(file, start, x);
    let sum = face_weighed(file, start, x, beta, u);
    if !ieee::is_finite(u) & !(u != u) {
        return 1.0 / 0.0;
    }
    if sum <= 0.0 {
        return 1.0 / 0.0;
    }
    u - float::ln(sum) / beta
}

// The sum over two faces, or the weighted average with a beta above 0.
pub(crate) fn interpolated(
    s: RowTable,
    file: &[u8],
    offset: u64,
    n: u64,
    x: Located,
    y: Located,
    beta: f64,
) -> Result<Energy, Refusal>
    requires { (offset < 4294967296) × (n ≤ 655362) × LocatedBelow n x × LocatedBelow n y }
    ensures { reading_of result ≡ read_picks file.now (table_for s) (way_of beta) true offset (face_pick n x y) }
{
    joint(x.number, y.number)?;
    let corners = Corners {
        offset,
        n,
        f: x.face,
        g: y.face,
        p: x.weights,
        q: y.weights,
    };
    let held = items_inside(s.energies, 4, file.len() as u64);
    if !face_places_below(held, &corners) {
        return Err(Refusal::NotLent);
    }
    if 0.0 < beta {
        return Ok(plain(face_average(file, s.energies.start, &corners, beta)));
    }
    Ok(plain(face_terms(file, s.energies.start, &corners)))
}
