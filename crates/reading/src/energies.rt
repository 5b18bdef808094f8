// A reading in two stages, so that many at a time wait for memory together: the first finds where the energies are,
// and the second loads them and makes one of them.
ghost use Rattle.std.specs.Prelude.{◌≡◌, true, false, ◌*◌, ◌≤◌, ◌<◌};
ghost use Rattle.reading.specs.Resolve.{reading_of, linear, nearest_pick, face_pick};
ghost use Rattle.reading.specs.Reading.{read_picks};
ghost use Rattle.reading.specs.Internal.{table_for, NearestBelow, LocatedBelow, CornersInside, face_terms, finished, StagedInside, Ready};

use crate::combine::{energy, face_places_below, joint, plain, row_terms};
use crate::places::items_inside;
use crate::{Corners, Energy, RowTable, Staged};
use refusals::Refusal;
use search::{Located, Nearest};

// `nearest` without its energy.
pub(crate) fn stage_pair(
    s: RowTable,
    file: &[u8],
    offset: u64,
    n: u64,
    x: Nearest,
    y: Nearest,
) -> Result<Staged, Refusal>
    requires { (offset < 4294967296) × (n ≤ 655362) × NearestBelow n x × NearestBelow n y }
    ensures { Ready file.now s.energies.start result
        (read_picks file.now (table_for s) linear false offset (nearest_pick n x y)) }
{
    joint(x.number, y.number)?;
    let place = offset + (x.vertex * n + y.vertex);
    let held = items_inside(s.energies, 4, file.len() as u64);
    if held <= place {
        return Err(Refusal::NotLent);
    }
    Ok(Staged::Pair {
        place,
        distance_a: x.distance,
        distance_b: y.distance,
    })
}

// `interpolated`, by the plain sum, without its energies.
pub(crate) fn stage_faces(
    s: RowTable,
    file: &[u8],
    offset: u64,
    n: u64,
    x: Located,
    y: Located,
) -> Result<Staged, Refusal>
    requires { (offset < 4294967296) × (n ≤ 655362) × LocatedBelow n x × LocatedBelow n y }
    ensures { Ready file.now s.energies.start result
        (read_picks file.now (table_for s) linear true offset (face_pick n x y)) }
{
    joint(x.number, y.number)?;
    let corners = Corners {
        offset,
        n,
        f: x.face,
        g: y.face,
        p: x.weights,
        q: y.weights,
    };
    let held = items_inside(s.energies, 4, file.len() as u64);
    if !face_places_below(held, &corners) {
        return Err(Refusal::NotLent);
    }
    Ok(Staged::Faces(corners))
}

// The nine terms as `face_terms` has them, which is compiled into the single reading.
#[tactic(auto, unfolding(crate::specs::Internal::face_terms))]
fn nine_terms(file: &[u8], start: u64, x: &Corners) -> f64
    requires { CornersInside file.now start x.now }
    ensures { result ≡ face_terms file.now start x.now.offset x.now.n x.now.f x.now.g x.now.p x.now.q }
{
    let a = row_terms(file, start, x.offset, x.f.a * x.n, x.g, x.p.a, x.q, 0.0);
    let b = row_terms(file, start, x.offset, x.f.b * x.n, x.g, x.p.b, x.q, a);
    row_terms(file, start, x.offset, x.f.c * x.n, x.g, x.p.c, x.q, b)
}

// The second stage.
pub(crate) fn finish(
    file: &[u8],
    start: u64,
    staged: Result<Staged, Refusal>,
) -> Result<Energy, Refusal>
    requires { StagedInside file.now start staged }
    ensures { reading_of result ≡ finished file.now start staged }
{
    match staged? {
        Staged::Known(energy) => Ok(energy),
        Staged::Pair {
            place,
            distance_a,
            distance_b,
        } => Ok(Energy {
            distance_a,
            energy: energy(file, start, place),
            distance_b,
        }),
        Staged::Faces(corners) => Ok(plain(nine_terms(file, start, &corners))),
    }
}
