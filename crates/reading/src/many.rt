// Many readings in one call, in two stages of some poses each, so that they wait for memory together.
ghost use Rattle.std.specs.Prelude.{◌≡◌, true, [], ◌∷◌, ◌+◌, ◌*◌, ◌≤◌, ◌<◌, length};
ghost use Rattle.lists.specs.Lists.{put, joined};
ghost use Rattle.search.specs.Lent.{lent_locator};
ghost use Rattle.reading.specs.Resolve.{reading_of, reading_values, way_valid};
ghost use Rattle.reading.specs.Internal.{weighed_by, beta_held, Ready, pose_reading};
ghost use Rattle.reading.specs.Poses.{way_by, poses_held, shown, ReadingsOut, readings_out};

use crate::combine::plain;
use crate::energies::finish;
use crate::first_stage::stage;
use crate::{Energy, Query, Staged};
use refusals::Refusal;
use search::{Locator, Vector3};
use table::Table;

// How many poses three lists of these lengths have room for.
#[tactic(auto, unfolding(crate::specs::Poses::poses_held))]
fn poses_held(poses: usize, numbers: usize, answers: usize) -> usize
    ensures { result ≡ poses_held poses numbers answers }
{
    (poses / 8).min(numbers.min(answers / 3))
}

// Question 21, put once for all poses: the beta, or 0 for the plain sum; none where it is answered no.
fn weighting(beta: &[f64]) -> Option<f64>
    ensures { (beta_held result ≡ way_valid (way_by beta.now))
        × (beta_held result ≡ true → weighed_by result ≡ way_by beta.now) }
{
    if beta.len() == 0 {
        return Some(0.0);
    }
    let x = beta[0];
    if ieee::is_finite(x) & (0.0 < x) {
        return Some(x);
    }
    None
}

// Leaves the number and the values of pose i in the lists.
fn store(i: usize, answer: Result<Energy, Refusal>, numbers: &mut [u64], answers: &mut [f64])
    requires { (i < length numbers.old) × (i * 3 + 3 ≤ length answers.old) }
    ensures { (numbers.new ≡ put numbers.old i ((reading_values (reading_of answer)).number ∷ []))
        × (answers.new ≡ put answers.old (i * 3) (shown (reading_values (reading_of answer)))) }
{
    let (number, e) = match answer {
        Ok(e) => (0, e),
        Err(e) => (e.number(), plain(0.0)),
    };
    let k = i * 3;
    numbers[i] = number;
    answers[k] = e.energy;
    answers[k + 1] = e.distance_a;
    answers[k + 2] = e.distance_b;
}

// The first stage of pose i.
#[tactic(auto, unfolding(crate::specs::Internal::pose_reading, crate::specs::Poses::pose_at))]
fn stage_pose(
    t: Table,
    file: &[u8],
    vertices: &[f64],
    locator: &Locator,
    poses: &[f64],
    beta: Option<f64>,
    i: usize,
) -> Result<Staged, Refusal>
    requires { i * 8 + 8 ≤ length poses.now }
    ensures { Ready file.now t.energies_start result
        (pose_reading file.now t vertices.now (lent_locator locator.now) beta poses.now i) }
{
    let k = i * 8;
    let q = Query {
        r: poses[k],
        omega: poses[k + 1],
        a: Vector3 {
            x: poses[k + 2],
            y: poses[k + 3],
            z: poses[k + 4],
        },
        b: Vector3 {
            x: poses[k + 5],
            y: poses[k + 6],
            z: poses[k + 7],
        },
    };
    stage(t, file, vertices, locator, &q, beta)
}

// So many poses from one on, as many at most as there is room to keep what the first stage leaves of each.
fn read_block(
    t: Table,
    file: &[u8],
    vertices: &[f64],
    locator: &Locator,
    poses: &[f64],
    beta: Option<f64>,
    from: usize,
    count: usize,
    kept: &mut [Result<Staged, Refusal>],
    numbers: &mut [u64],
    answers: &mut [f64],
)
    requires { (count ≤ length kept.old) × ((from + count) * 8 ≤ length poses.now)
        × (from + count ≤ length numbers.old) × ((from + count) * 3 ≤ length answers.old) }
    ensures { (numbers.new ≡ put numbers.old from
        (joined count (λ k. (reading_values (pose_reading file.now t vertices.now
        (lent_locator locator.now) beta poses.now (from + k))).number ∷ [])))
        × (answers.new ≡ put answers.old (from * 3)
        (joined count (λ k. shown (reading_values (pose_reading file.now t vertices.now
        (lent_locator locator.now) beta poses.now (from + k)))))) }
{
    for i in 0..count {
        kept[i] = stage_pose(t, file, vertices, locator, poses, beta, from + i);
    }
    for j in 0..count {
        store(
            from + j,
            finish(file, t.energies_start, kept[j]),
            numbers,
            answers,
        );
    }
}

// Reads as many poses as the shortest list has room for, eight numbers each, and returns how many: weighted with the
// first beta, or plain where there is none. The number and the three values of each are left in the lists.
pub fn lookup_all(
    t: Table,
    file: &[u8],
    vertices: &[f64],
    locator: &Locator,
    poses: &[f64],
    beta: &[f64],
    numbers: &mut [u64],
    answers: &mut [f64],
) -> u64
    ensures { ◌≡◌ {A = ReadingsOut}
        (record { count = result; numbers = numbers.new; answers = answers.new })
        (readings_out file.now t vertices.now (lent_locator locator.now)
        (way_by beta.now) poses.now numbers.old answers.old) }
{
    let n = poses_held(poses.len(), numbers.len(), answers.len());
    let beta = weighting(beta);
    // of zeros alone, so that all are cleared at once
    let none: Result<Staged, Refusal> = Ok(Staged::Known(plain(0.0)));
    let mut kept = [none; 32];
    for block in 0..n.div_ceil(32) {
        let from = block * 32;
        let count = (n - from).min(32);
        read_block(
            t, file, vertices, locator, poses, beta, from, count, &mut kept, numbers, answers,
        );
    }
    n as u64
}
