// The settling of a slice.
ghost use Rattle.std.specs.Prelude.{◌≡◌, ◌+◌, ◌*◌, ◌≤◌, length, take, drop};
ghost use Rattle.mesh.specs.Lent.{lent};
ghost use Rattle.mesh.specs.Mesh.{neighbour_total};
ghost use Rattle.builder.specs.BuilderLists.{word_lists};
ghost use Rattle.mesh.specs.Levels.{vertex_count, per};
ghost use Rattle.rows.specs.Rows.{resolution_at, row_with};
ghost use Rattle.rows.specs.Words.{word_rows};
ghost use Rattle.builder.specs.Internal.{SettleReady, settled_slab, SliceSettled, drops_by, dropped_by};

use crate::Builder;
use mesh::Mesh;
use settling::Tally;

// Settles slab s over the mesh of the current level.
fn settle_slab(b: Builder, store: &[f64], mesh: &Mesh, words: &mut [u64], s: u64, t: Tally) -> Tally
    requires { (b.top ≤ 15) × (b.level ≤ b.top) × (s * per b.top + per b.level ≤ length store.now) }
    ensures { settled_slab b.grid.threshold b.grid.beta (lent mesh.now) b.level t
        (row_with (resolution_at (word_rows words.old) s) (take (per b.level) (drop (s * per b.top) store.now))) s
        (word_rows words.old)
        result (word_rows words.new) }
{
    let level = b.level as u8;
    let at = (s * mesh::per_level(b.top as u8)) as usize;
    let end = at + mesh::per_level(level) as usize;
    let row = rows::resolution_in(words, s);
    let v = settling::verdict_of(
        b.grid.threshold,
        b.grid.beta,
        mesh,
        &store[at..end],
        level,
        row,
    );
    settling::replace_word_by(words, s, level, v);
    settling::tallied(level, t, row, v)
}

// Settles the slabs of a slice, one after another, over the mesh of the current level.
#[tactic(auto, using(crate::proofs::Turns::end))]
pub(crate) fn settle_rows(
    b: Builder,
    ri: u64,
    store: &[f64],
    mesh: &Mesh,
    words: &mut [u64],
) -> Tally
    requires { SettleReady b (word_lists store.now words.old) ri }
    ensures { SliceSettled b (lent mesh.now) (word_lists store.now words.old) ri
        result (word_rows words.new) }
{
    let base = ri * b.grid.n_omega;
    let mut t = Tally {
        gradient: 0.0,
        settled: false,
        clear: true,
        packed: b.packed,
        reached: 0,
    };
    for i in 0..b.grid.n_omega {
        t = settle_slab(b, store, mesh, words, base + i, t);
    }
    t
}

// The level drops after a slice.
#[tactic(auto, unfolding(crate::specs::Internal::drops_by))]
fn drops(t: Tally, threshold: f64, level: u64) -> bool
    ensures { result ≡ drops_by t threshold level }
{
    t.settled & (t.clear & ((t.gradient < threshold) & (0 < level)))
}

// The builder after a slice.
#[tactic(auto, using(crate::proofs::Changes::drops_above), unfolding(crate::specs::Internal::dropped_by))]
pub(crate) fn dropped(b: Builder, t: Tally) -> Builder
    ensures { result ≡ dropped_by b t }
{
    let level = if drops(t, b.grid.threshold, b.level) {
        b.level - 1
    } else {
        b.level
    };
    Builder {
        level,
        packed: t.packed,
        ..b
    }
}

// The comparisons of a slice: for each slab that reached the gradient the level's total of neighbours, once for each
// vertex of either molecule.
#[tactic(auto, using(mesh::proofs::Laws::count_le))]
pub(crate) fn compared(b: Builder, t: Tally, counts: &[u8]) -> u64
    requires { (b.level ≤ 15) × (t.reached ≤ 4294967295)
        × (neighbour_total counts.now b.level ≤ vertex_count b.level * 6) }
    ensures { result ≡ t.reached * (2 * vertex_count b.level * neighbour_total counts.now b.level) }
{
    let level = b.level as u8;
    let n = mesh::vertex_count(level);
    let total = mesh::neighbour_total(level, counts);
    t.reached * (2 * n * total)
}
