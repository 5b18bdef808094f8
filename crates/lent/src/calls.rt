// Set and settle with the builder lent to be altered: the by-value call, and the builder that it leaves stored back.
ghost use Rattle.std.specs.Prelude.{◌≡◌, ℕ};
ghost use Rattle.refusals.specs.Numbers.{asked};
ghost use Rattle.mesh.specs.Lent.{lent};
ghost use Rattle.builder.specs.BuilderLists.{word_lists};
ghost use Rattle.lent.specs.Calls.{LentOut, LentValues, lent_values, set_lent, settle_lent};

use crate::LentSettled;
use builder::{Builder, Settled};
use mesh::Mesh;
use refusals::{Asked, Refusal};

impl From<Settled<Builder>> for LentSettled {
    ghost from_gives = { λ s l. (l.gradient ≡ s.gradient) × (l.comparisons ≡ s.comparisons) };

    fn from(s: Settled<Builder>) -> LentSettled {
        LentSettled {
            gradient: s.gradient,
            comparisons: s.comparisons,
        }
    }
}

// Gives a slab its energies. A refused call leaves the builder as it was.
#[tactic(auto, unfolding(crate::specs::Calls::set_lent))]
pub fn set_lent(
    b: &mut Builder,
    store: &mut [f64],
    words: &mut [u64],
    ri: u64,
    oi: u64,
    energies: &[f64],
) -> Asked
    ensures { ◌≡◌ {A = LentOut ℕ}
        (record { answer = asked result; builder = b.new; lists = word_lists store.new words.new })
        (set_lent b.old (word_lists store.old words.old) ri oi energies.now) }
{
    *b = builder::set(*b, store, words, ri, oi, energies)?;
    Ok(())
}

// Settles a slice; where the level drops, it drops in the builder that is lent.
#[tactic(auto, unfolding(crate::specs::Calls::settle_lent))]
pub fn settle_lent(
    b: &mut Builder,
    store: &[f64],
    words: &mut [u64],
    mesh: &Mesh,
    ri: u64,
) -> Result<LentSettled, Refusal>
    ensures { ◌≡◌ {A = LentOut LentValues}
        (record { answer = lent_values result; builder = b.new; lists = word_lists store.now words.new })
        (settle_lent b.old (lent mesh.now) (word_lists store.now words.old) ri) }
{
    let s = builder::settle(*b, store, words, mesh, ri)?;
    *b = s.builder;
    Ok(s.into())
}
