// The lent forms behind plain signatures: a caller that holds a builder or records in a local lends them from such a
// function.
ghost use Rattle.std.specs.Prelude.{◌≡◌, set};
ghost use Rattle.mesh.specs.Lent.{lent};
ghost use Rattle.builder.specs.BuilderLists.{word_lists};
ghost use Rattle.lent.specs.Calls.{LentOut, LentValues, lent_values, settle_lent};
ghost use Rattle.lent.specs.Records.{gathered};

use builder::Builder;
use lent::{LentSettled, RowRecord};
use mesh::Mesh;
use refusals::Refusal;

// What is left of a call: the builder, and the rest of the answer.
#[derive(Clone, Copy)]
pub(crate) struct SettleLeft {
    pub(crate) builder: Builder,
    pub(crate) answer: Result<LentSettled, Refusal>,
}

pub(crate) fn settle_through(
    b: Builder,
    store: &[f64],
    words: &mut [u64],
    mesh: &Mesh,
    ri: u64,
) -> SettleLeft
    ensures { ◌≡◌ {A = LentOut LentValues}
        (record {
          answer = lent_values result.answer;
          builder = result.builder;
          lists = word_lists store.now words.new;
        })
        (settle_lent b (lent mesh.now) (word_lists store.now words.old) ri) }
{
    let mut builder = b;
    let answer = lent::settle_lent(&mut builder, store, words, mesh, ri);
    SettleLeft { builder, answer }
}

pub(crate) fn with_row(rows: [RowRecord; 2], s: usize, r: RowRecord) -> [RowRecord; 2]
    ensures { result ≡ set rows s r }
{
    let mut t = rows;
    lent::replace_row(&mut t, s, r);
    t
}

pub(crate) fn with_words(rows: [RowRecord; 2], words: &[u64]) -> [RowRecord; 2]
    ensures { result ≡ gathered words.now rows }
{
    let mut t = rows;
    let _ = lent::gather(&mut t, words);
    t
}
