// Distances known within a span.
ghost use Rattle.std.specs.Prelude.{◌≡◌};
ghost use Rattle.span.specs.Spans.{span_values, span_out};
ghost use Rattle.icotable.specs.Answers.{table_from};
ghost use Rattle.icotable.specs.SpanAnswers.{spanned_in};

use crate::TableAnswer;
use refusals::Refusal;
use span::Spanned;

// The first and the last distance bin of a span, the smallest and largest energy in their rows, and how many of the
// Scalar rows hold a NaN.
#[repr(C)]
#[derive(Clone, Copy)]
pub struct SpannedAnswer {
    pub number: u64,
    pub first: u64,
    pub last: u64,
    pub smallest: f64,
    pub largest: f64,
    pub scalar_nans: u64,
}

impl From<Result<Spanned, Refusal>> for SpannedAnswer {
    ghost from_gives = { λ a r. spanned_in r ≡ span_values a };

    #[tactic(auto, unfolding(crate::specs::SpanAnswers::spanned_in))]
    fn from(a: Result<Spanned, Refusal>) -> SpannedAnswer {
        match a {
            Ok(s) => SpannedAnswer {
                number: 0,
                first: s.first,
                last: s.last,
                smallest: s.smallest,
                largest: s.largest,
                scalar_nans: s.scalar_nans,
            },
            Err(e) => SpannedAnswer {
                number: e.number(),
                first: 0,
                last: 0,
                smallest: 0.0,
                largest: 0.0,
                scalar_nans: 0,
            },
        }
    }
}

// The bins and the energies of the distances from `low` to `high`, at a dihedral angle; the table is lent, as to a reading.
#[unsafe(no_mangle)]
pub extern "C" fn icotable_span(
    table: &TableAnswer,
    file: &[u8],
    low: f64,
    high: f64,
    omega: f64,
) -> SpannedAnswer
    ensures { spanned_in result ≡ span_out file.now (table_from table.now) low high omega }
{
    span::span((*table).into(), file, low, high, omega).into()
}
