// The repacking of a loosely packed file.
ghost use Rattle.std.specs.Prelude.{◌≡◌};
ghost use Rattle.repack.specs.Repack.{RepackOut, repacked_values, repack_out};
ghost use Rattle.icotable.specs.RepackAnswers.{repacked_in};

use refusals::Refusal;
use repack::Repacked;

// The length of the packed file, and the number of rows whose offset is another.
#[repr(C)]
#[derive(Clone, Copy)]
pub struct RepackAnswer {
    pub number: u64,
    pub length: u64,
    pub moved: u64,
}

impl From<Result<Repacked, Refusal>> for RepackAnswer {
    ghost from_gives = { λ a r. repacked_in r ≡ repacked_values a };

    #[tactic(auto, unfolding(crate::specs::RepackAnswers::repacked_in))]
    fn from(a: Result<Repacked, Refusal>) -> RepackAnswer {
        match a {
            Ok(r) => RepackAnswer {
                number: 0,
                length: r.length,
                moved: r.moved,
            },
            Err(e) => RepackAnswer {
                number: e.number(),
                length: 0,
                moved: 0,
            },
        }
    }
}

#[unsafe(no_mangle)]
pub extern "C" fn icotable_repack(file: &[u8], output: &mut [u8]) -> RepackAnswer
    ensures { ◌≡◌ {A = RepackOut} (record { answer = repacked_in result; output = output.new }) (repack_out file.now output.old) }
{
    repack::repack(file, output).into()
}
