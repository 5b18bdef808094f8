// Why a call is refused. The C interface gives each refusal by its number.
#![tactic(auto)]

ghost use Rattle.std.specs.Prelude.{◌≡◌};
ghost use Rattle.refusals.specs.Numbers.{number, asked};

// Each variant is named after what its question asks; docs/REFUSALS.md has each question and an example.
#[derive(Clone, Copy, PartialEq, Eq, Debug)]
pub enum Refusal {
    Settings = 1,
    Level = 2,
    BinCount = 3,
    OwnCount = 4,
    TooManyEnergies = 5,
    ShortList = 6,
    Mesh = 7,
    Bin = 8,
    EnergyCount = 9,
    NanEnergy = 10,
    OtherLevel = 11,
    ShortOutput = 12,
    Sections = 13,
    FileGrid = 14,
    Row = 15,
    Tiling = 16,
    FileNan = 17,
    Query = 18,
    NotLent = 19,
    EmptyCell = 20,
    ReadingBeta = 21,
    Prefactor = 22,
    Term = 23,
    ViewerBound = 24,
    SlabPlace = 25,
    Span = 26,
}

impl Refusal {
    pub fn number(self) -> u64
        ensures { result ≡ number self }
    {
        self as u64
    }
}

// Questions that were put: nothing, or the first one that was answered no.
pub type Asked = Result<(), Refusal>;

// As a number, 0 where none was.
pub fn number_of(a: Asked) -> u64
    ensures { result ≡ asked a }
{
    match a {
        Ok(()) => 0,
        Err(e) => e.number(),
    }
}
