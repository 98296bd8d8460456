// The refusals of documents 01 and 02, by name. Every layer answers with these; the numbers are given in one place.
#![tactic(auto)]

ghost use Rattle.std.specs.Prelude.{◌≡◌};
ghost use Rattle.refusals.specs.Numbers.{number_of};

#[derive(Clone, Copy, Debug, PartialEq, Eq)]
pub enum Refusal {
    RoomSmall = 1,
    FormLong = 2,
    EndsEarly = 3,
    BadPrefix = 4,
    AtomLong = 5,
    BytesAfter = 6,
    UnitsOut = 7,
    Fails = 8,
    NoOperator = 9,
    StepsOut = 10,
    PathLong = 11,
    PassesOut = 12,
    TooDeep = 13,
    OutputShort = 14,
    NoParse = 15,
    TextLong = 16,
    ReportFull = 17,
    NotATrace = 18,
    TraceCut = 19,
    TraceLong = 20,
}

// The number that document 01's table, or 02's request, gives a refusal.
pub fn number_of(r: Refusal) -> u8
    ensures { result ≡ number_of r }
{
    r as u8
}
