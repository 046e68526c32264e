// Why an operation refuses: the Rust's error.rs, whose `LatexError` is some of these, each with its number, of document 01 or of a request of document 02.
#![tactic(auto)]

ghost use Rattle.std.specs.Prelude.{◌≡◌};
ghost use Rattle.error.specs.Numbers.{number};

#[derive(Clone, Copy, PartialEq, Eq, Debug)]
pub enum Refusal {
    TooLong = 1,
    IllFormed = 2,
    StoreTooSmall = 3,
    InvalidNumberOfDollarSigns = 4,
    ThreeDollarSigns = 5,
    UnexpectedToken = 6,
    MissingParensethis = 7,
    UnknownEnvironment = 8,
    MiddleOperand = 9,
    TooDeep = 10,
    WorkTooSmall = 11,
    OutputTooSmall = 12,
    RepeatedMark = 13,
    NulByte = 14,
    ForbiddenCharacter = 15,
}

// The number of a refusal.
impl From<Refusal> for u32 {
    ghost from_gives = { λ r n. n ≡ number r };

    fn from(r: Refusal) -> u32 {
        r as u32
    }
}
