// The thirteen numbers by which calls refuse.
ghost use Rattle.std.specs.Prelude.{◌≡◌, ◌≤◌, OkIff};
ghost use Rattle.leaves.specs.Refusals.{number as number_of, refusal as refusal_of};

#[derive(Clone, Copy, Debug, PartialEq, Eq)]
pub enum Refusal {
    BadRooms,
    ShortLoan,
    BadMap,
    BlockFull,
    FieldsFull,
    StoreFull,
    WrongPhase,
    ShortOutput,
    BadVersion,
    BadLength,
    BadTrailer,
    CutShort,
    TooFar,
}

pub fn number(refusal: Refusal) -> u8
    ensures { result ≡ number_of refusal }
{
    match refusal {
        Refusal::BadRooms => 1,
        Refusal::ShortLoan => 2,
        Refusal::BadMap => 3,
        Refusal::BlockFull => 4,
        Refusal::FieldsFull => 5,
        Refusal::StoreFull => 6,
        Refusal::WrongPhase => 7,
        Refusal::ShortOutput => 8,
        Refusal::BadVersion => 9,
        Refusal::BadLength => 10,
        Refusal::BadTrailer => 11,
        Refusal::CutShort => 12,
        Refusal::TooFar => 13,
    }
}

impl From<Refusal> for u8 {
    ghost from_gives = { λ refusal n. n ≡ number_of refusal };

    fn from(refusal: Refusal) -> u8 {
        number(refusal)
    }
}

// A number that no refusal has.
#[derive(Clone, Copy, Debug, PartialEq, Eq)]
pub struct NoRefusal(pub u8);

impl TryFrom<u8> for Refusal {
    type Error = NoRefusal;

    ghost try_from_gives = { λ n r. OkIff r ((1 ≤ n) × (n ≤ 13)) (refusal_of n) };

    fn try_from(n: u8) -> Result<Refusal, NoRefusal> {
        match n {
            1 => Ok(Refusal::BadRooms),
            2 => Ok(Refusal::ShortLoan),
            3 => Ok(Refusal::BadMap),
            4 => Ok(Refusal::BlockFull),
            5 => Ok(Refusal::FieldsFull),
            6 => Ok(Refusal::StoreFull),
            7 => Ok(Refusal::WrongPhase),
            8 => Ok(Refusal::ShortOutput),
            9 => Ok(Refusal::BadVersion),
            10 => Ok(Refusal::BadLength),
            11 => Ok(Refusal::BadTrailer),
            12 => Ok(Refusal::CutShort),
            13 => Ok(Refusal::TooFar),
            _ => Err(NoRefusal(n)),
        }
    }
}
