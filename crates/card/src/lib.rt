// A whole card: its geometry, the files it shows, when it is sound, making one and reading one.
#![tactic(auto)]

ghost use Rattle.std.specs.Prelude.{◌≡◌};
ghost use Rattle.card.specs.Answers.{number_of, number_in, counted};

use counts::CrashCount;
use entries::Run;

// One line a file: name, bytes, start, sectors.
#[repr(C)]
#[derive(Clone, Copy)]
pub struct Line {
    pub size: u32,
    pub name: [u8; 32],
    pub run: Run,
}

// The number from the table and the count that goes with it, side by side as C takes them; inside a call gives a Result.
#[repr(C)]
#[derive(Clone, Copy)]
pub struct Answer {
    pub number: u32,
    pub count: u32,
}

// What reading a card gives: C, N, the file count and the clear bits shown.
#[derive(Clone, Copy)]
pub struct Contents {
    pub c: CrashCount,
    pub n: u32,
    pub files: u32,
    pub free: u32,
}

// Why a call is refused, with its number in the table.
#[derive(Clone, Copy, PartialEq, Eq, Debug)]
pub enum Refusal {
    // a geometry outside the limits, or an image of another length than it says
    Shape = 1,
    // "the card is not sound; or the session does not fit"
    Unsound = 2,
    // "mount of a sound card with C = N"
    CountsUsed = 3,
    // "the session is closed"
    Closed = 4,
    // "name length or byte outside the rule"
    BadName = 5,
    // "no such file in the present view"
    NoFile = 6,
    // "put finds no entry by its rule"
    NoEntry = 7,
    // "no k neighbouring data sectors are free in both views"
    NoRoom = 8,
    // "change or sync in a worn session"
    Worn = 9,
    // "lent output shorter than the answer"
    ShortOutput = 10,
    // "sector number S or more"
    NoSector = 11,
}

impl From<Refusal> for u32 {
    ghost from_gives = { λ r n. n ≡ number_of r };

    fn from(r: Refusal) -> u32 {
        r as u32
    }
}

// "A refusal returns its number and a zero count"; what is done has number 0.
impl From<Result<u32, Refusal>> for Answer {
    ghost from_gives = { λ r a. a ≡ counted r };

    fn from(r: Result<u32, Refusal>) -> Answer {
        match r {
            Ok(count) => Answer { number: 0, count },
            Err(refusal) => Answer {
                number: u32::from(refusal),
                count: 0,
            },
        }
    }
}

// The number alone: 0 for what is done.
pub fn number<T: Copy>(r: Result<T, Refusal>) -> u32
    ensures { result ≡ number_in r }
{
    match r {
        Ok(_) => 0,
        Err(refusal) => u32::from(refusal),
    }
}
