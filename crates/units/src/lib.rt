// The units that every other crate speaks in: a byte offset, a column count and a fragment index as
// three types, so that none can stand for another; the limits of document 01; and its answers in
// numbers. No rule about texts or layouts stands here.
#![tactic(auto)]

ghost use Rattle.std.specs.Prelude.{◌≡◌};
ghost use Rattle.units.specs.Answers.{success, refusal};
ghost use Rattle.units.specs.Numbers.{number_of};

// A place in a text, counted in bytes from its start.
#[derive(Clone, Copy, Debug, PartialEq, Eq, PartialOrd, Ord)]
pub struct Offset(pub usize);

// A number of printer columns.
#[derive(Clone, Copy, Debug, PartialEq, Eq, PartialOrd, Ord)]
pub struct Columns(pub usize);

// A place in the lists of fragments, counted from 0.
#[derive(Clone, Copy, Debug, PartialEq, Eq, PartialOrd, Ord)]
pub struct FragmentIndex(pub usize);

// The longest text, in bytes.
pub const TEXT_MOST: usize = 60000;

// The widest line, in columns.
pub const WIDTH_MOST: u32 = 255;

// The most fragments that a layout takes.
pub const FRAGMENTS_MOST: usize = 4096;

// The largest of each of the five penalties.
pub const PENALTY_MOST: u32 = 1000000;

// The largest cost of a layout: 2^53.
pub const COST_MOST: u64 = 9007199254740992;

// What an entry answers in the numbers of document 01: 0 for success or the number of a refusal, its
// place, and the count. C callers get it by value.
#[repr(C)]
#[derive(Clone, Copy, Debug, PartialEq, Eq)]
pub struct Answer {
    pub number: u32,
    pub place: u64,
    pub count: u64,
}

// Success, with its count.
pub fn done(count: usize) -> Answer
    ensures { result ≡ success count }
{
    Answer {
        number: 0,
        place: 0,
        count: count as u64,
    }
}

// A refusal by its number, at a place.
pub fn refused(number: u32, place: usize) -> Answer
    ensures { result ≡ refusal number place }
{
    Answer {
        number,
        place: place as u64,
        count: 0,
    }
}

// The refusals of document 01, by name.
#[derive(Clone, Copy, Debug, PartialEq, Eq)]
pub enum Refusal {
    TooLong,
    NotUtf8,
    TooWide,
    TooMany,
    Unequal,
    BigPenalty,
    NoRoom,
    TooDear,
    Lengths,
    BadChange,
    WideLine,
    ManyLines,
    WrongMark,
    Cut,
}

impl Refusal {
    // Its number in document 01.
    pub fn number(self) -> u32
        ensures { result ≡ number_of self }
    {
        match self {
            Refusal::TooLong => 1,
            Refusal::NotUtf8 => 2,
            Refusal::TooWide => 3,
            Refusal::TooMany => 4,
            Refusal::Unequal => 5,
            Refusal::BigPenalty => 6,
            Refusal::NoRoom => 7,
            Refusal::TooDear => 8,
            Refusal::Lengths => 9,
            Refusal::BadChange => 10,
            Refusal::WideLine => 11,
            Refusal::ManyLines => 12,
            Refusal::WrongMark => 13,
            Refusal::Cut => 14,
        }
    }

    // The answer that gives it at a place.
    pub fn at(self, place: usize) -> Answer
        ensures { result ≡ refusal (number_of self) place }
    {
        refused(self.number(), place)
    }
}
