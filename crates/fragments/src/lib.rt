// What both layouts take and answer: lists of fragments and of line widths, the tests of such lists that
// stand before any layout, the width of a line by its number, and the answer in document 01's numbers.
// Nothing here lays fragments out.
#![tactic(auto)]

ghost use Rattle.std.specs.Prelude.{◌≡◌, ◌≤◌, ◌<◌, max, length, [], ◌∷◌, get_or};
ghost use Rattle.std.proofs.lemmas.List.Edits.{sets};
ghost use Rattle.fragments.specs.Lists.{found, first_above, width_of, tested_of, list_test};
ghost use Rattle.fragments.specs.Answers.{refusal_of, answer_of};

use units::{Answer, FRAGMENTS_MOST, FragmentIndex, Refusal, WIDTH_MOST};
use wire::Cell;

// Fragments, by three lists of numbers: the widths of the words, of the whitespace after each, and of what
// stands there where a line ends.
#[derive_where(Clone, Copy)]
pub struct FragmentLists<'a, C> {
    pub words: &'a [C],
    pub whites: &'a [C],
    pub penalties: &'a [C],
}

// Why lists are not laid out: unequal lengths; more than 4,096 fragments; a width above 255, with its
// index; a penalty above 1,000,000, with its index; too little room, with the places needed; a cost above
// 2^53.
#[derive(Clone, Copy, Debug, PartialEq, Eq)]
pub enum ListRefusal {
    Unequal,
    TooMany,
    TooWide(usize),
    BigPenalty(usize),
    NoRoom(usize),
    TooDear,
}

impl From<ListRefusal> for Answer {
    ghost from_gives = { λ why answer. answer ≡ refusal_of why };

    fn from(why: ListRefusal) -> Answer {
        match why {
            ListRefusal::Unequal => Refusal::Unequal.at(0),
            ListRefusal::TooMany => Refusal::TooMany.at(0),
            ListRefusal::TooWide(at) => Refusal::TooWide.at(at),
            ListRefusal::BigPenalty(at) => Refusal::BigPenalty.at(at),
            ListRefusal::NoRoom(needed) => Refusal::NoRoom.at(needed),
            ListRefusal::TooDear => Refusal::TooDear.at(0),
        }
    }
}

// The number at an index of a list.
#[tactic(auto, using(std::proofs::lemmas::Grind::get_or_default_zero))]
pub fn number_at<C: Cell<u16>>(list: &[C], i: usize) -> usize
    requires { i < length (C.numbers list.now) }
    ensures { (result ≡ get_or (C.numbers list.now) i 0) × (result ≤ 65535) }
{
    usize::from(C::get(list, i))
}

// The index of the first number above a bound, if there is one.
#[tactic(auto, using(crate::proofs::Laws::looking))]
pub fn first_above<C: Cell<u16>>(list: &[C], most: usize) -> Option<usize>
    ensures { result ≡ found (first_above most (C.numbers list.now)) (length (C.numbers list.now)) }
{
    for i in 0..C::count(list) {
        if most < number_at(list, i) {
            return Some(i);
        }
    }
    None
}

// The width of a line by its number: beyond the list the last, and 0 of an empty list.
#[tactic(auto, using(crate::proofs::Laws::widths))]
pub fn width_of<C: Cell<u16>>(widths: &[C], line: usize) -> usize
    ensures { (result ≡ width_of (C.numbers widths.now) line) × (result ≤ 65535) }
{
    let n = C::count(widths);
    if n == 0 {
        return 0;
    }
    if line < n {
        number_at(widths, line)
    } else {
        number_at(widths, n - 1)
    }
}

// Whether lists of these lengths can be laid out, the first width above 255 being at `wide`.
#[tactic(auto, using(logic::proofs::Choice::picks), unfolding(crate::specs::Lists::tested_of))]
pub fn test_lists(
    words: usize,
    whites: usize,
    penalties: usize,
    wide: Option<usize>,
) -> Result<(), ListRefusal>
    ensures { result ≡ tested_of words whites penalties wide }
{
    if whites != words {
        return Err(ListRefusal::Unequal);
    }
    if penalties != words {
        return Err(ListRefusal::Unequal);
    }
    if FRAGMENTS_MOST < words {
        return Err(ListRefusal::TooMany);
    }
    match wide {
        Some(at) => Err(ListRefusal::TooWide(at)),
        None => Ok(()),
    }
}

// The places that the ends of a layout of n fragments may need.
pub fn places_needed(n: usize) -> usize
    ensures { result ≡ max 1 n }
{
    n.max(1)
}

// Stores the end of a line.
pub fn put_end<C: Cell<u16>>(ends: &mut [C], line: usize, end: FragmentIndex)
    requires { (line < C.places ends.old) × (end.0 ≤ 4096) }
    ensures { ends.new ≡ sets ends.old (C.at line) (C.stored (end.0 ∷ [])) }
{
    wire::put(ends, line, end.0 as u16);
}

impl<C: Cell<u16>> FragmentLists<'_, C> {
    // Whether these fragments can be laid out in lines of these widths.
    pub fn test(&self, widths: &[C]) -> Result<(), ListRefusal>
        ensures { result ≡ list_test (C.numbers self.now.words.now) (C.numbers self.now.whites.now) (C.numbers self.now.penalties.now) (C.numbers widths.now) }
    {
        let wide = first_above(widths, WIDTH_MOST as usize);
        test_lists(
            C::count(self.words),
            C::count(self.whites),
            C::count(self.penalties),
            wide,
        )
    }
}

// The numbers of document 01 for what a layout answers: how many lines there are, or why there are none.
#[tactic(auto, unfolding(crate::specs::Answers::answer_of))]
pub fn answer_of(laid: Result<usize, ListRefusal>) -> Answer
    ensures { result ≡ answer_of laid }
{
    match laid {
        Ok(lines) => units::done(lines),
        Err(why) => Answer::from(why),
    }
}
