// What a text entry refuses before it begins: a text that is too long, one that is not UTF-8, a width
// above 255; and, where it lists what it finds, too little room. One test, and one answer in document 01's
// numbers, for all of them. What an entry finds is not known here.
#![tactic(auto)]

ghost use Rattle.std.specs.Prelude.{◌≡◌};
ghost use Rattle.limits.specs.Limits.{admitted, narrow, refusal_of, answer_of};

use units::{Answer, Columns, Offset, Refusal, WIDTH_MOST};

// Why a text is refused: it is too long, with its length; not UTF-8, with its first fault; the width is
// above 255; or the lists that are lent have too little room, with the places needed.
#[derive(Clone, Copy, Debug, PartialEq, Eq)]
pub enum TextRefusal {
    TooLong(Offset),
    NotUtf8(Offset),
    TooWide,
    NoRoom(usize),
}

impl From<TextRefusal> for Answer {
    ghost from_gives = { λ why answer. answer ≡ refusal_of why };

    fn from(why: TextRefusal) -> Answer {
        match why {
            TextRefusal::TooLong(length) => Refusal::TooLong.at(length.0),
            TextRefusal::NotUtf8(fault) => Refusal::NotUtf8.at(fault.0),
            TextRefusal::TooWide => Refusal::TooWide.at(0),
            TextRefusal::NoRoom(needed) => Refusal::NoRoom.at(needed),
        }
    }
}

// Tests that a text has at most so many bytes, and then that it is UTF-8.
#[tactic(auto, unfolding(crate::specs::Limits::admitted))]
pub fn admit(text: &[u8], most: usize) -> Result<(), TextRefusal>
    ensures { result ≡ admitted most text.now }
{
    if most < text.len() {
        return Err(TextRefusal::TooLong(Offset(text.len())));
    }
    match chars::first_fault(text) {
        None => Ok(()),
        Some(fault) => Err(TextRefusal::NotUtf8(fault)),
    }
}

// Tests that a width is no more than 255 columns.
#[tactic(auto, unfolding(crate::specs::Limits::narrow))]
pub fn columns_of(width: u32) -> Result<Columns, TextRefusal>
    ensures { result ≡ narrow width }
{
    if WIDTH_MOST < width {
        return Err(TextRefusal::TooWide);
    }
    Ok(Columns(width as usize))
}

// The numbers of document 01 for a count, or for why a text is refused.
#[tactic(auto, unfolding(crate::specs::Limits::answer_of))]
pub fn answer_of(answered: Result<usize, TextRefusal>) -> Answer
    ensures { result ≡ answer_of answered }
{
    match answered {
        Ok(count) => units::done(count),
        Err(why) => Answer::from(why),
    }
}
