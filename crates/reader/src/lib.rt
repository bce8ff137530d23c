// The word reader: it holds a lent text and its offset in it, and answers the words of the text one after
// the other. It is thin over the step of `words`; nothing here finds or measures a word itself.
//
// `open_at` and `turn_at` do the work, on the text and the offset as plain parameters. `open`, `look`
// and `go_on` are the same over the struct that holds the text, and `next_of` goes through it for a
// caller that has none.
#![tactic(auto)]

ghost use Rattle.std.specs.Prelude.{◌≡◌, ltb, length};
ghost use Rattle.units.specs.Limits.{text_most};
ghost use Rattle.reader.specs.Reader.{opening_of, answer_of, turn_of, stay};

use limits::TextRefusal;
use units::{Answer, Offset, TEXT_MOST};
use words::{Step, Word};

// A reader: the text that it holds, and where it stands.
#[derive(Clone, Copy)]
pub struct Reader<'a> {
    pub text: &'a [u8],
    pub at: Offset,
}

// What opening finds, and where the reader then stands.
#[derive(Clone, Copy)]
pub struct Opening {
    pub answer: Result<(), TextRefusal>,
    pub at: Offset,
}

// What a reader answers, and where it then stands.
#[derive(Clone, Copy)]
pub struct Turn {
    pub found: Option<Word>,
    pub next: Offset,
}

// Whether a text exceeds the limit.
fn is_long(text: &[u8]) -> bool
    ensures { result ≡ ltb text_most (length text.now) }
{
    TEXT_MOST < text.len()
}

// What opening a text finds, and where a reader of it starts.
#[tactic(auto, using(crate::proofs::Turning::opening))]
pub fn open_at(text: &[u8]) -> Opening
    ensures { result ≡ opening_of text.now }
{
    let end = Offset(text.len());
    match limits::admit(text, TEXT_MOST) {
        Ok(()) => Opening {
            answer: Ok(()),
            at: Offset(0),
        },
        Err(why) => Opening {
            answer: Err(why),
            at: end,
        },
    }
}

// The numbers of document 01 for what opening finds.
#[tactic(auto, unfolding(crate::specs::Reader::answer_of))]
pub fn answer_of(o: Result<(), TextRefusal>) -> Answer
    ensures { result ≡ answer_of o }
{
    match o {
        Ok(()) => units::done(0),
        Err(why) => Answer::from(why),
    }
}

// No more, the offset staying.
fn no_more(at: Offset) -> Turn
    ensures { result ≡ stay at.0 }
{
    Turn {
        found: None,
        next: at,
    }
}

// What a reader of a text that stands at an offset answers, and where it then stands.
#[tactic(auto, using(crate::proofs::Turning::turning))]
fn turn_at(text: &[u8], at: Offset) -> Turn
    ensures { result ≡ turn_of text.now at.0 }
{
    if is_long(text) {
        return no_more(at);
    }
    match words::next_word(text, at) {
        Step::Found(word, next) => Turn {
            found: Some(word),
            next,
        },
        Step::End => no_more(at),
        Step::Fault(_) => no_more(at),
    }
}

// A reader of a text, at where opening it starts.
pub fn open<'a>(text: &'a [u8]) -> Reader<'a>
    ensures { (result.text ≡ text.entry) × (result.at ≡ (opening_of text.now).at) }
{
    let opening = open_at(text);
    Reader {
        text,
        at: opening.at,
    }
}

// What a reader answers where it stands, and where it stands after that.
pub fn look<'a>(r: Reader<'a>) -> Turn
    ensures { result ≡ turn_of r.entry.text.now r.entry.at.0 }
{
    turn_at(r.text, r.at)
}

// The reader after its answer.
pub fn go_on<'a>(r: Reader<'a>) -> Reader<'a>
    ensures { (result.text ≡ r.entry.text) × (result.at ≡ (turn_of r.entry.text.now r.entry.at.0).next) }
{
    let turn = look(r);
    Reader {
        text: r.text,
        at: turn.next,
    }
}

// What a reader of a text answers that stands at an offset, for a caller that holds no reader.
pub fn next_of(text: &[u8], at: Offset) -> Turn
    ensures { result ≡ turn_of text.now at.0 }
{
    look(Reader { text, at })
}
