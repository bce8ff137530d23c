// A refusal as a person reads it: one line with its number, the place where it is found, and a sentence in
// plain words. The sentences for all refusals stand here and in specs/Sentences.antt; docs/REFUSALS.md has
// the same for the handbook. When a refusal comes is not decided here.
#![tactic(auto)]

ghost use Rattle.std.specs.Prelude.{◌≡◌, ℕ, ◌+◌, ◌≤◌, length};
ghost use Rattle.units.specs.Numbers.{number_of};
ghost use Rattle.saying.specs.Saying.{HasRoom, Said};
ghost use Rattle.refusals.specs.Places.{starts_character, spot_of};
ghost use Rattle.refusals.specs.Sentences.{Numbers, sentence_most, sentence, lengths_differ, columns_most, in_columns};
ghost use Rattle.refusals.specs.Lines.{line_most, has_place, in_after, shown_place, place_words, spot_most, place_part, parting_most, parting_part, refusal_line};

use saying::Line;
use units::{Answer, Refusal, TEXT_MOST};

// The longest line of a refusal: a room of so many bytes has room for any.
pub const LINE_MOST: usize = 384;

// A place of a text as a person finds it: the line, and the column in it, both from 1.
#[derive(Clone, Copy)]
pub struct Spot {
    pub line: usize,
    pub column: usize,
}

// Whether a character is counted at a byte: not at one that is a further byte of a character.
fn starts_character(b: u8) -> bool
    ensures { result ≡ starts_character b }
{
    !(0x80..=0xBF).contains(&b)
}

// Where a person finds the byte at a place of a text.
pub fn spot_of(text: &[u8], place: usize) -> Spot
    ensures { result ≡ spot_of text.now place }
{
    let mut line = 1;
    let mut column = 1;
    for b in &text[..place.min(text.len())] {
        if lines::is_newline(*b) {
            line += 1;
            column = 1;
        } else if starts_character(*b) {
            column += 1;
        }
    }
    Spot { line, column }
}

// Adds the sentence of 9, with both lengths.
fn say_lengths(line: &mut Line<'_>, before: usize, after: usize)
    requires { HasRoom line.old sentence_most }
    ensures said { Said line.old (lengths_differ before after) line.new }
    ensures upper_bound { line.new.len ≤ line.old.len + sentence_most }
{
    line.say_named(b"the texts differ in length: ", before as u64);
    line.say_named(b" bytes before, ", after as u64);
    line.say(b" after");
}

// Adds words, a number of columns, and that it is columns.
fn say_columns(line: &mut Line<'_>, words: &[u8], columns: u32)
    requires { HasRoom line.old (length words.now + columns_most) }
    ensures said { Said line.old (in_columns words.now columns) line.new }
    ensures upper_bound { line.new.len ≤ line.old.len + length words.now + columns_most }
{
    line.say_named(words, columns as u64);
    line.say(b" columns");
}

// The refusal that has a number in document 01.
fn numbered(number: u32) -> Option<Refusal>
    ensures { Numbers number result }
{
    match number {
        1 => Some(Refusal::TooLong),
        2 => Some(Refusal::NotUtf8),
        3 => Some(Refusal::TooWide),
        4 => Some(Refusal::TooMany),
        5 => Some(Refusal::Unequal),
        6 => Some(Refusal::BigPenalty),
        7 => Some(Refusal::NoRoom),
        8 => Some(Refusal::TooDear),
        9 => Some(Refusal::Lengths),
        10 => Some(Refusal::BadChange),
        11 => Some(Refusal::WideLine),
        12 => Some(Refusal::ManyLines),
        13 => Some(Refusal::WrongMark),
        14 => Some(Refusal::Cut),
        _ => None,
    }
}

// Adds the sentence of a refusal, or that there is none.
fn say_why(line: &mut Line<'_>, why: Option<Refusal>, width: u32, before: usize, after: usize)
    requires { HasRoom line.old sentence_most }
    ensures said { (number : ℕ) → Numbers number why → Said line.old (sentence number width before after) line.new }
    ensures upper_bound { line.new.len ≤ line.old.len + sentence_most }
{
    let Some(why) = why else {
        return line.say(b"this number has no sentence here: see the handbook");
    };
    match why {
        Refusal::TooLong => line.say(b"the text is longer than 60000 bytes"),
        Refusal::NotUtf8 => line.say(b"this is not UTF-8: no character starts here"),
        Refusal::TooWide => line.say(b"the width is above 255 columns"),
        Refusal::TooMany => line.say(b"there are more than 4096 fragments"),
        Refusal::Unequal => line.say(b"the three lists of fragments differ in length"),
        Refusal::BigPenalty => line.say(b"a penalty is above 1000000"),
        Refusal::NoRoom => line.say(b"a list that was lent is too short"),
        Refusal::TooDear => line.say(b"the least cost is above 9007199254740992"),
        Refusal::Lengths => say_lengths(line, before, after),
        Refusal::BadChange => line.say(
            b"this change is no break: only the last space before a further word may become a newline",
        ),
        Refusal::WideLine => {
            say_columns(line, b"a line of two or more words is wider than ", width)
        }
        Refusal::ManyLines => {
            line.say(b"the words of this line of the text before need fewer lines")
        }
        Refusal::WrongMark => line.say(b"the record does not start with the mark of a job"),
        Refusal::Cut => line.say(b"the input ends inside a record"),
    }
}

// Adds the sentence of a refusal: for a width, and the lengths of the text before and of the text after.
pub fn say_sentence(line: &mut Line<'_>, number: u32, width: u32, before: usize, after: usize)
    requires { HasRoom line.old sentence_most }
    ensures said { Said line.old (sentence number width before after) line.new }
    ensures upper_bound { line.new.len ≤ line.old.len + sentence_most }
{
    say_why(line, numbered(number), width, before, after);
}

// Whether the place of a refusal is a byte of a text.
fn has_place(why: Refusal) -> bool
    ensures { result ≡ has_place (number_of why) }
{
    matches!(
        why,
        Refusal::TooLong
            | Refusal::NotUtf8
            | Refusal::BadChange
            | Refusal::WideLine
            | Refusal::ManyLines
    )
}

// Whether a refusal is found in the text after, and not in the text before.
fn in_after(why: Refusal, before: &[u8]) -> bool
    ensures { result ≡ in_after (number_of why) before.now }
{
    match why {
        Refusal::BadChange | Refusal::WideLine => true,
        Refusal::TooLong => before.len() <= TEXT_MOST,
        _ => false,
    }
}

// The byte that is shown: of a text that is too long, the first one too many.
fn shown_place(why: Refusal, place: u64) -> u64
    ensures { result ≡ shown_place (number_of why) place }
{
    match why {
        Refusal::TooLong => TEXT_MOST as u64,
        _ => place,
    }
}

// Adds a byte of a text, and where a person finds it.
fn say_spot(line: &mut Line<'_>, place: u64, text: &[u8])
    requires { HasRoom line.old spot_most }
    ensures said { Said line.old (place_words place text.now) line.new }
    ensures upper_bound { line.new.len ≤ line.old.len + spot_most }
{
    let spot = spot_of(text, place as usize);
    line.say_named(b" at byte ", place);
    line.say_named(b" (line ", spot.line as u64);
    line.say_named(b", column ", spot.column as u64);
    line.say(b")");
}

// Adds the place of a refusal, where it has one in a text.
fn say_place(line: &mut Line<'_>, why: Option<Refusal>, place: u64, before: &[u8], after: &[u8])
    requires { HasRoom line.old spot_most }
    ensures said { (number : ℕ) → Numbers number why → Said line.old (place_part number place before.now after.now) line.new }
    ensures upper_bound { line.new.len ≤ line.old.len + spot_most }
{
    let Some(why) = why else {
        return;
    };
    if !has_place(why) {
        return;
    }
    let shown = shown_place(why, place);
    if in_after(why, before) {
        say_spot(line, shown, after);
    } else {
        say_spot(line, shown, before);
    }
}

// Adds where two texts part, if the refusal is that they differ in length.
fn say_parting(line: &mut Line<'_>, why: Option<Refusal>, before: &[u8], after: &[u8])
    requires { HasRoom line.old parting_most }
    ensures said { (number : ℕ) → Numbers number why → Said line.old (parting_part number before.now after.now) line.new }
    ensures upper_bound { line.new.len ≤ line.old.len + parting_most }
{
    if why == Some(Refusal::Lengths) {
        let place = parting::parts_at(before, after);
        line.say(b"; they part");
        say_spot(line, place as u64, after);
    }
}

// Adds the whole line of a refusal. The check's refusals are about a text before and a text after; those of
// one text alone take it twice.
pub fn refusal_line(line: &mut Line<'_>, answer: Answer, width: u32, before: &[u8], after: &[u8])
    requires { HasRoom line.old line_most }
    ensures said { Said line.old (refusal_line answer width before.now after.now) line.new }
    ensures upper_bound { line.new.len ≤ line.old.len + line_most }
{
    let why = numbered(answer.number);
    line.say_named(b"refused ", answer.number as u64);
    say_place(line, why, answer.place, before, after);
    line.say(b": ");
    say_why(line, why, width, before.len(), after.len());
    say_parting(line, why, before, after);
    line.say_byte(lines::NEWLINE);
}
