// The lines of answers: what is written where nothing is refused. A word's line has its numbers; the bytes
// of its content come after them and are not made here, and neither is the line of a refusal.
#![tactic(auto)]

ghost use Rattle.std.specs.Prelude.{◌≡◌, ◌+◌, ◌≤◌, length};
ghost use Rattle.saying.specs.Saying.{HasRoom, Said, number_most};
ghost use Rattle.words.specs.Words.{step_at};
ghost use Rattle.told.specs.Told.{line_most, named_line, measured_line, accepted_line, words_line, word_numbers, numbers_of, told_of};

use saying::Line;
use units::Offset;
use words::{Step, Word};

// The longest line of these: a room of so many bytes has room for any.
pub const LINE_MOST: usize = 84;

// A word whose numbers were said, and where the next word starts.
#[derive(Clone, Copy)]
pub struct Told {
    pub word: Word,
    pub next: Offset,
}

// Adds a name, a number and the end of the line.
fn named_line(line: &mut Line<'_>, name: &[u8], n: usize)
    requires { HasRoom line.old (length name.now + number_most + 1) }
    ensures { Said line.old (named_line name.now n) line.new }
{
    line.say_named(name, n as u64);
    line.say(b"\n");
}

// Adds the line of a measure: `columns: 10`.
pub fn measured_line(line: &mut Line<'_>, columns: usize)
    requires { HasRoom line.old line_most }
    ensures { Said line.old (measured_line columns) line.new }
{
    named_line(line, b"columns: ", columns);
}

// Adds the line of a check that accepts.
pub fn accepted_line(line: &mut Line<'_>)
    requires { HasRoom line.old line_most }
    ensures { Said line.old accepted_line line.new }
{
    line.say(b"accepted\n");
}

// Adds the last line of a list of words: `words: 2`.
pub fn words_line(line: &mut Line<'_>, count: usize)
    requires { HasRoom line.old line_most }
    ensures { Said line.old (words_line count) line.new }
{
    named_line(line, b"words: ", count);
}

// Adds the numbers of a word, each with a space after it.
fn say_word(line: &mut Line<'_>, word: Word)
    requires { HasRoom line.old line_most }
    ensures said { Said line.old (word_numbers word) line.new }
    ensures upper_bound { line.new.len ≤ line.old.len + line_most }
{
    line.say_number(word.start.0 as u64);
    line.say_named(b" ", word.end.0 as u64);
    line.say_named(b" ", word.white.0 as u64);
    line.say_named(b" ", word.width.0 as u64);
    line.say(b" ");
}

// Adds the numbers of the word at an offset of a text, and answers the word and where the next one starts;
// or nothing, where there are no more. A fault in the word counts as no more, as it does for the reader of words.
pub fn word_line(line: &mut Line<'_>, text: &[u8], from: Offset) -> Option<Told>
    requires { HasRoom line.old line_most }
    ensures value { result ≡ told_of (step_at text.now from.0) }
    ensures said { Said line.old (numbers_of (step_at text.now from.0)) line.new }
    ensures upper_bound { line.new.len ≤ line.old.len + line_most }
{
    let Step::Found(word, next) = words::next_word(text, from) else {
        return None;
    };
    say_word(line, word);
    Some(Told { word, next })
}
