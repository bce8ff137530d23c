// The input lines of a text, which are the parts between newlines, and the walk over a line's words that
// the fill and the check both make. Nothing here changes a text; where first fit breaks a line is said in
// `specs/`.
#![tactic(auto)]

ghost use Rattle.std.specs.Prelude.{◌≡◌, ◌≤◌, ◌<◌, length, drop};
ghost use Rattle.units.specs.Limits.{text_most};
ghost use Rattle.chars.specs.Utf8.{Whole};
ghost use Rattle.lines.specs.Lines.{newline, in_line, line_end, body_end, in_body};
ghost use Rattle.lines.specs.Walk.{met_at, starts_at};

use units::{Columns, Offset};
use words::Step;

pub const NEWLINE: u8 = 0x0A;

// A word as the walk meets it: its columns, its columns with its whitespace, and where the next word
// starts.
#[derive(Clone, Copy)]
pub struct Met {
    pub word: Columns,
    pub both: Columns,
    pub next: Offset,
}

// Whether a byte is a newline.
pub fn is_newline(b: u8) -> bool
    ensures { result ≡ newline b }
{
    b == NEWLINE
}

fn in_line(b: u8) -> bool
    ensures { result ≡ in_line b }
{
    !(b == NEWLINE)
}

// The end of the input line that starts at `from`: its newline, or the end of the text.
#[tactic(auto, unfolding(crate::specs::Lines::line_end))]
pub fn line_end(text: &[u8], from: usize) -> usize
    ensures { result ≡ line_end text.now from }
{
    runs::run_end(text, from, in_line)
}

// Where the body of the input line that starts at `from` and ends at `end` ends.
#[tactic(auto, unfolding(crate::specs::Lines::body_end))]
pub fn body_end(text: &[u8], from: usize, end: usize) -> usize
    requires { end ≡ line_end text.now from }
    ensures { result ≡ body_end text.now from }
{
    end
}

// Whether a place lies in the body of its input line.
#[tactic(auto, using(crate::proofs::Bodies::bodies))]
pub fn in_body(text: &[u8], at: usize) -> bool
    ensures { result ≡ in_body text.now at }
{
    text.get(at).is_some_and(|b| in_line(*b))
}

// The word that starts at a place of a line that is UTF-8 from there on.
pub fn meet(line: &[u8], at: Offset) -> Met
    requires { (at.0 < length line.now) × (length line.now ≤ text_most) × Whole (drop at.0 line.now) }
    ensures { result ≡ met_at line.now at.0 }
{
    let Step::Found(word, next) = words::next_word(line, at) else {
        return Met {
            word: Columns(0),
            both: Columns(0),
            next: at,
        };
    };
    let columns = word.width;
    let both = columns.0 + word.white.0;
    Met {
        word: columns,
        both: Columns(both),
        next,
    }
}

// Whether first fit starts a line at a word that starts at `at`, the line having so many columns already.
pub fn starts_line(width: usize, columns: usize, at: Offset, word: Columns) -> bool
    requires { (columns ≤ 1000000) × (word.0 ≤ 1000000) }
    ensures { result ≡ starts_at width columns at.0 word.0 }
{
    (0 < at.0) & first_fit::starts_line(width, columns, word.0, 0)
}
