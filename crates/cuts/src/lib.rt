// Where the printer cuts a line: how much of it stands within the paper, and what is dropped. A line is
// made of words, and its columns are those of the words and of the whitespace between them, as the check
// has them; a line of one word may be too wide too. Nothing here writes a line.
#![tactic(auto)]

ghost use Rattle.std.specs.Prelude.{◌≡◌, ◌-◌, ◌≤◌, ◌<◌, length, drop};
ghost use Rattle.units.specs.Limits.{text_most};
ghost use Rattle.chars.specs.Utf8.{Whole};
ghost use Rattle.words.specs.Words.{word_at};
ghost use Rattle.words.specs.Lists.{end_of};
ghost use Rattle.cuts.specs.Cuts.{cut_in, cut_of};

use measure::NO_STOP;
use units::{Columns, Offset};
use words::{Step, Word};

// The kept part of a line: where it ends, without spaces at its end, and its columns.
#[derive(Clone, Copy)]
pub struct Kept {
    pub end: Offset,
    pub columns: Columns,
}

// A line cut at a width: its kept part, and where the dropped part starts, if anything is dropped, which is
// so exactly of a line that is too wide.
#[derive(Clone, Copy)]
pub struct Cut {
    pub kept: Kept,
    pub dropped: Option<Offset>,
}

// Before a line's first word.
const NOTHING: Kept = Kept {
    end: Offset(0),
    columns: Columns(0),
};

// The word that starts at a place of a line that is UTF-8 from there on.
#[tactic(auto, using(crate::proofs::Cutting::word_found, lines::proofs::Walk::meets_always))]
fn word_at(line: &[u8], at: Offset) -> Word
    requires { (at.0 < length line.now) × Whole (drop at.0 line.now) }
    ensures { result ≡ word_at line.now at.0 }
{
    let Step::Found(word, _) = words::next_word(line, at) else {
        return Word {
            start: at,
            end: at,
            white: Columns(0),
            width: Columns(0),
        };
    };
    word
}

// The cut at a word that passes the last column, the line having so many columns before it: after the
// part of the word that still fits, or before the word where none does.
#[tactic(auto, using(crate::proofs::Cutting::cut_before, crate::proofs::Cutting::cut_after))]
fn cut_in(line: &[u8], columns: usize, kept: Kept, word: Word, width: usize) -> Cut
    requires { (columns ≤ 1000000) × (length line.now ≤ text_most) × (end_of word ≤ length line.now) }
    ensures { result ≡ cut_in width line.now columns kept word }
{
    let start = word.start;
    let left = width.saturating_sub(columns);
    let piece = pieces::next_piece(line, start, word.end.0, NO_STOP, Columns(left));
    let reach = columns + piece.width.0;
    if width < reach {
        return Cut {
            kept,
            dropped: Some(start),
        };
    }
    let end = piece.end;
    Cut {
        kept: Kept {
            end,
            columns: Columns(reach),
        },
        dropped: Some(end),
    }
}

// A line cut at a width. It is a walk: how far a step goes is the word's to say, so nothing counts it.
#[tactic(auto, using(crate::proofs::Cutting::cutting))]
pub fn cut_of(line: &[u8], width: usize) -> Cut
    requires { (length line.now ≤ text_most) × Whole line.now }
    ensures { result ≡ cut_of width line.now }
{
    let mut at = Offset(0);
    let mut columns: usize = 0;
    let mut kept = NOTHING;
    while at.0 < line.len() {
        let word = word_at(line, at);
        let sum = columns + word.width.0;
        let both = sum + word.white.0;
        if width < sum {
            return cut_in(line, columns, kept, word, width);
        }
        let next = word.end.0 + word.white.0;
        let end = word.end;
        kept = Kept {
            end,
            columns: Columns(sum),
        };
        columns = both;
        at = Offset(next);
    }
    Cut {
        kept,
        dropped: None,
    }
}
