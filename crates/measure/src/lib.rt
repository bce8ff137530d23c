// The columns of a text: escapes, which take none, and the width of a character. Follows `core.rs`:
// `ch_width`, `skip_ansi_escape_sequence` and `display_width` have their names there.
//
// There is one walk over characters, `columns_until`, and it can be told a character to stop before. To
// measure a text it is told none; to measure a word it is told the space. No rule about words, lines or
// widths of lines stands here.
#![tactic(auto)]

ghost use Rattle.std.specs.Prelude.{◌≡◌, ◌+◌, ◌<◌, length, drop};
ghost use Rattle.logic.specs.Count.{count};
ghost use Rattle.measure.specs.Escapes.{columns, next, in_text, taken};
ghost use Rattle.measure.specs.Measure.{passed_of, measure_of, answer_of};
ghost use Rattle.measure.specs.Walk.{Passes, Steps, plain};

use limits::TextRefusal;
use units::{Answer, Columns, Offset, TEXT_MOST};

const BEL: u32 = 0x07;

const ESC: u32 = 0x1B;

const LEFT_BRACKET: u32 = 0x5B;

const BACKSLASH: u32 = 0x5C;

const RIGHT_BRACKET: u32 = 0x5D;

// The final characters of ESC [.
const FINAL_LEAST: u32 = 0x40;

const FINAL_MOST: u32 = 0x7E;

// The first character of two columns.
const DOUBLE_WIDTH_CUTOFF: u32 = 0x1100;

// A number that is no character: a walk that is told to stop before it goes to the end.
pub const NO_STOP: u32 = 0xFFFFFFFF;

// Where a text stands between two characters: in plain text, after an ESC, after ESC [, after ESC ], or
// after an ESC that follows an ESC ].
#[derive(Clone, Copy)]
pub enum Mode {
    Text,
    Esc,
    Csi,
    Osc,
    OscEsc,
}

// The columns of a character.
#[tactic(auto, using(logic::proofs::Choice::picks), unfolding(crate::specs::Escapes::columns))]
pub fn ch_width(c: u32) -> usize
    ensures { result ≡ columns c }
{
    if c < DOUBLE_WIDTH_CUTOFF { 1 } else { 2 }
}

#[tactic(auto, using(crate::proofs::Cases::text_of), unfolding(crate::specs::Escapes::in_text))]
fn is_text(m: Mode) -> bool
    ensures { result ≡ in_text m }
{
    match m {
        Mode::Text => true,
        Mode::Esc => false,
        Mode::Csi => false,
        Mode::Osc => false,
        Mode::OscEsc => false,
    }
}

// Where a text stands after one more character.
pub fn next_mode(m: Mode, c: u32) -> Mode
    ensures { result ≡ next m c }
{
    match m {
        Mode::Text => if c == ESC { Mode::Esc } else { Mode::Text },
        Mode::Esc => {
            if c == LEFT_BRACKET {
                Mode::Csi
            } else if c == RIGHT_BRACKET {
                Mode::Osc
            } else {
                Mode::Text
            }
        }
        Mode::Csi => if (FINAL_LEAST <= c) & (c <= FINAL_MOST) {
            Mode::Text
        } else {
            Mode::Csi
        },
        Mode::Osc => {
            if c == BEL {
                Mode::Text
            } else if c == ESC {
                Mode::OscEsc
            } else {
                Mode::Osc
            }
        }
        Mode::OscEsc => {
            if (c == BEL) | (c == BACKSLASH) {
                Mode::Text
            } else if c == ESC {
                Mode::OscEsc
            } else {
                Mode::Osc
            }
        }
    }
}

// The columns that a character takes where a text stands: none in a skip, and none for the ESC that
// starts one.
pub fn columns_taken(m: Mode, c: u32) -> usize
    ensures { result ≡ taken m c }
{
    if !is_text(m) {
        return 0;
    }
    if c == ESC {
        return 0;
    }
    ch_width(c)
}

// A byte that is a character of one column by itself: below 80, no ESC, and not `stop`.
#[tactic(auto, unfolding(crate::specs::Walk::plain))]
fn is_plain(b: u8, stop: u32) -> bool
    ensures { result ≡ plain stop b }
{
    let c = b as u32;
    (c < 0x80) & (!(c == ESC) & !(c == stop))
}

// The end of the run of plain bytes that starts at `from`.
fn plain_end(text: &[u8], from: usize, stop: u32) -> usize
    ensures { result ≡ from + count (plain stop) (drop from text.now) }
{
    runs::run_end(text, from, |b| is_plain(b, stop))
}

// Passes the rest of an escape, `from` standing directly after its ESC: to where it ends, or before
// `stop`, or to the end of the text.
fn skip_ansi_escape_sequence(
    text: &[u8],
    from: Offset,
    stop: u32,
) -> Result<(Columns, Offset), Offset>
    ensures { Passes stop text.now from.0 Mode.Esc result }
{
    let mut at = from;
    let mut mode = Mode::Esc;
    while at.0 < text.len() {
        let Ok((c, after)) = chars::read_char(text, at) else {
            return Err(at);
        };
        if c == stop {
            return Ok((Columns(0), at));
        }
        mode = next_mode(mode, c);
        at = after;
        if is_text(mode) {
            return Ok((Columns(0), at));
        }
    }
    Ok((Columns(0), at))
}

// Passes one character of plain text, or one whole escape, or nothing where `stop` stands.
fn step(text: &[u8], at: Offset, stop: u32) -> Result<(Columns, Offset), Offset>
    requires { at.0 < length text.now }
    ensures { Steps stop text.now at.0 result }
{
    let Ok((c, after)) = chars::read_char(text, at) else {
        return Err(at);
    };
    if c == stop {
        return Ok((Columns(0), at));
    }
    if c == ESC {
        return skip_ansi_escape_sequence(text, after, stop);
    }
    Ok((Columns(ch_width(c)), after))
}

// The columns of the characters from a place up to the first that is `stop`, or else to the end of the
// text, and the place of that; or the fault that is met before. A run of plain bytes is passed at once.
pub fn columns_until(text: &[u8], from: Offset, stop: u32) -> Result<(Columns, Offset), Offset>
    ensures { result ≡ passed_of stop text.now from.0 }
{
    let mut at = from;
    let mut cols = Columns(0);
    while at.0 < text.len() {
        let end = plain_end(text, at.0, stop);
        if at.0 < end {
            let run = end - at.0;
            let sum = cols.0 + run;
            cols = Columns(sum);
            at = Offset(end);
        } else {
            let (more, after) = step(text, at, stop)?;
            if after.0 == at.0 {
                return Ok((cols, at));
            }
            let sum = cols.0 + more.0;
            cols = Columns(sum);
            at = after;
        }
    }
    Ok((cols, at))
}

// The columns of a text, in one pass with the test that it is UTF-8.
#[tactic(auto, using(crate::proofs::Walk::measuring))]
pub fn display_width(text: &[u8]) -> Result<Columns, TextRefusal>
    ensures { result ≡ measure_of text.now }
{
    if TEXT_MOST < text.len() {
        return Err(TextRefusal::TooLong(Offset(text.len())));
    }
    let (cols, _) = columns_until(text, Offset(0), NO_STOP).map_err(TextRefusal::NotUtf8)?;
    Ok(cols)
}

// The numbers of document 01 for what measuring answers.
#[tactic(auto, using(crate::proofs::Cases::answer_of_lem), unfolding(crate::specs::Measure::answer_of))]
pub fn answer_of(m: Result<Columns, TextRefusal>) -> Answer
    ensures { result ≡ answer_of m }
{
    match m {
        Ok(cols) => units::done(cols.0),
        Err(why) => Answer::from(why),
    }
}
