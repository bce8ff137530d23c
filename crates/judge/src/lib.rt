// The check, which the crate does not have: whether a text after is the text before with its input lines
// broken as document 01 asks, each line so formed holding one word or fitting the width, and no input
// line having more lines than needed. What is wrong with a changed byte is a function of its own.
//
// Nothing here fills a text, and a layout need not be the one that first fit would write.
#![tactic(auto)]

ghost use Rattle.std.specs.Prelude.{◌≡◌, ◌+◌, ◌-◌, ◌≤◌, ◌<◌, false, length, get_or};
ghost use Rattle.units.specs.Limits.{text_most};
ghost use Rattle.logic.specs.Choice.{pick};
ghost use Rattle.chars.specs.Utf8.{Whole};
ghost use Rattle.words.specs.Words.{space, words};
ghost use Rattle.lines.specs.Lines.{newline, input_lines};
ghost use Rattle.judge.specs.Change.{change_at, allowed, bad_of};
ghost use Rattle.judge.specs.Judge.{lined_of, lines_of, changes_of, judge_of, rejection_of, answer_of, Room, wide_at, placed_of, many_next};

use limits::TextRefusal;
use lines::Met;
use units::{Answer, Columns, Offset, Refusal, TEXT_MOST, WIDTH_MOST};

// What became of a byte: it was kept; or it is an allowed break; or it is a change of one of four kinds
// that is none: it was no space; it is no newline; another space follows it; no further word does.
#[derive(Clone, Copy)]
pub enum Change {
    Kept,
    Break,
    NotSpace,
    NotNewline,
    SpaceFollows,
    NoWord,
}

// Why a text after is not accepted: what refuses a text; unequal lengths; a change that is no allowed break,
// a line that is too wide, or an input line with more lines than needed, each with its first byte.
#[derive(Clone, Copy, Debug, PartialEq, Eq)]
pub enum Rejection {
    Text(TextRefusal),
    Lengths,
    BadChange(Offset),
    WideLine(Offset),
    ManyLines(Offset),
}

impl From<Rejection> for Answer {
    ghost from_gives = { λ why answer. answer ≡ rejection_of why };

    fn from(why: Rejection) -> Answer {
        match why {
            Rejection::Text(refusal) => Answer::from(refusal),
            Rejection::Lengths => Refusal::Lengths.at(0),
            Rejection::BadChange(at) => Refusal::BadChange.at(at.0),
            Rejection::WideLine(at) => Refusal::WideLine.at(at.0),
            Rejection::ManyLines(at) => Refusal::ManyLines.at(at.0),
        }
    }
}

// A line of an input line while its words are read: where it starts, its columns with each word's
// whitespace, and how many lines of the input line came before it.
#[derive(Clone, Copy)]
pub struct Line {
    pub start: Offset,
    pub columns: Columns,
    pub before: usize,
}

// Before an input line's first word.
const NO_LINE: Line = Line {
    start: Offset(0),
    columns: Columns(0),
    before: 0,
};

fn space_at(text: &[u8], at: usize) -> bool
    ensures { result ≡ space (get_or text.now at 0) }
{
    text.get(at).is_some_and(|b| words::is_space(*b))
}

// What became of the byte at a place.
#[tactic(auto, using(crate::proofs::Changing::changing))]
pub fn change_at(before: &[u8], after: &[u8], at: usize) -> Change
    requires { (at < length before.now) × (length after.now ≡ length before.now) }
    ensures { result ≡ change_at before.now after.now at }
{
    if before[at] == after[at] {
        return Change::Kept;
    }
    if !words::is_space(before[at]) {
        return Change::NotSpace;
    }
    if !lines::is_newline(after[at]) {
        return Change::NotNewline;
    }
    let next = at + 1;
    if space_at(before, next) {
        return Change::SpaceFollows;
    }
    if lines::in_body(before, next) {
        return Change::Break;
    }
    Change::NoWord
}

// Whether a byte may be changed so.
fn is_allowed(change: Change) -> bool
    ensures { result ≡ allowed change }
{
    matches!(change, Change::Kept | Change::Break)
}

// The first byte whose change is not allowed, if there is one.
#[tactic(auto, using(crate::proofs::Changing::seeking))]
fn first_bad(before: &[u8], after: &[u8]) -> Option<Offset>
    requires { length after.now ≡ length before.now }
    ensures { result ≡ bad_of before.now after.now }
{
    for at in 0..before.len() {
        if !is_allowed(change_at(before, after, at)) {
            return Some(Offset(at));
        }
    }
    None
}

// A line with one more word, which starts at `at`: joined to it, or starting the next.
#[tactic(auto, using(crate::proofs::Placing::placing))]
fn placed(line: Line, at: Offset, word: Met, starts: bool) -> Line
    requires { Room line word }
    ensures { result ≡ placed_of line at word starts }
{
    if starts {
        let columns = word.both;
        let before = line.before + 1;
        return Line {
            start: at,
            columns,
            before,
        };
    }
    let start = line.start;
    let sum = line.columns.0 + word.both.0;
    Line {
        start,
        columns: Columns(sum),
        before: line.before,
    }
}

// Whether a word makes a line of the text after too wide, where it does not start a line of its own.
fn is_wide(line: Line, at: Offset, word: Met, starts: bool, width: usize) -> bool
    requires { Room line word }
    ensures { result ≡ pick starts false (wide_at width line at word) }
{
    if starts {
        return false;
    }
    let columns = word.word;
    lines::starts_line(width, line.columns.0, at, columns)
}

// First fit's line with one more word.
fn fit_word(line: Line, at: Offset, word: Met, width: usize) -> Line
    requires { Room line word }
    ensures { result ≡ placed_of line at word (wide_at width line at word) }
{
    let columns = word.word;
    let starts = lines::starts_line(width, line.columns.0, at, columns);
    placed(line, at, word, starts)
}

// Whether a newline stands before a place.
fn after_newline(text: &[u8], place: usize) -> bool
    requires { (0 < place) × (place ≤ length text.now) }
    ensures { result ≡ newline (get_or text.now (place - 1) 0) }
{
    lines::is_newline(text[place - 1])
}

// Whether the input line that starts at `start` and has this body has more lines than needed; or the first
// byte of its first line that is too wide. Its words are read once, for the lines of the text after and for
// first fit's.
fn judge_line(body: &[u8], after: &[u8], start: usize, width: usize) -> Result<bool, Offset>
    requires { (start + length body.now ≤ text_most) × (start + length body.now ≤ length after.now) × Whole body.now }
    ensures { result ≡ lined_of width after.now start (words body.now) }
{
    if body.len() == 0 {
        return Ok(false);
    }
    let first = lines::meet(body, Offset(0));
    let mut given = placed(NO_LINE, Offset(0), first, false);
    let mut fitted = given;
    let mut at = first.next;
    while at.0 < body.len() {
        let here = at;
        let word = lines::meet(body, here);
        at = word.next;
        let starts = after_newline(after, start + here.0);
        if is_wide(given, here, word, starts, width) {
            return Err(Offset(start + given.start.0));
        }
        given = placed(given, here, word, starts);
        fitted = fit_word(fitted, here, word, width);
    }
    Ok(fitted.before < given.before)
}

// The first input line with more lines than needed: the first so far, or else the one that starts at
// `start`, if it has more.
#[tactic(auto, using(crate::proofs::Placing::manying))]
fn many_next(many: Option<Offset>, more: bool, start: usize) -> Option<Offset>
    ensures { result ≡ many_next many more start }
{
    if more {
        many.or(Some(Offset(start)))
    } else {
        many
    }
}

// What is wrong with the input lines of a text, read one after the other: the first line that is too
// wide, or else the first input line with more lines than needed.
fn judge_lines(before: &[u8], after: &[u8], width: usize) -> Result<(), Rejection>
    requires { (length before.now ≤ text_most) × (length after.now ≡ length before.now) × Whole before.now }
    ensures { result ≡ lines_of width before.now after.now (input_lines before.now) }
{
    let mut at = 0;
    let mut many = None;
    while at <= before.len() {
        let start = at;
        let end = lines::line_end(before, start);
        let body = lines::body_end(before, start, end);
        at = end + 1;
        match judge_line(&before[start..body], after, start, width) {
            Ok(more) => many = many_next(many, more, start),
            Err(first) => return Err(Rejection::WideLine(first)),
        }
    }
    match many {
        Some(first) => Err(Rejection::ManyLines(first)),
        None => Ok(()),
    }
}

// The changes of a text, then its lines.
#[tactic(auto, using(crate::proofs::Entering::changes))]
fn judge_changes(before: &[u8], after: &[u8], width: usize) -> Result<(), Rejection>
    requires { (length before.now ≤ text_most) × (length after.now ≡ length before.now) × Whole before.now }
    ensures { result ≡ changes_of width before.now after.now }
{
    match first_bad(before, after) {
        Some(at) => Err(Rejection::BadChange(at)),
        None => judge_lines(before, after, width),
    }
}

// Whether a text after is accepted against the text before at a width.
#[tactic(auto, using(crate::proofs::Entering::checking))]
pub fn check(before: &[u8], after: &[u8], width: u32) -> Result<(), Rejection>
    ensures { result ≡ judge_of width before.now after.now }
{
    if TEXT_MOST < before.len() {
        return Err(Rejection::Text(TextRefusal::TooLong(Offset(before.len()))));
    }
    if TEXT_MOST < after.len() {
        return Err(Rejection::Text(TextRefusal::TooLong(Offset(after.len()))));
    }
    if let Some(fault) = chars::first_fault(before) {
        return Err(Rejection::Text(TextRefusal::NotUtf8(fault)));
    }
    if WIDTH_MOST < width {
        return Err(Rejection::Text(TextRefusal::TooWide));
    }
    if after.len() != before.len() {
        return Err(Rejection::Lengths);
    }
    judge_changes(before, after, width as usize)
}

// The numbers of document 01 for what the check answers.
#[tactic(auto, using(crate::proofs::Entering::answer_of_lem), unfolding(crate::specs::Judge::answer_of))]
pub fn answer_of(j: Result<(), Rejection>) -> Answer
    ensures { result ≡ answer_of j }
{
    match j {
        Ok(()) => units::done(0),
        Err(why) => Answer::from(why),
    }
}
