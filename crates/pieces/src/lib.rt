// Pieces of words: a word, or the words of a text, broken at a width. Follows `core.rs`: `word_from` is
// its `Word::from`, `break_apart` and `break_words` have their names there.
//
// Breaking is a step, the next piece from an offset, which counting and writing share. Nothing here lays
// pieces out.
#![tactic(auto)]

ghost use Rattle.std.specs.Prelude.{◌≡◌, ◌≤◌, map, length};
ghost use Rattle.std.proofs.lemmas.List.Edits.{sets};
ghost use Rattle.units.specs.Limits.{text_most};
ghost use Rattle.chars.specs.Utf8.{Whole};
ghost use Rattle.words.specs.Lists.{start_of, end_of, white_of, width_of_word, Same, room};
ghost use Rattle.pieces.specs.Pieces.{starts, trimmed, break_apart, break_words};
ghost use Rattle.pieces.specs.Lists.{one_word_of, word_answer_of, broken_of, Lists, pieces_by};
ghost use Rattle.pieces.specs.Steps.{Way, cut_at, spaces_after, step_piece};

use limits::TextRefusal;
use measure::{Mode, NO_STOP};
use units::{Answer, Columns, Offset, TEXT_MOST};
use wire::Cell;
use words::{SPACE_CHAR, Word, WordLists};

// Where a piece ends, and its columns.
#[derive(Clone, Copy)]
pub struct Cut {
    pub end: Offset,
    pub width: Columns,
}

// Whether a character starts a new piece, by the columns of the current one without it and with it.
#[tactic(auto, unfolding(crate::specs::Pieces::starts))]
fn starts_piece(width: usize, cols: usize, sum: usize) -> bool
    ensures { result ≡ starts width cols sum }
{
    (cols < sum) & ((0 < cols) & (width < sum))
}

// The piece that starts at a place and takes what fits: up to a character that starts the next piece, to
// the first that is `stop`, to the end of the text, or to a place where no character starts.
#[tactic(auto, using(crate::proofs::Cutting::cutting))]
fn cut_from(text: &[u8], from: Offset, stop: u32, width: Columns) -> Cut
    ensures { result ≡ cut_at stop width.0 text.now from.0 }
{
    let mut cut = Cut {
        end: from,
        width: Columns(0),
    };
    let mut mode = Mode::Text;
    // a test of the end besides: `while let` on what is read is slower
    while cut.end.0 < text.len() {
        let Ok((c, after)) = chars::read_char(text, cut.end) else {
            return cut;
        };
        if c == stop {
            return cut;
        }
        let sum = cut.width.0 + measure::columns_taken(mode, c);
        if starts_piece(width.0, cut.width.0, sum) {
            return cut;
        }
        cut = Cut {
            end: after,
            width: Columns(sum),
        };
        mode = measure::next_mode(mode, c);
    }
    cut
}

// The end of a text's content: its length without the spaces at its end.
#[tactic(auto, using(crate::proofs::Trimming::trimming))]
pub fn content_end(text: &[u8]) -> usize
    ensures { result ≡ trimmed text.now }
{
    let mut content = text;
    while let [front @ .., last] = content {
        if !words::is_space(*last) {
            return content.len();
        }
        content = front;
    }
    0
}

// A text as one word: the spaces at its end are its whitespace, and the rest its content.
#[tactic(auto, using(crate::proofs::Trimming::making))]
pub fn word_from(text: &[u8]) -> Result<Word, TextRefusal>
    ensures { result ≡ one_word_of text.now }
{
    if TEXT_MOST < text.len() {
        return Err(TextRefusal::TooLong(Offset(text.len())));
    }
    let end = content_end(text);
    let (width, _) = measure::columns_until(&text[..end], Offset(0), NO_STOP).map_err(
        TextRefusal::NotUtf8,
    )?;
    let white = text.len() - end;
    Ok(Word {
        start: Offset(0),
        end: Offset(end),
        white: Columns(white),
        width,
    })
}

// How many spaces belong to a piece that ends at a place: those that follow a word's content, and none
// where the word goes on.
#[tactic(auto, using(crate::proofs::Stepping::finding))]
fn spaces_after(text: &[u8], end: usize, last: usize, stop: u32) -> usize
    ensures { result ≡ spaces_after stop last text.now end }
{
    if (end == last) | (stop == SPACE_CHAR) {
        words::space_end(text, end) - end
    } else {
        0
    }
}

// The piece that starts at a place. The content ends at `last`; a word in it ends before `stop`.
#[tactic(auto, using(crate::proofs::Stepping::finding))]
pub fn next_piece(text: &[u8], at: Offset, last: usize, stop: u32, width: Columns) -> Word
    requires { last ≤ length text.now }
    ensures { result ≡ step_piece stop last width.0 text.now at.0 }
{
    let found = cut_from(&text[..last], at, stop, width);
    let white = spaces_after(text, found.end.0, last, stop);
    Word {
        start: at,
        end: found.end,
        white: Columns(white),
        width: found.width,
    }
}

// How many pieces there are.
pub fn count_pieces(text: &[u8], last: usize, stop: u32, width: Columns) -> usize
    requires { Way stop last text.now × Whole text.now }
    ensures { result ≡ length (pieces_by stop text.now width.0) }
{
    let mut n: usize = 0;
    let mut at = Offset(0);
    while at.0 < last {
        let found = next_piece(text, at, last, stop, width);
        let after = found.end.0 + found.white.0;
        at = Offset(after);
        n += 1;
    }
    n
}

// Lists the pieces, in lists that have room for them.
fn write_pieces<C: Cell<u32>>(
    text: &[u8],
    last: usize,
    stop: u32,
    width: Columns,
    lists: &mut WordLists<'_, C>,
)
    requires text_len_bound { (length text.now ≤ text_most) × Way stop last text.now × Whole text.now }
    requires room { length (pieces_by stop text.now width.0) ≤ room C.places lists.old }
    ensures starts_after { lists.new.starts.now ≡ sets lists.old.starts.now 0 (C.stored (map start_of (pieces_by stop text.now width.0))) }
    ensures ends_after { lists.new.ends.now ≡ sets lists.old.ends.now 0 (C.stored (map end_of (pieces_by stop text.now width.0))) }
    ensures whites_after { lists.new.whites.now ≡ sets lists.old.whites.now 0 (C.stored (map white_of (pieces_by stop text.now width.0))) }
    ensures widths_after { lists.new.widths.now ≡ sets lists.old.widths.now 0 (C.stored (map width_of_word (pieces_by stop text.now width.0))) }
    ensures same { Same lists.old lists.new }
{
    let mut at = Offset(0);
    let mut k = 0;
    while at.0 < last {
        let found = next_piece(text, at, last, stop, width);
        let after = found.end.0 + found.white.0;
        lists.put(C::SIZE * k, found);
        k += 1;
        at = Offset(after);
    }
}

// Tests what is given, and lists the pieces.
#[tactic(auto, using(limits::proofs::Laws::admitting, limits::proofs::Laws::narrowing, crate::proofs::Listing::breaking), unfolding(crate::specs::Lists::broken_of))]
fn list_pieces<C: Cell<u32>>(
    text: &[u8],
    last: usize,
    stop: u32,
    width: u32,
    lists: &mut WordLists<'_, C>,
) -> Result<usize, TextRefusal>
    requires { Way stop last text.now }
    ensures value { result ≡ broken_of text.now width (room C.places lists.old) (pieces_by stop text.now width) }
    ensures starts_after { lists.new.starts.now ≡ Lists result (C.stored (map start_of (pieces_by stop text.now width))) lists.old.starts.now }
    ensures ends_after { lists.new.ends.now ≡ Lists result (C.stored (map end_of (pieces_by stop text.now width))) lists.old.ends.now }
    ensures whites_after { lists.new.whites.now ≡ Lists result (C.stored (map white_of (pieces_by stop text.now width))) lists.old.whites.now }
    ensures widths_after { lists.new.widths.now ≡ Lists result (C.stored (map width_of_word (pieces_by stop text.now width))) lists.old.widths.now }
    ensures same { Same lists.old lists.new }
{
    limits::admit(text, TEXT_MOST)?;
    let cols = limits::columns_of(width)?;
    let n = count_pieces(text, last, stop, cols);
    if lists.room() < n {
        return Err(TextRefusal::NoRoom(n));
    }
    write_pieces(text, last, stop, cols, lists);
    Ok(n)
}

// Lists the pieces of a text that is one word, the spaces at its end being its whitespace: start, content
// end, whitespace length and width, one place a piece.
#[tactic(auto, using(crate::proofs::Listing::ways))]
pub fn break_apart<C: Cell<u32>>(
    text: &[u8],
    width: u32,
    lists: &mut WordLists<'_, C>,
) -> Result<usize, TextRefusal>
    ensures value { result ≡ broken_of text.now width (room C.places lists.old) (break_apart text.now width) }
    ensures starts_after { lists.new.starts.now ≡ Lists result (C.stored (map start_of (break_apart text.now width))) lists.old.starts.now }
    ensures ends_after { lists.new.ends.now ≡ Lists result (C.stored (map end_of (break_apart text.now width))) lists.old.ends.now }
    ensures whites_after { lists.new.whites.now ≡ Lists result (C.stored (map white_of (break_apart text.now width))) lists.old.whites.now }
    ensures widths_after { lists.new.widths.now ≡ Lists result (C.stored (map width_of_word (break_apart text.now width))) lists.old.widths.now }
    ensures same { Same lists.old lists.new }
{
    let last = content_end(text);
    list_pieces(text, last, NO_STOP, width, lists)
}

// Lists the words of a text, and in the place of each that is wider its pieces.
#[tactic(auto, using(crate::proofs::Listing::ways))]
pub fn break_words<C: Cell<u32>>(
    text: &[u8],
    width: u32,
    lists: &mut WordLists<'_, C>,
) -> Result<usize, TextRefusal>
    ensures value { result ≡ broken_of text.now width (room C.places lists.old) (break_words text.now width) }
    ensures starts_after { lists.new.starts.now ≡ Lists result (C.stored (map start_of (break_words text.now width))) lists.old.starts.now }
    ensures ends_after { lists.new.ends.now ≡ Lists result (C.stored (map end_of (break_words text.now width))) lists.old.ends.now }
    ensures whites_after { lists.new.whites.now ≡ Lists result (C.stored (map white_of (break_words text.now width))) lists.old.whites.now }
    ensures widths_after { lists.new.widths.now ≡ Lists result (C.stored (map width_of_word (break_words text.now width))) lists.old.widths.now }
    ensures same { Same lists.old lists.new }
{
    let last = text.len();
    list_pieces(text, last, SPACE_CHAR, width, lists)
}

// The numbers of document 01 for a text as one word.
#[tactic(auto, unfolding(crate::specs::Lists::word_answer_of))]
pub fn word_answer_of(w: Result<Word, TextRefusal>) -> Answer
    ensures { result ≡ word_answer_of w }
{
    match w {
        Ok(_) => units::done(1),
        Err(why) => Answer::from(why),
    }
}
