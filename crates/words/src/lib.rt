// Words of a text: the step that finds the word at an offset, and the finder that lists all of them. A
// word is its content and the spaces after it. Follows `core.rs` and `word_separators.rs`: `find_words`
// has its name there.
//
// Nothing here breaks a word or lays words out.
#![tactic(auto)]

ghost use Rattle.std.specs.Prelude.{◌≡◌, ◌+◌, ◌≤◌, ◌<◌, [], ◌∷◌, length, drop, map};
ghost use Rattle.std.proofs.lemmas.List.Edits.{sets};
ghost use Rattle.units.specs.Limits.{text_most};
ghost use Rattle.logic.specs.Count.{count};
ghost use Rattle.chars.specs.Utf8.{Whole};
ghost use Rattle.words.specs.Words.{space, letter, after_word, words, step_at};
ghost use Rattle.words.specs.Lists.{start_of, end_of, white_of, width_of_word, Small, PutAt, Same, room, listed_of, Finds, fit_of};

use limits::TextRefusal;
use units::{Columns, Offset, TEXT_MOST};
use wire::Cell;

const SPACE: u8 = 0x20;

pub const SPACE_CHAR: u32 = 0x20;

// A word: where its content starts and ends, how many spaces follow, and the columns of its content.
#[derive(Clone, Copy)]
pub struct Word {
    pub start: Offset,
    pub end: Offset,
    pub white: Columns,
    pub width: Columns,
}

// The word at an offset, with the offset after it; or no more; or the place of a fault in it.
#[derive(Clone, Copy)]
pub enum Step {
    Found(Word, Offset),
    End,
    Fault(Offset),
}

pub fn is_space(b: u8) -> bool
    ensures { result ≡ space b }
{
    b == SPACE
}

// The end of the run of spaces that starts at `from`.
pub fn space_end(text: &[u8], from: usize) -> usize
    ensures { result ≡ from + count space (drop from text.now) }
{
    runs::run_end(text, from, is_space)
}

// The end of the run of bytes that are no space.
fn letter_end(text: &[u8], from: usize) -> usize
    ensures { result ≡ from + count letter (drop from text.now) }
{
    runs::run_end(text, from, |b| !is_space(b))
}

// The word that starts at an offset.
#[tactic(auto, using(crate::proofs::Stepping::stepping))]
pub fn next_word(text: &[u8], at: Offset) -> Step
    ensures { result ≡ step_at text.now at.0 }
{
    if text.len() <= at.0 {
        return Step::End;
    }
    match measure::columns_until(text, at, SPACE_CHAR) {
        Ok((width, end)) => {
            let after = space_end(text, end.0);
            let white = after - end.0;
            Step::Found(
                Word {
                    start: at,
                    end,
                    white: Columns(white),
                    width,
                },
                Offset(after),
            )
        }
        Err(fault) => Step::Fault(fault),
    }
}

// How many words a text has, by its bytes alone.
#[tactic(auto, using(crate::proofs::Counting::counting_words))]
pub fn count_words(text: &[u8]) -> usize
    ensures { result ≡ length (words text.now) }
{
    let mut at = 0;
    let mut n = 0;
    while at < text.len() {
        let end = letter_end(text, at);
        at = space_end(text, end);
        n += 1;
    }
    n
}

// Whether `room` places are enough for the words of a text. They are counted only where it could lack
// some: a text has at most half as many words as bytes, and one more.
#[tactic(auto, using(crate::proofs::Finding::fitting))]
pub fn room_for_words(text: &[u8], room: usize) -> Result<(), usize>
    ensures { result ≡ fit_of (length (words text.now)) room }
{
    if text.len() / 2 < room {
        return Ok(());
    }
    let n = count_words(text);
    if room < n {
        return Err(n);
    }
    Ok(())
}

// Four lists that are lent for words: where each starts, where its content ends, how many spaces follow, and
// the columns of its content, one place a word. They are lists of 32-bit numbers, or of bytes.
#[derive(Drop)]
pub struct WordLists<'a, C> {
    pub starts: &'a mut [C],
    pub ends: &'a mut [C],
    pub whites: &'a mut [C],
    pub widths: &'a mut [C],
}

impl<'a, C: Cell<u32>> WordLists<'a, C> {
    // How many words there is room for: the places of the shortest list.
    pub fn room(&self) -> usize
        ensures { result ≡ room C.places self.now }
    {
        let front = C::count(self.starts).min(C::count(self.ends));
        let back = C::count(self.whites).min(C::count(self.widths));
        front.min(back)
    }

    // Stores a word from an element on, the same in each list.
    pub fn put(&mut self, place: usize, word: Word)
        requires small { Small word }
        requires put_at { PutAt C.SIZE place self.old }
        ensures starts_after { self.new.starts.now ≡ sets self.old.starts.now place (C.stored (start_of word ∷ [])) }
        ensures ends_after { self.new.ends.now ≡ sets self.old.ends.now place (C.stored (end_of word ∷ [])) }
        ensures whites_after { self.new.whites.now ≡ sets self.old.whites.now place (C.stored (white_of word ∷ [])) }
        ensures widths_after { self.new.widths.now ≡ sets self.old.widths.now place (C.stored (width_of_word word ∷ [])) }
        ensures same { Same self.old self.new }
    {
        C::store(self.starts, place, word.start.0 as u32);
        C::store(self.ends, place, word.end.0 as u32);
        C::store(self.whites, place, word.white.0 as u32);
        C::store(self.widths, place, word.width.0 as u32);
    }
}

// Lists the words of a text that is UTF-8, in lists that have room for them, and counts them.
fn write_words<C: Cell<u32>>(text: &[u8], lists: &mut WordLists<'_, C>) -> usize
    requires text_len_bound { (length text.now ≤ text_most) × Whole text.now }
    requires room { length (words text.now) ≤ room C.places lists.old }
    ensures value { result ≡ length (words text.now) }
    ensures starts_after { lists.new.starts.now ≡ sets lists.old.starts.now 0 (C.stored (map start_of (words text.now))) }
    ensures ends_after { lists.new.ends.now ≡ sets lists.old.ends.now 0 (C.stored (map end_of (words text.now))) }
    ensures whites_after { lists.new.whites.now ≡ sets lists.old.whites.now 0 (C.stored (map white_of (words text.now))) }
    ensures widths_after { lists.new.widths.now ≡ sets lists.old.widths.now 0 (C.stored (map width_of_word (words text.now))) }
    ensures same { Same lists.old lists.new }
{
    let mut at = Offset(0);
    let mut k = 0;
    while at.0 < text.len() {
        let Step::Found(word, after) = next_word(text, at) else {
            return k;
        };
        lists.put(C::SIZE * k, word);
        k += 1;
        at = after;
    }
    k
}

// Lists the words of a text: start, content end, whitespace length and width, one place a word.
#[tactic(auto, using(crate::proofs::Finding::finding))]
pub fn find_words<C: Cell<u32>>(
    text: &[u8],
    lists: &mut WordLists<'_, C>,
) -> Result<usize, TextRefusal>
    ensures value { result ≡ listed_of text.now (room C.places lists.old) }
    ensures starts_after { lists.new.starts.now ≡ Finds result (C.stored (map start_of (words text.now))) lists.old.starts.now }
    ensures ends_after { lists.new.ends.now ≡ Finds result (C.stored (map end_of (words text.now))) lists.old.ends.now }
    ensures whites_after { lists.new.whites.now ≡ Finds result (C.stored (map white_of (words text.now))) lists.old.whites.now }
    ensures widths_after { lists.new.widths.now ≡ Finds result (C.stored (map width_of_word (words text.now))) lists.old.widths.now }
    ensures same { Same lists.old lists.new }
{
    limits::admit(text, TEXT_MOST)?;
    room_for_words(text, lists.room()).map_err(TextRefusal::NoRoom)?;
    Ok(write_words(text, lists))
}
