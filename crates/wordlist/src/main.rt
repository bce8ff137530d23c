// Lists the words of texts, and their pieces: an example of how the reader and the forms on lists of 32-bit
// numbers are called, and the program by which the comparison with the crate runs them.
//
//     wordlist [WIDTH [PLACES]]
//
// Texts come on standard input, with the byte FF between two of them: no UTF-8 text has it. The first
// 65,536 bytes are read. Pieces are of WIDTH columns, 42 unless it is given; lists have PLACES places,
// 60,000 unless it is given. For each text four entries are called; of each the numbers of document 01 are
// written on a line (number, place, count), then a line for each word or piece (start, content end,
// whitespace length, width). What a word is stands in the crates that are called.
#![tactic(auto)]

ghost use Rattle.std.specs.Prelude.{◌≡◌, ◌≤◌, length};
ghost use Rattle.words.specs.Lists.{room};
ghost use Rattle.wordlist.specs.Wordlist.{answered, listed};

use reader::Turn;
use std::env::Env;
use std::io;
use units::{Answer, Columns, Offset};
use words::{Word, WordLists};

// Between two texts of the input.
const BETWEEN: u8 = 0xFF;

// The columns of the slip printer.
const WIDTH: usize = 42;

// The most places that a list has: a piece has a byte at least.
const PLACES: usize = 60000;

// The bytes of the input that are read.
const INPUT_MOST: usize = 65536;

// What a place of a list holds before a call, and no word has.
const FRESH: u32 = 0xFFFFFFFF;

// The entries that write lists: `words::find_words`, `pieces::break_apart` and `pieces::break_words`.
#[derive(Clone, Copy)]
enum Entry {
    Words,
    Apart,
    Broken,
}

// Each of them, in the order in which they are called.
const ENTRIES: [Entry; 3] = [Entry::Words, Entry::Apart, Entry::Broken];

// What an entry is called.
fn name_of(entry: Entry) -> &'static str {
    match entry {
        Entry::Words => "find_words",
        Entry::Apart => "break_apart",
        Entry::Broken => "break_words",
    }
}

// Writes the name of an entry and its answer on a line.
fn put_answer(rt: &HostRuntime, entry: &str, a: Answer) -> io::Result<()> {
    let number = a.number;
    let place = a.place;
    let count = a.count;
    println!(rt; "{entry} {number} {place} {count}")
}

// Writes the four numbers of a word on a line.
fn put_word(rt: &HostRuntime, word: Word) -> io::Result<()> {
    let start = word.start.0;
    let end = word.end.0;
    let white = word.white.0;
    let width = word.width.0;
    println!(rt; "{start} {end} {white} {width}")
}

// Writes what a reader answers after the last word: no more, and where it stands.
fn put_last(rt: &HostRuntime, turn: Turn) -> io::Result<()> {
    match turn.found {
        Some(word) => put_word(rt, word),
        None => {
            let at = turn.next.0;
            println!(rt; "no more {at}")
        }
    }
}

// Lists the words of a text as a reader answers them, one after the other.
fn list_read(rt: &HostRuntime, text: &[u8]) -> io::Result<()> {
    let opening = reader::open_at(text);
    put_answer(rt, "reader", reader::answer_of(opening.answer))?;
    let mut at = opening.at;
    // a text has no more words than bytes
    for _ in 0..text.len() {
        let turn = reader::next_of(text, at);
        let Some(word) = turn.found else {
            break;
        };
        put_word(rt, word)?;
        at = turn.next;
    }
    put_last(rt, reader::next_of(text, at))
}

// Whether any of a place's four numbers was stored.
fn is_listed(start: u32, end: u32, white: u32, width: u32) -> bool
    ensures { result ≡ listed start end white width }
{
    !((start == FRESH) & (end == FRESH) & (white == FRESH) & (width == FRESH))
}

// Writes the places of four lists in which anything was stored.
fn put_lists(rt: &HostRuntime, lists: &WordLists<'_, u32>) -> io::Result<()> {
    let fronts = lists.starts.iter().zip(lists.ends.iter());
    let backs = lists.whites.iter().zip(lists.widths.iter());
    for ((start, end), (white, width)) in fronts.zip(backs) {
        if is_listed(*start, *end, *white, *width) {
            let word = Word {
                start: Offset(*start as usize),
                end: Offset(*end as usize),
                white: Columns(*white as usize),
                width: Columns(*width as usize),
            };
            put_word(rt, word)?;
        }
    }
    Ok(())
}

// Calls one of the entries on four lists that are lent.
fn call(entry: Entry, text: &[u8], width: u32, lists: &mut WordLists<'_, u32>) -> Answer
    ensures { result ≡ answered entry text.now width (room length lists.old) }
{
    let found = match entry {
        Entry::Words => words::find_words(text, lists),
        Entry::Apart => pieces::break_apart(text, width, lists),
        Entry::Broken => pieces::break_words(text, width, lists),
    };
    limits::answer_of(found)
}

// Makes lists hold what no word has.
fn make_fresh(lists: &mut WordLists<'_, u32>) {
    lists.starts.fill(FRESH);
    lists.ends.fill(FRESH);
    lists.whites.fill(FRESH);
    lists.widths.fill(FRESH);
}

// Lists what one of the entries finds in a text: its answer, and the places that it fills.
fn list_by(
    rt: &HostRuntime,
    entry: Entry,
    text: &[u8],
    width: u32,
    lists: &mut WordLists<'_, u32>,
) -> io::Result<()> {
    make_fresh(lists);
    let answer = call(entry, text, width, lists);
    put_answer(rt, name_of(entry), answer)?;
    put_lists(rt, lists)
}

// Lists the words of a text, by a reader and by the finder, and its pieces.
fn list_text(
    rt: &HostRuntime,
    text: &[u8],
    width: u32,
    lists: &mut WordLists<'_, u32>,
) -> io::Result<()> {
    list_read(rt, text)?;
    for entry in ENTRIES {
        list_by(rt, entry, text, width, lists)?;
    }
    Ok(())
}

// Lists each text of the input, in lists of so many places.
fn list_all(rt: &HostRuntime, input: &[u8], width: u32, places: usize) -> io::Result<()>
    requires { places ≤ 60000 }
{
    let mut starts = [FRESH; PLACES];
    let mut ends = [FRESH; PLACES];
    let mut whites = [FRESH; PLACES];
    let mut widths = [FRESH; PLACES];
    let mut lists = WordLists {
        starts: &mut starts[..places],
        ends: &mut ends[..places],
        whites: &mut whites[..places],
        widths: &mut widths[..places],
    };
    let mut from = 0;
    while from <= input.len() {
        let end = streams::end_of_part(input, from, BETWEEN);
        list_text(rt, &input[from..end], width, &mut lists)?;
        from = end + 1;
    }
    Ok(())
}

// The number that is an argument of the program; another where there is none.
fn argument(rt: &HostRuntime, k: usize, absent: usize) -> usize
    requires { absent ≤ 99999 }
    ensures { result ≤ 99999 }
{
    let mut digits = [0u8; 8];
    let Ok(n) = rt.arg(k, &mut digits) else {
        return absent;
    };
    if n == 0 {
        return absent;
    }
    decimal::number_of(&digits[..n])
}

fn main(rt: HostRuntime) -> io::Result<()> {
    let width = argument(&rt, 1, WIDTH);
    let places = argument(&rt, 2, PLACES).min(PLACES);
    let mut space = [0u8; INPUT_MOST];
    let n = streams::read_full(&mut rt.stdin(), &mut space);
    list_all(&rt, &space[..n], width as u32, places)
}
