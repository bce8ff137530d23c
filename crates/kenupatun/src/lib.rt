// The functions that C calls, as `include/kenupatun.h` declares them, and what turns a word into numbers
// for it: each hands over what an entry of the crates below answers, in the numbers of document 01. A
// slice is a pointer and a length; a list of wider numbers is bytes, high first.
#![tactic(auto)]

ghost use Rattle.std.specs.Prelude.{◌≡◌};
ghost use Rattle.words.specs.Words.{words};
ghost use Rattle.words.specs.Lists.{start_of, end_of, white_of, width_of_word};
ghost use Rattle.pieces.specs.Pieces.{break_apart, break_words};
ghost use Rattle.kenupatun.specs.Exports.{measured, found, found_answer, word_made, with_word, no_word, word_in, broken_word, broken_words, broken_answer, words_left, pieces_left};
ghost use Rattle.wire.specs.Wire.{numbers16};
ghost use Rattle.kenupatun.specs.Exports.{first_fit, laid_answer, first_fit_left, five, LeastCost, fill, fill_answer, fill_left, judged};

use fragments::FragmentLists;
use least_cost::Penalties;
use limits::TextRefusal;
use units::{Answer, Columns, Offset};
use words::{Word, WordLists};

// What an entry answers, with a word: one of zeros where it is refused. C callers get it by value.
#[repr(C)]
#[derive(Clone, Copy)]
pub struct WordAnswer {
    pub number: u32,
    pub place: u64,
    pub count: u64,
    pub start: u64,
    pub end: u64,
    pub white: u64,
    pub width: u64,
}

// An answer with a word, in numbers.
fn with_word(answer: Answer, word: Word) -> WordAnswer
    ensures { result ≡ with_word answer word }
{
    WordAnswer {
        number: answer.number,
        place: answer.place,
        count: answer.count,
        start: word.start.0 as u64,
        end: word.end.0 as u64,
        white: word.white.0 as u64,
        width: word.width.0 as u64,
    }
}

// A word of zeros, for a refusal.
fn no_word() -> Word
    ensures { result ≡ no_word }
{
    Word {
        start: Offset(0),
        end: Offset(0),
        white: Columns(0),
        width: Columns(0),
    }
}

// The word that a text is; a word of zeros where it is refused.
#[tactic(auto, unfolding(crate::specs::Exports::word_in))]
fn word_in(w: Result<Word, TextRefusal>) -> Word
    ensures { result ≡ word_in w }
{
    match w {
        Ok(word) => word,
        Err(_) => no_word(),
    }
}

// The columns of a text, as the count; or refusal 1 or 2.
#[unsafe(no_mangle)]
pub extern "C" fn kenupatun_measure(text: &[u8]) -> Answer
    ensures { result ≡ measured text.now }
{
    measure::answer_of(measure::display_width(text))
}

// The words of a text in four lists of 32-bit numbers, and how many there are; or refusal 1, 2 or 7.
#[tactic(auto, using(crate::proofs::Answers::found_by, crate::proofs::Answers::words_by))]
#[unsafe(no_mangle)]
pub extern "C" fn kenupatun_words(
    text: &[u8],
    starts: &mut [u8],
    ends: &mut [u8],
    whites: &mut [u8],
    widths: &mut [u8],
) -> Answer
    ensures value { result ≡ found_answer (found text.now starts.old ends.old whites.old widths.old) }
    ensures starts_after { starts.new ≡ words_left (found text.now starts.old ends.old whites.old widths.old) start_of (words text.now) starts.old }
    ensures ends_after { ends.new ≡ words_left (found text.now starts.old ends.old whites.old widths.old) end_of (words text.now) ends.old }
    ensures whites_after { whites.new ≡ words_left (found text.now starts.old ends.old whites.old widths.old) white_of (words text.now) whites.old }
    ensures widths_after { widths.new ≡ words_left (found text.now starts.old ends.old whites.old widths.old) width_of_word (words text.now) widths.old }
{
    let mut lists = WordLists {
        starts,
        ends,
        whites,
        widths,
    };
    limits::answer_of(words::find_words(text, &mut lists))
}

// A text as one word, the spaces at its end being its whitespace; or refusal 1 or 2.
#[unsafe(no_mangle)]
pub extern "C" fn kenupatun_word_from(text: &[u8]) -> WordAnswer
    ensures { result ≡ word_made text.now }
{
    let made = pieces::word_from(text);
    with_word(pieces::word_answer_of(made), word_in(made))
}

// The pieces of a text that is one word, in four lists; or refusal 1, 2, 3 or 7.
#[tactic(auto, using(crate::proofs::Answers::broken_by, crate::proofs::Answers::pieces_by))]
#[unsafe(no_mangle)]
pub extern "C" fn kenupatun_break_word(
    text: &[u8],
    width: u32,
    starts: &mut [u8],
    ends: &mut [u8],
    whites: &mut [u8],
    widths: &mut [u8],
) -> Answer
    ensures value { result ≡ broken_answer (broken_word text.now width starts.old ends.old whites.old widths.old) }
    ensures starts_after { starts.new ≡ pieces_left (broken_word text.now width starts.old ends.old whites.old widths.old) start_of (break_apart text.now width) starts.old }
    ensures ends_after { ends.new ≡ pieces_left (broken_word text.now width starts.old ends.old whites.old widths.old) end_of (break_apart text.now width) ends.old }
    ensures whites_after { whites.new ≡ pieces_left (broken_word text.now width starts.old ends.old whites.old widths.old) white_of (break_apart text.now width) whites.old }
    ensures widths_after { widths.new ≡ pieces_left (broken_word text.now width starts.old ends.old whites.old widths.old) width_of_word (break_apart text.now width) widths.old }
{
    let mut lists = WordLists {
        starts,
        ends,
        whites,
        widths,
    };
    limits::answer_of(pieces::break_apart(text, width, &mut lists))
}

// The words of a text, those that are wider broken, in four lists; or refusal 1, 2, 3 or 7.
#[tactic(auto, using(crate::proofs::Answers::broken_by, crate::proofs::Answers::pieces_by))]
#[unsafe(no_mangle)]
pub extern "C" fn kenupatun_break_words(
    text: &[u8],
    width: u32,
    starts: &mut [u8],
    ends: &mut [u8],
    whites: &mut [u8],
    widths: &mut [u8],
) -> Answer
    ensures value { result ≡ broken_answer (broken_words text.now width starts.old ends.old whites.old widths.old) }
    ensures starts_after { starts.new ≡ pieces_left (broken_words text.now width starts.old ends.old whites.old widths.old) start_of (break_words text.now width) starts.old }
    ensures ends_after { ends.new ≡ pieces_left (broken_words text.now width starts.old ends.old whites.old widths.old) end_of (break_words text.now width) ends.old }
    ensures whites_after { whites.new ≡ pieces_left (broken_words text.now width starts.old ends.old whites.old widths.old) white_of (break_words text.now width) whites.old }
    ensures widths_after { widths.new ≡ pieces_left (broken_words text.now width starts.old ends.old whites.old widths.old) width_of_word (break_words text.now width) widths.old }
{
    let mut lists = WordLists {
        starts,
        ends,
        whites,
        widths,
    };
    limits::answer_of(pieces::break_words(text, width, &mut lists))
}

// The ends of the lines of first fit, in a list of 16-bit numbers, and how many lines there are; or
// refusal 5, 4, 3 or 7.
#[unsafe(no_mangle)]
pub extern "C" fn kenupatun_first_fit(
    words: &[u8],
    whites: &[u8],
    penalties: &[u8],
    widths: &[u8],
    ends: &mut [u8],
) -> Answer
    ensures value { result ≡ laid_answer (first_fit words.now whites.now penalties.now widths.now ends.old) }
    ensures ends_after { ends.new ≡ first_fit_left (first_fit words.now whites.now penalties.now widths.now ends.old) words.now whites.now penalties.now widths.now ends.old }
{
    let lists = FragmentLists {
        words,
        whites,
        penalties,
    };
    fragments::answer_of(first_fit::wrap_first_fit(&lists, widths, ends))
}

// The ends of the lines of the least cost, in a list of 16-bit numbers, and how many lines there are; the
// best cost of each position in a list of 64-bit numbers, and its chosen start in one of 16-bit numbers; or
// refusal 5, 4, 3, 6, 7 or 8.
#[unsafe(no_mangle)]
pub extern "C" fn kenupatun_least_cost(
    words: &[u8],
    whites: &[u8],
    penalties: &[u8],
    widths: &[u8],
    line: u32,
    overflow: u32,
    fraction: u32,
    short: u32,
    hyphen: u32,
    ends: &mut [u8],
    costs: &mut [u8],
    starts: &mut [u8],
) -> Answer
    ensures { LeastCost (numbers16 words.now) (numbers16 whites.now) (numbers16 penalties.now) (numbers16 widths.now)
        (five line overflow fraction short hyphen) ends.old costs.old starts.old result ends.new costs.new starts.new }
{
    let p = Penalties {
        line,
        overflow,
        fraction,
        short,
        hyphen,
    };
    let lists = FragmentLists {
        words,
        whites,
        penalties,
    };
    fragments::answer_of(cost_bytes::wrap_optimal_fit(&lists, widths, p, ends, costs, starts))
}

// Fills a text where it stands, and counts the bytes changed; or refusal 1, 2 or 3.
#[tactic(auto, using(crate::proofs::Answers::filled_by))]
#[unsafe(no_mangle)]
pub extern "C" fn kenupatun_fill(text: &mut [u8], width: u32) -> Answer
    ensures value { result ≡ fill_answer (fill width text.old) }
    ensures text_after { text.new ≡ fill_left (fill width text.old) width text.old }
{
    limits::answer_of(fill::fill_inplace(text, width))
}

// Whether a text after is accepted against the text before at a width; or refusal 1, 2, 3, 9, 10, 11 or
// 12.
#[unsafe(no_mangle)]
pub extern "C" fn kenupatun_check(before: &[u8], after: &[u8], width: u32) -> Answer
    ensures { result ≡ judged width before.now after.now }
{
    judge::answer_of(judge::check(before, after, width))
}
