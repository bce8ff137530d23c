// What the arguments of `slip` ask for, by their bytes alone: each argument is followed by a byte 0, which
// no argument holds. Which command it is, of what width, and which words name files is decided here; no
// file is opened, and nothing is written.
#![tactic(auto)]

ghost use Rattle.std.specs.Prelude.{◌≡◌, ◌≤◌, length};
ghost use Rattle.decimal.specs.Decimal.{parse};
ghost use Rattle.asked.specs.Block.{in_word, end_at, word_at, part_at, none, IsAfter, same, run_after, runs_over};
ghost use Rattle.asked.specs.Plan.{misuse, is_help, command_of, is_input, file_at, one_file_of, one_word_of, two_words_of, sized_of, pair_of, triple_of, check_of, commanded_of, plan_of};

// The columns of the slip printer, where no width is given.
pub const WIDTH: u32 = 42;

// The longest argument, in bytes: the longest path that the system takes.
pub const ARGUMENT_MOST: usize = 4095;

// Where a word stands in the block: its first byte, and the byte after its last.
#[derive(Clone, Copy)]
pub struct Part {
    pub start: usize,
    pub end: usize,
}

// Where a text comes from: standard input, or the file that a word names.
#[derive(Clone, Copy)]
pub enum File {
    Input,
    Named(Part),
}

// What is wrong with arguments: none at all; a first word that is no command; a word that is no number
// where a width stands; one text where two are compared; a word too many; both texts from standard input;
// an argument that is too long.
#[derive(Clone, Copy)]
pub enum Wrong {
    NoCommand,
    NoSuchCommand,
    NotWidth,
    TooFew,
    TooMany,
    BothInput,
    TooLong,
}

// Arguments that ask for nothing: what is wrong with them, and the word that is.
#[derive(Clone, Copy)]
pub struct Misuse {
    pub wrong: Wrong,
    pub word: Part,
}

// What is asked for: the help; a text measured, its words listed, filled at a width, or shown at a width; a
// text and another that came of it, checked at a width.
#[derive(Clone, Copy)]
pub enum Plan {
    Help,
    Measure(File),
    Words(File),
    Fill(u32, File),
    Show(u32, File),
    Check(u32, File, File),
}

// The commands.
#[derive(Clone, Copy)]
enum Command {
    Help,
    Measure,
    Words,
    Fill,
    Show,
    Check,
}

// Whether a word asks for the help.
fn is_help(word: &[u8]) -> bool
    ensures { result ≡ is_help word.now }
{
    is_same(word, b"help") || is_same(word, b"--help") || is_same(word, b"-h")
}

// The command that a word is.
impl<'a> TryFrom<&'a [u8]> for Command {
    type Error = Wrong;

    #[tactic(auto, using(logic::proofs::Choice::picks), unfolding(crate::specs::Plan::command_of))]
    fn try_from(word: &'a [u8]) -> Result<Command, Wrong>
        ensures { result ≡ command_of word.now }
    {
        if is_same(word, b"measure") {
            Ok(Command::Measure)
        } else if is_same(word, b"words") {
            Ok(Command::Words)
        } else if is_same(word, b"fill") {
            Ok(Command::Fill)
        } else if is_same(word, b"show") {
            Ok(Command::Show)
        } else if is_same(word, b"check") {
            Ok(Command::Check)
        } else if is_help(word) {
            Ok(Command::Help)
        } else {
            Err(Wrong::NoSuchCommand)
        }
    }
}

// ---- words

// Whether two rows of bytes are the same.
#[tactic(auto, using(crate::proofs::Block::same_pairs))]
pub fn is_same(a: &[u8], b: &[u8]) -> bool
    ensures { result ≡ same a.now b.now }
{
    a == b
}

fn in_word(b: u8) -> bool
    ensures { result ≡ in_word b }
{
    b != 0
}

// How many bytes of a word are passed after one more byte.
fn run_after(run: usize, b: u8) -> usize
    requires { run ≤ 4095 }
    ensures { result ≡ run_after run b }
{
    if in_word(b) { run + 1 } else { 0 }
}

// Whether a word of the block has more bytes than an argument may.
#[tactic(auto, using(crate::proofs::Block::running))]
fn has_long(block: &[u8]) -> bool
    ensures { result ≡ runs_over 4095 0 block.now }
{
    let mut run = 0;
    for &b in block {
        run = run_after(run, b);
        if ARGUMENT_MOST < run {
            return true;
        }
    }
    false
}

// The words of the block from a place on.
#[derive(Clone, Copy)]
struct Words<'a> {
    block: &'a [u8],
    at: usize,
    ghost inside: { at ≤ length block.now },
}

impl<'a> Words<'a> {
    // Whether there is none.
    fn is_empty(self) -> bool
        ensures { result ≡ none self.entry.block.now self.entry.at }
    {
        self.block.len() <= self.at
    }

    // Where the first of them ends: at its 0, or at the end of the block.
    fn end(self) -> usize
        ensures value { result ≡ end_at self.entry.block.now self.entry.at }
        ensures after { self.entry.at ≤ result }
        ensures inside { result ≤ length self.entry.block.now }
    {
        let run = self.block[self.at..].iter().take_while(|b| in_word(**b));
        self.at + run.count()
    }

    // The bytes of the first,
    fn bytes(self) -> &'a [u8]
        ensures { result.now ≡ word_at self.entry.block.now self.entry.at }
    {
        &self.block[self.at..self.end()]
    }

    // and where it stands.
    fn part(self) -> Part
        ensures { result ≡ part_at self.entry.block.now self.entry.at }
    {
        Part {
            start: self.at,
            end: self.end(),
        }
    }

    // The words after the first: past its 0.
    #[tactic(auto, using(crate::proofs::Block::after_least))]
    fn rest(self) -> Words<'a>
        ensures { IsAfter result.block.now result.at self.entry.block.now self.entry.at }
    {
        Words {
            block: self.block,
            at: self.block.len().min(self.end() + 1),
        }
    }

    // What is wrong, with the first as the word that is.
    fn misuse(self, wrong: Wrong) -> Misuse
        ensures { result ≡ misuse wrong (part_at self.entry.block.now self.entry.at) }
    {
        Misuse {
            wrong,
            word: self.part(),
        }
    }

    // The number that the first is, where it is one.
    fn width(self) -> Option<u32>
        ensures { result ≡ parse (word_at self.entry.block.now self.entry.at) }
    {
        let width = decimal::parse(self.bytes())?;
        Some(width as u32)
    }

    // Whether the first stands for standard input.
    fn is_input(self) -> bool
        ensures { result ≡ is_input self.entry.block.now self.entry.at }
    {
        is_same(self.bytes(), b"-")
    }

    // Where a text comes from, by the first.
    #[tactic(auto, using(crate::proofs::Asking::files))]
    fn file(self) -> File
        ensures { result ≡ file_at self.entry.block.now self.entry.at }
    {
        if self.is_input() {
            File::Input
        } else {
            File::Named(self.part())
        }
    }
}

// What is wrong where no word of the block is.
fn nowhere(wrong: Wrong) -> Misuse
    ensures { result ≡ misuse wrong (record { start = 0; end = 0 }) }
{
    Misuse {
        wrong,
        word: Part { start: 0, end: 0 },
    }
}

// ---- what the words after a command say

// `[FILE]`
#[tactic(auto, using(crate::proofs::Asking::one))]
fn one_file(words: Words) -> Result<File, Misuse>
    ensures { result ≡ one_file_of words.entry.block.now words.entry.at }
{
    if words.is_empty() {
        return Ok(File::Input);
    }
    let second = words.rest();
    if second.is_empty() {
        return Ok(words.file());
    }
    Err(second.misuse(Wrong::TooMany))
}

// One word where a width and a file may stand: a number is the width.
#[tactic(auto, using(crate::proofs::Asking::sizes))]
fn one_word(word: Words) -> (u32, File)
    ensures { result ≡ one_word_of word.entry.block.now word.entry.at }
{
    match word.width() {
        Some(width) => (width, File::Input),
        None => (WIDTH, word.file()),
    }
}

// Two words where a width and a file stand.
#[tactic(auto, using(crate::proofs::Asking::sizes))]
fn two_words(words: Words, second: Words) -> Result<(u32, File), Misuse>
    requires { IsAfter second.block.now second.at words.block.now words.at }
    ensures { result ≡ two_words_of words.entry.block.now words.entry.at second.entry.at }
{
    match words.width() {
        Some(width) => Ok((width, second.file())),
        None => Err(words.misuse(Wrong::NotWidth)),
    }
}

// `[WIDTH] [FILE]`
#[tactic(auto, using(crate::proofs::Asking::sizing))]
fn width_and_file(words: Words) -> Result<(u32, File), Misuse>
    ensures { result ≡ sized_of words.entry.block.now words.entry.at }
{
    if words.is_empty() {
        return Ok((WIDTH, File::Input));
    }
    let second = words.rest();
    if second.is_empty() {
        return Ok(one_word(words));
    }
    let third = second.rest();
    if third.is_empty() {
        return two_words(words, second);
    }
    Err(third.misuse(Wrong::TooMany))
}

// The check of two texts at a width, by the words that name them.
#[tactic(auto, using(crate::proofs::Asking::pairs))]
fn pair(width: u32, before: Words, after: Words) -> Result<Plan, Misuse>
    requires { before.block.now ≡ after.block.now }
    ensures { result ≡ pair_of before.entry.block.now width before.entry.at after.entry.at }
{
    if before.is_input() && after.is_input() {
        return Err(after.misuse(Wrong::BothInput));
    }
    Ok(Plan::Check(width, before.file(), after.file()))
}

// Three words after `check`: the first is the width.
#[tactic(auto, using(crate::proofs::Asking::triples))]
fn triple(first: Words, second: Words, third: Words) -> Result<Plan, Misuse>
    requires second_after { IsAfter second.block.now second.at first.block.now first.at }
    requires third_after { IsAfter third.block.now third.at second.block.now second.at }
    ensures { result ≡ triple_of first.entry.block.now first.entry.at second.entry.at third.entry.at }
{
    match first.width() {
        Some(width) => pair(width, second, third),
        None => Err(first.misuse(Wrong::NotWidth)),
    }
}

// `[WIDTH] BEFORE AFTER`
#[tactic(auto, using(crate::proofs::Asking::checks))]
fn checked(first: Words) -> Result<Plan, Misuse>
    ensures { result ≡ check_of first.entry.block.now first.entry.at }
{
    if first.is_empty() {
        return Err(nowhere(Wrong::TooFew));
    }
    let second = first.rest();
    if second.is_empty() {
        return Err(nowhere(Wrong::TooFew));
    }
    let third = second.rest();
    if third.is_empty() {
        return pair(WIDTH, first, second);
    }
    let fourth = third.rest();
    if fourth.is_empty() {
        return triple(first, second, third);
    }
    Err(fourth.misuse(Wrong::TooMany))
}

// ---- the plan

// What a command asks for with the words after it.
fn commanded(command: Command, words: Words) -> Result<Plan, Misuse>
    ensures { result ≡ commanded_of words.entry.block.now command words.entry.at }
{
    match command {
        Command::Help => Ok(Plan::Help),
        Command::Measure => Ok(Plan::Measure(one_file(words)?)),
        Command::Words => Ok(Plan::Words(one_file(words)?)),
        Command::Fill => {
            let (width, file) = width_and_file(words)?;
            Ok(Plan::Fill(width, file))
        }
        Command::Show => {
            let (width, file) = width_and_file(words)?;
            Ok(Plan::Show(width, file))
        }
        Command::Check => checked(words),
    }
}

// What the arguments ask for.
#[tactic(auto, using(crate::proofs::Asking::plans))]
pub fn plan_of(block: &[u8]) -> Result<Plan, Misuse>
    ensures { result ≡ plan_of block.now }
{
    if has_long(block) {
        return Err(nowhere(Wrong::TooLong));
    }
    let words = Words { block, at: 0 };
    if words.is_empty() {
        return Err(nowhere(Wrong::NoCommand));
    }
    match Command::try_from(words.bytes()) {
        Ok(command) => commanded(command, words.rest()),
        Err(wrong) => Err(words.misuse(wrong)),
    }
}
