// Stored answers of the crate textwrap, replayed: what a record of the stored file asks, and whether the
// entry that it asks answers as the crate did. All that the program `vectors` decides is decided here; the
// program itself only moves bytes. What is right stands in the crates that are called, and how the file
// was made in `rust/vectors`, which also has the form of a record.
#![tactic(auto)]

mod number;

ghost use Rattle.std.specs.Prelude.{◌≡◌, [], ◌∷◌, ◌+◌, ◌*◌, ◌≤◌, ◌<◌, length, map, take, IfSome, None, Some};
ghost use Rattle.units.specs.Limits.{text_most};
ghost use Rattle.words.specs.Lists.{start_of, end_of, white_of, width_of_word, room, Room};
ghost use Rattle.pieces.specs.Lists.{Lists};
ghost use Rattle.fill.specs.Fill.{fill_of, leaves};
ghost use Rattle.replay.specs.Parts.{holds, four, long_at};
ghost use Rattle.replay.specs.Replay.{head_of, kind_of, cut, measure_agrees, listed, found, lists_agree, filled_agrees, fill_agrees, agreed, parts_of, words_in, whites_in, penalties_in, widths_in, penalties_of, first_of_parts, first_agrees, weighed, least_of_parts, least_asked, numbers_verdict, asked_verdict, layout_verdict, asked_after, verdict_of};
ghost use Rattle.replay.specs.Tally.{one_more, first_of, counted_of};

use fragments::FragmentLists;
use least_cost::Penalties;
use limits::TextRefusal;
use number::Number;
use std::fmt;
use units::{FRAGMENTS_MOST, TEXT_MOST};
use words::WordLists;

// The bytes of a record before what it asks.
pub const HEAD_BYTES: usize = 6;

// The numbers of a least-cost layout before its fragments: five penalties of two each.
const PENALTY_NUMBERS: usize = 10;

// The 16-bit numbers that what is asked can have.
const NUMBERS_MOST: usize = 32767;

// The positions before, between and after the most fragments.
const POSITIONS: usize = 4097;

// The bytes of a stored count.
const COUNT_BYTES: usize = 2;

// The head of a record: the byte of its kind, a line width, and how many bytes it asks and stores.
#[derive(Clone, Copy, PartialEq, Eq)]
pub struct Head {
    pub kind: u8,
    pub width: u8,
    pub asked: u16,
    pub stored: u16,
}

// That the file ends inside the head of a record.
#[derive(Clone, Copy, PartialEq, Eq)]
pub struct CutShort;

// The entries that list words or pieces.
#[derive(Clone, Copy, PartialEq, Eq)]
pub enum Listing {
    Words,
    Apart,
    Broken,
}

// The entries that lay fragments out.
#[derive(Clone, Copy, PartialEq, Eq)]
pub enum Layout {
    FirstFit,
    LeastCost,
}

// What a record asks: one of the entries, or that the program says that what follows is wrong on purpose.
#[derive(Clone, Copy, PartialEq, Eq)]
pub enum Kind {
    Measure,
    List(Listing),
    Lay(Layout),
    Fill,
    Turn,
}

// A byte that is of no kind that is known.
#[derive(Clone, Copy, PartialEq, Eq)]
pub struct UnknownKind(pub u8);

// How an answer compares with the stored one: the same; other lines at the same cost; or it differs. Or
// nothing was asked: what follows is wrong on purpose, or the kind is not known.
#[derive(Clone, Copy, PartialEq, Eq)]
pub enum Verdict {
    Agreed,
    Tied,
    Differs,
    Turn,
    Unknown,
}

// How many records were replayed, how many agreed, how many were ties, and the number of the first that
// differs.
#[derive(Clone, Copy, Default)]
pub struct Tally {
    pub replayed: u64,
    pub agreed: u64,
    pub tied: u64,
    pub first: Option<u64>,
}

// What the bytes that came of a record's head are: a head; nothing, where the file ends between two
// records; or that it is cut short.
#[tactic(auto, unfolding(crate::specs::Replay::head_of))]
pub fn head_of(head: &[u8]) -> Result<Option<Head>, CutShort>
    ensures { result ≡ head_of head.now }
{
    match head {
        [] => Ok(None),
        [kind, width, a, b, c, d, ..] => Ok(Some(Head {
            kind: *kind,
            width: *width,
            asked: u16::from_be_bytes([*a, *b]),
            stored: u16::from_be_bytes([*c, *d]),
        })),
        _ => Err(CutShort),
    }
}

// Whether the file ends inside a record, of whose bytes after the head so many came.
pub fn is_cut(asked: u16, stored: u16, came: usize) -> bool
    ensures { result ≡ cut asked stored came }
{
    came < usize::from(asked) + usize::from(stored)
}

impl TryFrom<u8> for Kind {
    type Error = UnknownKind;

    ghost try_from_gives = { λ byte outcome. outcome ≡ kind_of byte };

    // What a byte says that a record asks.
    #[tactic(auto, unfolding(crate::specs::Replay::kind_of))]
    fn try_from(byte: u8) -> Result<Kind, UnknownKind> {
        match byte {
            b'M' => Ok(Kind::Measure),
            b'W' => Ok(Kind::List(Listing::Words)),
            b'A' => Ok(Kind::List(Listing::Apart)),
            b'B' => Ok(Kind::List(Listing::Broken)),
            b'F' => Ok(Kind::Lay(Layout::FirstFit)),
            b'L' => Ok(Kind::Lay(Layout::LeastCost)),
            b'I' => Ok(Kind::Fill),
            b'!' => Ok(Kind::Turn),
            _ => Err(UnknownKind(byte)),
        }
    }
}

impl fmt::Display for Kind {
    ghost use Rattle.std.specs.Prelude.{Some};
    ghost use Rattle.replay.specs.Names.{name_of};

    ghost output = { λ kind. Some (name_of kind) };

    // The name of what is asked.
    fn fmt<W: fmt::Write>(&self, f: &mut fmt::Formatter<W>) -> fmt::Result {
        match self {
            Kind::Measure => f.write_str("measure"),
            Kind::List(Listing::Words) => f.write_str("words"),
            Kind::List(Listing::Apart) => f.write_str("break_apart"),
            Kind::List(Listing::Broken) => f.write_str("break_words"),
            Kind::Lay(Layout::FirstFit) => f.write_str("first fit"),
            Kind::Lay(Layout::LeastCost) => f.write_str("least cost"),
            Kind::Fill => f.write_str("fill"),
            Kind::Turn => f.write_str("nothing"),
        }
    }
}

impl From<bool> for Verdict {
    ghost from_gives = { λ agrees outcome. outcome ≡ agreed agrees };

    // What a comparison comes to that knows no ties.
    fn from(agrees: bool) -> Verdict {
        if agrees {
            Verdict::Agreed
        } else {
            Verdict::Differs
        }
    }
}

// Whether stored bytes are the numbers of a list, two bytes each.
#[tactic(auto, using(crate::proofs::Held::holding))]
fn holds<N: Number>(list: &[N], stored: &[u8]) -> bool
    ensures { result ≡ holds (map N.value list.now) stored.now }
{
    if stored.len() % 2 != 0 {
        return false;
    }
    if stored.len() / 2 != list.len() {
        return false;
    }
    for (i, n) in list.iter().enumerate() {
        if fragments::number_at(stored, i) != n.value() {
            return false;
        }
    }
    true
}

// Whether stored bytes are the first n numbers of four lists, one list after the other.
#[tactic(auto, unfolding(crate::specs::Parts::four))]
fn holds_four(n: usize, lists: &WordLists<'_, u32>, stored: &[u8]) -> bool
    requires { Room n lists.now.starts.now lists.now.ends.now lists.now.whites.now lists.now.widths.now }
    ensures { result ≡ four n (take n lists.now.starts.now) (take n lists.now.ends.now) (take n lists.now.whites.now) (take n lists.now.widths.now) stored.now }
{
    if stored.len() != 8 * n {
        return false;
    }
    holds(&lists.starts[..n], &stored[..2 * n])
        && holds(&lists.ends[..n], &stored[2 * n..4 * n])
        && holds(&lists.whites[..n], &stored[4 * n..6 * n])
        && holds(&lists.widths[..n], &stored[6 * n..])
}

// Whether a text has the stored columns.
#[tactic(auto, unfolding(crate::specs::Replay::measure_agrees))]
fn measure_agrees(text: &[u8], stored: &[u8]) -> bool
    ensures { result ≡ measure_agrees text.now stored.now }
{
    measure::display_width(text).is_ok_and(|columns| holds(&[columns.0], stored))
}

// Lists the words or the pieces of a text by one of the entries.
fn list_by(
    listing: Listing,
    width: u32,
    text: &[u8],
    lists: &mut WordLists<'_, u32>,
) -> Result<usize, TextRefusal>
    ensures value { result ≡ found listing width text.now (room length lists.old) }
    ensures starts_after { lists.new.starts.now ≡ Lists result (map start_of (listed listing width text.now)) lists.old.starts.now }
    ensures ends_after { lists.new.ends.now ≡ Lists result (map end_of (listed listing width text.now)) lists.old.ends.now }
    ensures whites_after { lists.new.whites.now ≡ Lists result (map white_of (listed listing width text.now)) lists.old.whites.now }
    ensures widths_after { lists.new.widths.now ≡ Lists result (map width_of_word (listed listing width text.now)) lists.old.widths.now }
{
    match listing {
        Listing::Words => words::find_words(text, lists),
        Listing::Apart => pieces::break_apart(text, width, lists),
        Listing::Broken => pieces::break_words(text, width, lists),
    }
}

// Whether an entry lists what is stored, in lists that are lent.
#[tactic(auto, using(crate::proofs::Lists::listing_laws))]
fn lists_agree(
    listing: Listing,
    width: u32,
    text: &[u8],
    stored: &[u8],
    lists: &mut WordLists<'_, u32>,
) -> bool
    ensures { result ≡ lists_agree listing width text.now (room length lists.old) stored.now }
{
    match list_by(listing, width, text, lists) {
        Ok(n) => holds_four(n, lists, stored),
        Err(_) => false,
    }
}

// The same in lists of its own, which take stack for these kinds alone: the function stays one of its own.
#[inline(never)]
fn listed_agrees(listing: Listing, width: u32, text: &[u8], stored: &[u8]) -> bool
    ensures { result ≡ lists_agree listing width text.now text_most stored.now }
{
    let mut lists = WordLists {
        starts: &mut [0; TEXT_MOST],
        ends: &mut [0; TEXT_MOST],
        whites: &mut [0; TEXT_MOST],
        widths: &mut [0; TEXT_MOST],
    };
    lists_agree(listing, width, text, stored, &mut lists)
}

// A number of two 16-bit numbers, high first.
fn long_of(numbers: &[u16], i: usize) -> u32
    requires { i + 1 < length numbers.now }
    ensures { result ≡ long_at numbers.now i }
{
    u32::from(numbers[i]) * 65536 + u32::from(numbers[i + 1])
}

// The penalties that stand before a layout.
#[tactic(auto, unfolding(crate::specs::Replay::penalties_of))]
fn penalties_of(numbers: &[u16]) -> Penalties
    requires { 10 ≤ length numbers.now }
    ensures { result ≡ penalties_of numbers.now }
{
    Penalties {
        line: long_of(numbers, 0),
        overflow: long_of(numbers, 2),
        fraction: long_of(numbers, 4),
        short: long_of(numbers, 6),
        hyphen: long_of(numbers, 8),
    }
}

// The numbers of a layout: the count n of its fragments, then so many words, whitespaces and penalty
// widths, which are all there, then the line widths.
#[derive(Clone, Copy)]
struct Parts<'a> {
    n: usize,
    numbers: &'a [u16],
    ghost inside: { 1 + 3 * n ≤ length numbers.now },
}

impl<'a> Parts<'a> {
    // The lists of the fragments.
    fn fragments(self) -> FragmentLists<'a, u16>
        ensures words { result.words.now ≡ words_in self.entry.n self.entry.numbers.now }
        ensures whites { result.whites.now ≡ whites_in self.entry.n self.entry.numbers.now }
        ensures penalties { result.penalties.now ≡ penalties_in self.entry.n self.entry.numbers.now }
    {
        let Parts { n, numbers } = self;
        FragmentLists {
            words: &numbers[1..1 + n],
            whites: &numbers[1 + n..1 + 2 * n],
            penalties: &numbers[1 + 2 * n..1 + 3 * n],
        }
    }

    // The line widths.
    fn widths(self) -> &'a [u16]
        ensures { result.now ≡ widths_in self.entry.n self.entry.numbers.now }
    {
        &self.numbers[1 + 3 * self.n..]
    }

    // Whether first fit lays the fragments out in the stored lines.
    #[tactic(auto, using(crate::proofs::Layouts::firsts))]
    fn first_agrees(self, ends: &mut [u16], stored: &[u8]) -> bool
        ensures { result ≡ first_of_parts self.entry.n self.entry.numbers.now (length ends.old) stored.now }
    {
        match first_fit::wrap_first_fit(&self.fragments(), self.widths(), ends) {
            Ok(lines) => holds(&ends[..lines], stored),
            Err(_) => false,
        }
    }

    // How the least-cost layout of the fragments compares with the stored one.
    fn least_verdict(
        self,
        penalties: Penalties,
        ends: &mut [u16],
        costs: &mut [u64],
        starts: &mut [u16],
        stored: &[u8],
    ) -> Verdict
        ensures { result ≡ least_of_parts self.entry.n self.entry.numbers.now penalties (length ends.old) (length costs.old) (length starts.old) stored.now }
    {
        let lists = self.fragments();
        let laid = least_cost::wrap_optimal_fit(
            &lists,
            self.widths(),
            penalties,
            ends,
            costs,
            starts,
        );
        match laid {
            Ok(lines) => weigh(costs[self.n], &ends[..lines], stored),
            Err(_) => Verdict::Differs,
        }
    }
}

// The parts of a layout, where its numbers are all there.
#[tactic(auto, unfolding(crate::specs::Replay::parts_of))]
fn parts_of(numbers: &[u16]) -> Option<Parts<'_>>
    ensures none { result ≡ None → parts_of numbers.now ≡ None }
    ensures some { IfSome result (λ p. (parts_of numbers.now ≡ Some p.n) × (p.numbers.now ≡ numbers.now)) }
{
    let n = usize::from(*numbers.first()?);
    if numbers.len() < 1 + 3 * n {
        return None;
    }
    Some(Parts { n, numbers })
}

// Whether first fit lays out what is asked in the stored lines.
#[tactic(auto, unfolding(crate::specs::Replay::first_agrees))]
fn first_agrees(numbers: &[u16], stored: &[u8]) -> bool
    ensures { result ≡ first_agrees numbers.now 4096 stored.now }
{
    let mut ends = [0; FRAGMENTS_MOST];
    parts_of(numbers).is_some_and(|parts| parts.first_agrees(&mut ends, stored))
}

// How the lines of a layout and their cost compare with those that are stored.
#[tactic(auto, using(crate::proofs::Layouts::weighing))]
fn weigh(cost: u64, ends: &[u16], stored: &[u8]) -> Verdict
    ensures { result ≡ weighed cost ends.now stored.now }
{
    let [a, b, c, d, stored_ends @ ..] = stored else {
        return Verdict::Differs;
    };
    if u64::from(u32::from_be_bytes([*a, *b, *c, *d])) != cost {
        return Verdict::Differs;
    }
    if holds(ends, stored_ends) {
        Verdict::Agreed
    } else {
        Verdict::Tied
    }
}

// How the least-cost layout of what is asked, the penalties before it, compares with the stored one.
#[tactic(auto, unfolding(crate::specs::Replay::least_asked, crate::specs::Replay::least_verdict))]
fn least_asked(numbers: &[u16], stored: &[u8]) -> Verdict
    ensures { result ≡ least_asked numbers.now 4096 4097 4097 stored.now }
{
    if numbers.len() < PENALTY_NUMBERS {
        return Verdict::Differs;
    }
    let penalties = penalties_of(numbers);
    let layout = &numbers[PENALTY_NUMBERS..];
    let mut ends = [0; FRAGMENTS_MOST];
    let mut costs = [0; POSITIONS];
    let mut starts = [0; POSITIONS];
    match parts_of(layout) {
        Some(parts) => {
            parts.least_verdict(penalties, &mut ends, &mut costs, &mut starts, stored)
        }
        None => Verdict::Differs,
    }
}

// How the layout that is asked compares with the stored one, the numbers being read.
#[tactic(auto, unfolding(crate::specs::Replay::numbers_verdict))]
fn numbers_verdict(layout: Layout, numbers: &[u16], stored: &[u8]) -> Verdict
    ensures { result ≡ numbers_verdict layout numbers.now 4096 4097 4097 stored.now }
{
    match layout {
        Layout::FirstFit => Verdict::from(first_agrees(numbers, stored)),
        Layout::LeastCost => least_asked(numbers, stored),
    }
}

// The same, from the bytes, with a list that is lent for the numbers.
#[tactic(auto, using(crate::proofs::Layouts::reading))]
fn asked_verdict(layout: Layout, asked: &[u8], numbers: &mut [u16], stored: &[u8]) -> Verdict
    ensures { result ≡ asked_verdict layout asked.now (length numbers.old) 4096 4097 4097 stored.now }
{
    let count = asked.len() / 2;
    if numbers.len() < count {
        return Verdict::Differs;
    }
    wire::copy_numbers(asked, count, numbers);
    numbers_verdict(layout, &numbers[..count], stored)
}

// The same, with a list of its own, which takes stack for these kinds alone.
#[inline(never)]
#[tactic(auto, unfolding(crate::specs::Replay::layout_verdict))]
fn layout_verdict(layout: Layout, asked: &[u8], stored: &[u8]) -> Verdict
    ensures { result ≡ layout_verdict layout asked.now stored.now }
{
    asked_verdict(layout, asked, &mut [0; NUMBERS_MOST], stored)
}

// Whether a text is filled as it is stored, with the stored count of changed bytes. The text is filled
// where it stands.
#[tactic(auto, unfolding(crate::specs::Replay::fill_agrees))]
fn fill_agrees(text: &mut [u8], width: u32, stored: &[u8]) -> bool
    ensures value { result ≡ fill_agrees width text.old stored.now }
    ensures text_after { text.new ≡ leaves (fill_of width text.old) width text.old }
{
    fill::fill_inplace(text, width).is_ok_and(|changed| is_filled(changed, text, stored))
}

// Whether a count and a text are stored.
#[tactic(auto, unfolding(crate::specs::Replay::filled_agrees))]
fn is_filled(n: usize, text: &[u8], stored: &[u8]) -> bool
    ensures { result ≡ filled_agrees n text.now stored.now }
{
    if stored.len() < COUNT_BYTES {
        return false;
    }
    holds(&[n], &stored[..COUNT_BYTES]) && text == &stored[COUNT_BYTES..]
}

// How the answer to what a record asks compares with the stored one. What is asked stays as it was, but a
// text that is filled is filled where it stands.
#[tactic(auto, unfolding(crate::specs::Replay::verdict_of, crate::specs::Replay::asked_after))]
pub fn judge(kind: u8, width: u8, asked: &mut [u8], stored: &[u8]) -> Verdict
    ensures value { result ≡ verdict_of (kind_of kind) width asked.old stored.now }
    ensures asked_after { asked.new ≡ asked_after (kind_of kind) width asked.old }
{
    let columns = u32::from(width);
    match Kind::try_from(kind) {
        Ok(Kind::Measure) => Verdict::from(measure_agrees(asked, stored)),
        Ok(Kind::List(listing)) => Verdict::from(listed_agrees(listing, columns, asked, stored)),
        Ok(Kind::Lay(layout)) => layout_verdict(layout, asked, stored),
        Ok(Kind::Fill) => Verdict::from(fill_agrees(asked, columns, stored)),
        Ok(Kind::Turn) => Verdict::Turn,
        Err(_) => Verdict::Unknown,
    }
}

// One more, as far as 64 bits go.
pub fn one_more(n: u64) -> u64
    ensures { result ≡ one_more n }
{
    n.saturating_add(1)
}

// A tally with one more record, of a number and a verdict.
#[tactic(auto, unfolding(crate::specs::Tally::counted_of))]
pub fn counted(t: Tally, verdict: Verdict, number: u64) -> Tally
    ensures { result ≡ counted_of t verdict number }
{
    let replayed = one_more(t.replayed);
    match verdict {
        Verdict::Agreed => Tally {
            replayed,
            agreed: one_more(t.agreed),
            ..t
        },
        Verdict::Tied => Tally {
            replayed,
            tied: one_more(t.tied),
            ..t
        },
        Verdict::Differs => Tally {
            replayed,
            first: first_of(t.first, number),
            ..t
        },
        Verdict::Turn | Verdict::Unknown => t,
    }
}

// The number of the first record that differs, where one of this number does; 0 is no record's number.
fn first_of(first: Option<u64>, number: u64) -> Option<u64>
    ensures { result ≡ first_of first number }
{
    first.or((number != 0).then_some(number))
}
