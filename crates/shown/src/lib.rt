// The slip as a printer of some width prints it, line by line: a ruler of columns, a row
// for each line with what the printer drops set apart, and a line that counts them. Control characters
// are shown and not obeyed. Where a line is cut stands in `cuts`; nothing here writes to a file.
//
// An escape takes no column on the printer. Shown in its place it takes some, so the rest of that row
// stands further to the right than on the paper.
#![tactic(auto)]

ghost use Rattle.std.specs.Prelude.{◌≡◌, ℕ, ◌+◌, ◌-◌, ◌*◌, ◌%◌, ◌<◌, ◌≤◌, length, get_or, drop};
ghost use Rattle.units.specs.Limits.{text_most, width_most};
ghost use Rattle.chars.specs.Utf8.{Whole};
ghost use Rattle.lines.specs.Lines.{next_line, line_at, body_of};
ghost use Rattle.saying.specs.Saying.{HasRoom, Said, digit_of};
ghost use Rattle.cuts.specs.Cuts.{dropped_at};
ghost use Rattle.shown.specs.Shown.{is_c1, picture, shown_one, size_one, shown};
ghost use Rattle.shown.specs.Slip.{row_most, Keeps, Sits, kept_part, dropped_part, row_by, row_of, wide_of, top_mark, Marks, marks_from, ruler_of, Small, counted_of, first_of, first_wide, summary_of};

use cuts::{Cut, Kept};
use saying::Line;
use units::Offset;

// The most bytes of a row: three for each byte of a text, the columns of the paper, its edge, the word
// for what is dropped, and the newline.
pub const ROW_MOST: usize = 180267;

const SPACE: u8 = b' ';

const DELETE: u8 = 0x7F;

// What stands over the last column.
const LAST: u8 = b'v';

// The control characters of C1 are two bytes: this one, and one between these bounds.
const C1_FIRST: u8 = 0xC2;

const C1_LEAST: u8 = 0x80;

const C1_MOST: u8 = 0x9F;

// The picture of a control character is three bytes. The first two are the same for all; the third is
// this one and on for those below 20, and one each for 7F and for all of C1.
const PICTURE_FIRST: u8 = 0xE2;

const PICTURE_SECOND: u8 = 0x90;

const PICTURE: u8 = 0x80;

const DELETE_PICTURE: u8 = 0xA1;

const C1_PICTURE: u8 = 0xA6;

// A row of a slip: where the next line starts, which is no place in the text after the last line, and whether
// the line is too wide.
#[derive(Clone, Copy)]
pub struct Printed {
    pub next: usize,
    pub wide: bool,
}

// The lines so far: how many, how many of them too wide, and the number of the first of these, from 1.
#[derive(Clone, Copy)]
pub struct Tally {
    pub lines: u64,
    pub wide: u64,
    pub first: u64,
}

// Before the first line.
pub const NO_LINES: Tally = Tally {
    lines: 0,
    wide: 0,
    first: 0,
};

// Whether two bytes are a control character of C1.
fn is_c1(b: u8, next: u8) -> bool
    ensures { result ≡ is_c1 b next }
{
    b == C1_FIRST && (C1_LEAST..=C1_MOST).contains(&next)
}

// Adds the picture of a control character.
fn say_picture(out: &mut Line<'_>, last: u8)
    requires { HasRoom out.old 3 }
    ensures { Said out.old (picture last) out.new }
{
    out.say(&[PICTURE_FIRST, PICTURE_SECOND, last]);
}

// Adds what the character is shown by of which this byte is the first, the next byte being `next`; or
// the byte itself.
fn say_one(out: &mut Line<'_>, b: u8, next: u8)
    requires { HasRoom out.old 3 }
    ensures { Said out.old (shown_one b next) out.new }
{
    if b < SPACE {
        say_picture(out, PICTURE + b);
    } else if b == DELETE {
        say_picture(out, DELETE_PICTURE);
    } else if is_c1(b, next) {
        say_picture(out, C1_PICTURE);
    } else {
        out.say_byte(b);
    }
}

// How many bytes are shown so.
fn size_one(b: u8, next: u8) -> usize
    ensures { result ≡ size_one b next }
{
    if is_c1(b, next) { 2 } else { 1 }
}

// Adds what the first character of some bytes is shown by, and answers how many of them that stands for. 0
// stands for the byte after the last.
fn say_next(out: &mut Line<'_>, bytes: &[u8]) -> usize
    requires { (0 < length bytes.now) × HasRoom out.old 3 }
    ensures said { Said out.old (shown_one (get_or bytes.now 0 0) (get_or bytes.now 1 0)) out.new }
    ensures value { result ≡ size_one (get_or bytes.now 0 0) (get_or bytes.now 1 0) }
{
    let b = bytes[0];
    let next = bytes.get(1).copied().unwrap_or(0);
    say_one(out, b, next);
    size_one(b, next)
}

// Adds bytes, control characters by their pictures.
pub fn say_shown(out: &mut Line<'_>, bytes: &[u8])
    requires { HasRoom out.old (3 * length bytes.now) }
    ensures { Said out.old (shown bytes.now) out.new }
{
    let mut rest = bytes;
    while 0 < rest.len() {
        let size = say_next(out, rest);
        rest = &rest[size..];
    }
}

// Adds what of a line the printer drops, if it drops anything, with ten bytes before it that say so.
fn say_dropped(out: &mut Line<'_>, line: &[u8], dropped: Option<Offset>)
    requires { (dropped_at line.now dropped ≤ length line.now) × HasRoom out.old (10 + 3 * (length line.now - dropped_at line.now dropped)) }
    ensures { Said out.old (dropped_part line.now dropped) out.new }
{
    if let Some(place) = dropped {
        out.say(b" dropped: ");
        say_shown(out, &line[place.0..]);
    }
}

// Adds the kept part of a line, spaces up to the last column, and the edge of the paper.
#[tactic(auto, using(crate::proofs::Rows::keeping))]
fn say_kept(out: &mut Line<'_>, line: &[u8], kept: Kept, width: usize)
    requires { Keeps width line.now kept × HasRoom out.old row_most }
    ensures { Said out.old (kept_part width line.now kept) out.new }
{
    say_shown(out, &line[..kept.end.0]);
    out.say_times(SPACE, width - kept.columns.0);
    out.say(b"|");
}

// Adds the row of a line that is cut.
fn say_row(out: &mut Line<'_>, line: &[u8], cut: Cut, width: usize)
    requires { Sits width line.now cut × HasRoom out.old row_most }
    ensures { Said out.old (row_by width line.now cut) out.new }
{
    say_kept(out, line, cut.kept, width);
    say_dropped(out, line, cut.dropped);
    out.say(b"\n");
}

// Adds the row of a line, and answers whether the line is too wide.
fn say_line(out: &mut Line<'_>, line: &[u8], width: usize) -> bool
    requires { HasRoom out.old row_most × (width ≤ width_most) × (length line.now ≤ text_most) × Whole line.now }
    ensures said { Said out.old (row_of width line.now) out.new }
    ensures wide_value { result ≡ wide_of width line.now }
{
    let cut = cuts::cut_of(line, width);
    say_row(out, line, cut, width);
    cut.dropped.is_some()
}

// Adds the row of the line that starts at a place of a text: its kept part, spaces up to the last column, the
// edge of the paper, and what is dropped.
pub fn row(out: &mut Line<'_>, text: &[u8], from: usize, width: usize) -> Printed
    requires { HasRoom out.old row_most × (width ≤ width_most) × (length text.now ≤ text_most) × (from ≤ length text.now) × Whole (drop from text.now) }
    ensures said { Said out.old (row_of width (body_of text.now (line_at text.now from))) out.new }
    ensures next_value { (result.next ≡ next_line text.now from) × (result.wide ≡ wide_of width (body_of text.now (line_at text.now from))) }
{
    let end = lines::line_end(text, from);
    let body = lines::body_end(text, from, end);
    let wide = say_line(out, &text[from..body], width);
    let next = end + 1;
    Printed { next, wide }
}

// The last digit of a number.
fn digit(n: usize) -> u8
    ensures { result ≡ digit_of (n % 10) }
{
    b'0' + (n % 10) as u8
}

// What the ruler's first row has over a column: `v` over the last one, the tens at each tenth.
#[tactic(auto, using(crate::proofs::Ruling::columns))]
fn top_mark(width: usize, column: usize) -> u8
    ensures { result ≡ top_mark width column }
{
    if column == width {
        LAST
    } else if column % 10 == 0 {
        digit(column / 10)
    } else {
        SPACE
    }
}

// Adds the marks of all columns, each as it is given for its column, from 1 on.
fn say_marks<F: Fn(usize) -> u8>(out: &mut Line<'_>, width: usize, mark: F)
    requires { HasRoom out.old width × F.IsAlwaysCallable mark }
    ensures said { (f : ℕ → ℕ) → Marks (F.post mark) width f → Said out.old (marks_from f 0 width) out.new }
    ensures count { out.new.len ≡ out.old.len + width }
    ensures long { length out.new.room.now ≡ length out.old.room.now }
{
    for passed in 0..width {
        out.say_byte(mark(passed + 1));
    }
}

// Adds the ruler: a row with the tens and a mark over the last column, and a row with the last digit of each
// column and the edge of the paper.
pub fn ruler(out: &mut Line<'_>, width: usize)
    requires { HasRoom out.old row_most × (width ≤ width_most) }
    ensures { Said out.old (ruler_of width) out.new }
{
    say_marks(out, width, |column| top_mark(width, column));
    out.say(b"\n");
    say_marks(out, width, digit);
    out.say(b"|\n");
}

// The number of the first line that is too wide, where one more is, so many lines having come.
fn first_of(tally: Tally, lines: u64) -> u64
    ensures { result ≡ first_of tally lines }
{
    if tally.wide == 0 { lines } else { tally.first }
}

// The tally with one more line.
#[tactic(auto, using(crate::proofs::Tallies::tallies))]
pub fn counted(tally: Tally, wide: bool) -> Tally
    requires { Small tally }
    ensures { result ≡ counted_of tally wide }
{
    let lines = tally.lines + 1;
    if !wide {
        return Tally { lines, ..tally };
    }
    Tally {
        lines,
        wide: tally.wide + 1,
        first: first_of(tally, lines),
    }
}

// Adds which line is the first that is too wide, if one is: 23 bytes that say so, and a number.
fn say_first(out: &mut Line<'_>, tally: Tally)
    requires { HasRoom out.old 43 }
    ensures said { Said out.old (first_wide tally) out.new }
    ensures upper_bound { out.new.len ≤ out.old.len + 43 }
{
    if tally.wide != 0 {
        out.say_named(b", first too wide: line ", tally.first);
    }
}

// Adds the line that counts the rows.
pub fn summary(out: &mut Line<'_>, tally: Tally)
    requires { HasRoom out.old row_most }
    ensures { Said out.old (summary_of tally) out.new }
{
    out.say_named(b"lines: ", tally.lines);
    out.say_named(b", too wide: ", tally.wide);
    say_first(out, tally);
    out.say(b"\n");
}
