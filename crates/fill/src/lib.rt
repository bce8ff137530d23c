// The fill: line breaks put into a text where it stands, by turning spaces into newlines. Follows
// `fill.rs`: `fill_inplace` has its name there. One pass over the words of each input line, no lists, and
// nothing copied. Which words there are and where first fit starts a line is said in `lines`.
#![tactic(auto)]

ghost use Rattle.std.specs.Prelude.{◌≡◌, ◌≤◌, length};
ghost use Rattle.units.specs.Limits.{text_most};
ghost use Rattle.chars.specs.Utf8.{Whole};
ghost use Rattle.lines.specs.Breaks.{breaks, text_breaks, broken, filled};
ghost use Rattle.fill.specs.Fill.{fill_of, leaves};

use limits::TextRefusal;
use lines::NEWLINE;
use units::{Offset, TEXT_MOST};

// Fills the body of one input line, and counts the bytes changed.
fn fill_line(line: &mut [u8], width: usize) -> usize
    requires { (length line.old ≤ text_most) × Whole line.old }
    ensures value { result ≡ length (breaks width line.old) }
    ensures line_after { line.new ≡ broken line.old (breaks width line.old) }
{
    let mut at = Offset(0);
    let mut columns = 0;
    let mut changed = 0;
    while at.0 < line.len() {
        let start = at;
        let met = lines::meet(line, start);
        let word = met.word;
        let both = met.both;
        at = met.next;
        if lines::starts_line(width, columns, start, word) {
            line[start.0 - 1] = NEWLINE;
            changed += 1;
            columns = both.0;
        } else {
            columns += both.0;
        }
    }
    changed
}

// Fills every input line of a text, and counts the bytes changed.
fn fill_lines(text: &mut [u8], width: usize) -> usize
    requires { (length text.old ≤ text_most) × Whole text.old }
    ensures value { result ≡ length (text_breaks width text.old) }
    ensures text_after { text.new ≡ filled width text.old }
{
    let mut from = 0;
    let mut changed = 0;
    while from <= text.len() {
        let end = lines::line_end(text, from);
        let body = lines::body_end(text, from, end);
        changed += fill_line(&mut text[from..body], width);
        from = end + 1;
    }
    changed
}

// Fills a text at a width and answers how many bytes that changed; or refusal 1, 2 or 3, the text as it
// was.
pub fn fill_inplace(text: &mut [u8], width: u32) -> Result<usize, TextRefusal>
    ensures value { result ≡ fill_of width text.old }
    ensures text_after { text.new ≡ leaves result width text.old }
{
    limits::admit(text, TEXT_MOST)?;
    let columns = limits::columns_of(width)?;
    Ok(fill_lines(text, columns.0))
}
