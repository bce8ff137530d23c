// Characters of a text by RFC 3629: what stands at a place, and the first place at which nothing does.
// Nothing here knows of columns, escapes or words.
//
// `specs/Utf8.antt` has the rows of the RFC's grammar (section 4), and each test here is proved to be its
// row. They test without short circuits, so that each is a straight line of code.
// `first_fault` goes by windows of four bytes, which is faster (`specs/Windows.antt`), and reads
// characters only where a window is wrong or the text is short.
#![tactic(auto)]

ghost use Rattle.std.specs.Prelude.{◌≡◌, true, ◌+◌, ◌-◌, ◌≤◌, length, get_or};
ghost use Rattle.logic.specs.Choice.{within};
ghost use Rattle.logic.specs.Block.{any};
ghost use Rattle.chars.specs.Utf8.{tail, utf8_2, utf8_3, utf8_4, point_2, point_3, point_4, read_at, Whole, checked};
ghost use Rattle.chars.specs.Second.{second_least, second_most, Lead};
ghost use Rattle.chars.specs.Windows.{due, narrow, never, wrong, wrong_at, high_at, padded, Clear};

use units::Offset;

fn between(lo: u8, hi: u8, b: u8) -> bool
    ensures { result ≡ within lo hi b }
{
    (lo..=hi).contains(&b)
}

fn is_tail(b: u8) -> bool
    ensures { result ≡ tail b }
{
    between(0x80, 0xBF, b)
}

#[tactic(auto, unfolding(crate::specs::Utf8::utf8_2))]
fn is_two(a: u8, b: u8) -> bool
    ensures { result ≡ utf8_2 a b }
{
    between(0xC2, 0xDF, a) & is_tail(b)
}

// The least and the greatest second byte of a character of three or four bytes: narrower than a tail
// after E0 and F0, where a smaller one would be an overlong form, after ED, where a larger one would
// be a surrogate, and after F4, where it would be above 10FFFF.
#[tactic(auto, using(logic::proofs::Choice::picks), unfolding(crate::specs::Second::second_least))]
fn second_least(a: u8) -> u8
    ensures { result ≡ second_least a }
{
    if a == 0xE0 {
        0xA0
    } else if a == 0xF0 {
        0x90
    } else {
        0x80
    }
}

#[tactic(auto, using(logic::proofs::Choice::picks), unfolding(crate::specs::Second::second_most))]
fn second_most(a: u8) -> u8
    ensures { result ≡ second_most a }
{
    if a == 0xED {
        0x9F
    } else if a == 0xF4 {
        0x8F
    } else {
        0xBF
    }
}

#[tactic(auto, using(crate::proofs::Second::row_3))]
fn is_three(a: u8, b: u8, c: u8) -> bool
    ensures { result ≡ utf8_3 a b c }
{
    between(0xE0, 0xEF, a) & between(second_least(a), second_most(a), b) & is_tail(c)
}

#[tactic(auto, using(crate::proofs::Second::row_4))]
fn is_four(a: u8, b: u8, c: u8, d: u8) -> bool
    ensures { result ≡ utf8_4 a b c d }
{
    between(0xF0, 0xF4, a) & between(second_least(a), second_most(a), b) & is_tail(c) & is_tail(d)
}

// The code point of the bits that the RFC's table (section 3) marks x, of two, three and four bytes.
#[tactic(auto, unfolding(crate::specs::Utf8::point_2))]
fn point_2(a: u8, b: u8) -> u32
    ensures { result ≡ point_2 a b }
{
    (a as u32) % 32 * 64 + (b as u32) % 64
}

#[tactic(auto, unfolding(crate::specs::Utf8::point_3))]
fn point_3(a: u8, b: u8, c: u8) -> u32
    ensures { result ≡ point_3 a b c }
{
    (a as u32) % 16 * 4096 + (b as u32) % 64 * 64 + (c as u32) % 64
}

#[tactic(auto, unfolding(crate::specs::Utf8::point_4))]
fn point_4(a: u8, b: u8, c: u8, d: u8) -> u32
    ensures { result ≡ point_4 a b c d }
{
    (a as u32) % 8 * 262144 + (b as u32) % 64 * 4096 + (c as u32) % 64 * 64 + (d as u32) % 64
}

// The byte at i, and 0 past the end: 0 is no tail byte, so a character that is cut off is none.
fn byte_at(text: &[u8], i: usize) -> u8
    ensures { result ≡ get_or text.now i 0 }
{
    text.get(i).copied().unwrap_or(0)
}

// The character at a place whose first byte is that of two, of three or of four bytes, or the fault there.
#[tactic(auto, using(crate::proofs::Reading::reading))]
fn read_two(text: &[u8], at: Offset) -> Result<(u32, Offset), Offset>
    requires { Lead text.now at.0 0x80 0xDF }
    ensures { result ≡ read_at text.now at.0 }
{
    let i = at.0;
    let a = text[i];
    let b = byte_at(text, i + 1);
    if is_two(a, b) {
        return Ok((point_2(a, b), Offset(i + 2)));
    }
    Err(at)
}

#[tactic(auto, using(crate::proofs::Reading::reading))]
fn read_three(text: &[u8], at: Offset) -> Result<(u32, Offset), Offset>
    requires { Lead text.now at.0 0xE0 0xEF }
    ensures { result ≡ read_at text.now at.0 }
{
    let i = at.0;
    let a = text[i];
    let b = byte_at(text, i + 1);
    let c = byte_at(text, i + 2);
    if is_three(a, b, c) {
        return Ok((point_3(a, b, c), Offset(i + 3)));
    }
    Err(at)
}

#[tactic(auto, using(crate::proofs::Reading::reading))]
fn read_four(text: &[u8], at: Offset) -> Result<(u32, Offset), Offset>
    requires { Lead text.now at.0 0xF0 0xFF }
    ensures { result ≡ read_at text.now at.0 }
{
    let i = at.0;
    let a = text[i];
    let b = byte_at(text, i + 1);
    let c = byte_at(text, i + 2);
    let d = byte_at(text, i + 3);
    if is_four(a, b, c, d) {
        return Ok((point_4(a, b, c, d), Offset(i + 4)));
    }
    Err(at)
}

// The character of several bytes at a place, or the fault there. The first byte tells how many there are.
fn read_long(text: &[u8], at: Offset) -> Result<(u32, Offset), Offset>
    requires { Lead text.now at.0 0x80 0xFF }
    ensures { result ≡ read_at text.now at.0 }
{
    let i = at.0;
    let a = text[i];
    if a < 0xE0 {
        return read_two(text, at);
    }
    if a < 0xF0 {
        return read_three(text, at);
    }
    read_four(text, at)
}

// The character that starts at a place. A byte below 80 is one by itself.
#[tactic(auto, using(crate::proofs::Reading::reading))]
pub fn read_char(text: &[u8], at: Offset) -> Result<(u32, Offset), Offset>
    ensures { result ≡ read_at text.now at.0 }
{
    let i = at.0;
    if text.len() <= i {
        return Err(at);
    }
    let a = text[i];
    if a < 0x80 {
        return Ok((a as u32, Offset(i + 1)));
    }
    read_long(text, at)
}

// The first fault of a text, found by reading its characters.
#[tactic(auto, using(crate::proofs::Reading::passing))]
fn find_fault(text: &[u8]) -> Option<Offset>
    ensures { result ≡ checked text.now }
{
    let mut at = Offset(0);
    while at.0 < text.len() {
        let i = at.0;
        if text[i] < 0x80 {
            at = Offset(i + 1);
        } else {
            let Ok((_, next)) = read_long(text, at) else {
                return Some(at);
            };
            at = next;
        }
    }
    None
}

// What follows finds faster that there is no fault. It judges each byte by itself and the three before
// it, a window: the byte is a tail exactly where one is due, is no second byte that E0, ED, F0 or F4
// before it rules out, and is none of those that never occur.
#[tactic(auto, unfolding(crate::specs::Windows::due))]
fn is_due(p: u8, q: u8, r: u8) -> bool
    ensures { result ≡ due p q r }
{
    (0xC0 <= r) | (0xE0 <= q) | (0xF0 <= p)
}

#[tactic(auto, unfolding(crate::specs::Windows::narrow))]
fn is_narrow(r: u8, b: u8) -> bool
    ensures { result ≡ narrow r b }
{
    ((r == 0xE0) & (b < 0xA0))
        | ((r == 0xED) & (0x9F < b))
        | ((r == 0xF0) & (b < 0x90))
        | ((r == 0xF4) & (0x8F < b))
}

#[tactic(auto, unfolding(crate::specs::Windows::never))]
fn is_never(b: u8) -> bool
    ensures { result ≡ never b }
{
    between(0xC0, 0xC1, b) | (0xF5 <= b)
}

fn is_wrong(p: u8, q: u8, r: u8, b: u8) -> bool
    ensures { result ≡ wrong p q r b }
{
    (is_tail(b) ^ is_due(p, q, r)) | is_narrow(r, b) | is_never(b)
}

// Whether one of the 64 windows from a place on is wrong. This loop and the next have no way out before
// their end, so that they are compiled to steps of 16 bytes.
#[tactic(auto, unfolding(logic::specs::Block::any))]
fn wrong_windows(text: &[u8], from: usize) -> bool
    requires { from + 67 ≤ length text.now }
    ensures { result ≡ any (wrong_at text.now) from 64 }
{
    let mut odd = false;
    for k in 0..64 {
        let at = from + k;
        odd |= is_wrong(text[at], text[at + 1], text[at + 2], text[at + 3]);
    }
    odd
}

// Whether one of the 67 bytes of these windows is above 7F. If none is, no window is wrong.
#[tactic(auto, unfolding(logic::specs::Block::any))]
fn high_block(text: &[u8], from: usize) -> bool
    requires { from + 67 ≤ length text.now }
    ensures { result ≡ any (high_at text.now) from 67 }
{
    let mut high = false;
    for k in 0..67 {
        high |= 0x80 <= text[from + k];
    }
    high
}

// The same as `wrong_windows`, faster where all is below 80.
#[tactic(auto, using(crate::proofs::Windows::low_block))]
fn wrong_block(text: &[u8], from: usize) -> bool
    requires { from + 67 ≤ length text.now }
    ensures { result ≡ any (wrong_at text.now) from 64 }
{
    if high_block(text, from) {
        wrong_windows(text, from)
    } else {
        false
    }
}

// A place before which no window is wrong: `last` or later, unless a block before it is wrong.
#[tactic(auto, using(crate::proofs::Windows::clearing))]
fn clear_to(text: &[u8], last: usize) -> usize
    requires { last + 67 ≤ length text.now }
    ensures { Clear text.now result }
{
    for at in (0..last).step_by(64) {
        if wrong_block(text, at) {
            return at;
        }
    }
    last
}

// The windows of the first three bytes, 0 standing before the text.
#[tactic(auto, unfolding(logic::specs::Block::any))]
fn wrong_start(text: &[u8]) -> bool
    ensures { result ≡ any (wrong_at (padded text.now)) 0 3 }
{
    let a = byte_at(text, 0);
    let b = byte_at(text, 1);
    let c = byte_at(text, 2);
    is_wrong(0, 0, 0, a) | is_wrong(0, 0, a, b) | is_wrong(0, a, b, c)
}

// The window of the end: nothing is due there.
fn wrong_end(text: &[u8]) -> bool
    requires { 3 ≤ length text.now }
    ensures { result ≡ wrong_at text.now (length text.now - 3) }
{
    let i = text.len() - 3;
    is_wrong(text[i], text[i + 1], text[i + 2], 0)
}

// Whether no window of a text is wrong, so that it is UTF-8. The last block reaches to the end of the
// text, and may share windows with the one before it.
#[tactic(auto, using(crate::proofs::Windows::right_text))]
fn is_right(text: &[u8]) -> bool
    requires { 67 ≤ length text.now }
    ensures { result ≡ true → Whole text.now }
{
    let last = text.len() - 67;
    let odd = wrong_start(text) | wrong_block(text, last) | wrong_end(text);
    !odd & (last <= clear_to(text, last))
}

// Whether a text is UTF-8, or its first fault.
pub fn first_fault(text: &[u8]) -> Option<Offset>
    ensures { result ≡ checked text.now }
{
    if 67 <= text.len() {
        if is_right(text) {
            return None;
        }
    }
    find_fault(text)
}
