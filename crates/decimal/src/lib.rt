// Numbers as people write them: whether a row of bytes is one, and which. What a number counts is not
// known here; one that is larger than any bound of document 01 stands for all that are.
#![tactic(auto)]

ghost use Rattle.std.specs.Prelude.{◌≡◌, ◌≤◌, IfSome};
ghost use Rattle.decimal.specs.Decimal.{digit, worth, with_digit, decimal, is_number, parse};

// A larger number counts as this one.
pub const MOST: usize = 99999;

fn is_digit(b: u8) -> bool
    ensures { result ≡ digit b }
{
    b.is_ascii_digit()
}

// A number with one more digit.
fn with_digit(n: usize, d: usize) -> usize
    requires n_bound { n ≤ 99999 }
    requires d_bound { d ≤ 255 }
    ensures value { result ≡ with_digit n d }
    ensures upper_bound { result ≤ 99999 }
{
    MOST.min(n * 10 + d)
}

// What a digit counts.
fn value(b: u8) -> usize
    ensures value { result ≡ worth b }
    ensures upper_bound { result ≤ 255 }
{
    usize::from(b.saturating_sub(b'0'))
}

// The number of the digits at the start of a row of bytes.
#[tactic(auto, using(crate::proofs::Digits::reading))]
pub fn number_of(s: &[u8]) -> usize
    ensures value { result ≡ decimal 0 s.now }
    ensures upper_bound { result ≤ 99999 }
{
    let mut n = 0;
    for &b in s {
        if !is_digit(b) {
            break;
        }
        n = with_digit(n, value(b));
    }
    n
}

// Whether a row of bytes is a number: digits alone, and one at least.
pub fn is_number(s: &[u8]) -> bool
    ensures { result ≡ is_number s.now }
{
    if s.is_empty() {
        return false;
    }
    s.iter().all(|b| is_digit(*b))
}

// The number that a row of bytes is; none where it is no number.
pub fn parse(s: &[u8]) -> Option<usize>
    ensures value { result ≡ parse s.now }
    ensures upper_bound { IfSome result (λ n. n ≤ 99999) }
{
    if is_number(s) {
        Some(number_of(s))
    } else {
        None
    }
}
