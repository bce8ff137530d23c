// First fit over lent lists: each fragment joins the line before it if it fits there. Follows
// `wrap_first_fit` of `wrap_algorithms.rs`. The theory of groupings stands in `specs/` and `proofs/`: no
// grouping has fewer lines than first fit.
#![tactic(auto)]

ghost use Rattle.std.specs.Prelude.{◌≡◌, ◌+◌, ◌≤◌, ◌<◌, ltb, length};
ghost use Rattle.std.proofs.lemmas.List.Edits.{sets};
ghost use Rattle.fragments.specs.Fragments.{fragments};
ghost use Rattle.first_fit.specs.FirstFit.{line_ends};
ghost use Rattle.first_fit.specs.Entry.{Lists, first_fit_of, Lays};

use fragments::{FragmentLists, ListRefusal};
use units::FragmentIndex;
use wire::Cell;

// Whether a fragment starts a new line, the current one having some already.
pub fn starts_line(width: usize, columns: usize, word: usize, penalty: usize) -> bool
    requires { (columns ≤ 1000000000) × (word ≤ 1000000) × (penalty ≤ 1000000) }
    ensures { result ≡ ltb width (columns + word + penalty) }
{
    width < columns + word + penalty
}

// Stores the ends of the lines of one or more fragments, and answers how many lines there are.
fn lay<C: Cell<u16>>(lists: &FragmentLists<C>, widths: &[C], ends: &mut [C]) -> usize
    requires { Lists (C.numbers lists.now.words.now) (C.numbers lists.now.whites.now) (C.numbers lists.now.penalties.now) (C.places ends.old)
        × (0 < length (C.numbers lists.now.words.now)) }
    ensures value { result ≡ length (line_ends (C.numbers widths.now)
        (fragments (C.numbers lists.now.words.now) (C.numbers lists.now.whites.now) (C.numbers lists.now.penalties.now))) }
    ensures ends_after { ends.new ≡ sets ends.old 0 (C.stored (line_ends (C.numbers widths.now)
        (fragments (C.numbers lists.now.words.now) (C.numbers lists.now.whites.now) (C.numbers lists.now.penalties.now)))) }
{
    let FragmentLists {
        words,
        whites,
        penalties,
    } = *lists;
    let n = C::count(words);
    let mut columns = fragments::number_at(words, 0) + fragments::number_at(whites, 0);
    let mut width = fragments::width_of(widths, 0);
    let mut line = 0;
    for i in 1..n {
        let word = fragments::number_at(words, i);
        let both = word + fragments::number_at(whites, i);
        if starts_line(width, columns, word, fragments::number_at(penalties, i)) {
            fragments::put_end(ends, line, FragmentIndex(i));
            line += 1;
            width = fragments::width_of(widths, line);
            columns = both;
        } else {
            columns += both;
        }
    }
    fragments::put_end(ends, line, FragmentIndex(n));
    line + 1
}

// Lays fragments out by first fit, one end index per line, and answers how many lines there are; or refusal
// 5, 4, 3 or 7.
#[tactic(auto, using(crate::proofs::Entering::entering))]
pub fn wrap_first_fit<C: Cell<u16>>(
    lists: &FragmentLists<C>,
    widths: &[C],
    ends: &mut [C],
) -> Result<usize, ListRefusal>
    ensures value { result ≡ first_fit_of (C.numbers lists.now.words.now) (C.numbers lists.now.whites.now) (C.numbers lists.now.penalties.now)
        (C.numbers widths.now) (C.places ends.old) }
    ensures ends_after { ends.new ≡ Lays result (C.stored (line_ends (C.numbers widths.now)
        (fragments (C.numbers lists.now.words.now) (C.numbers lists.now.whites.now) (C.numbers lists.now.penalties.now)))) ends.old }
{
    lists.test(widths)?;
    let n = C::count(lists.words);
    let needed = fragments::places_needed(n);
    if C::count(ends) < needed {
        return Err(ListRefusal::NoRoom(needed));
    }
    if n == 0 {
        fragments::put_end(ends, 0, FragmentIndex(0));
        return Ok(1);
    }
    Ok(lay(lists, widths, ends))
}
