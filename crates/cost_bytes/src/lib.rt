// Least cost for callers that pass lists as bytes, high first: 16-bit numbers, and 64-bit costs. The
// numbers are read into lists of their own, laid out there, and the answer is stored as bytes. A byte left
// over at the end of a list is no number and is not touched.
#![tactic(auto)]

ghost use Rattle.std.specs.Prelude.{◌≡◌, ◌≤◌, length, take};
ghost use Rattle.wire.specs.Wire.{numbers16};
ghost use Rattle.cost_bytes.specs.Bytes.{LaidBytes, Begun};

use fragments::{FragmentLists, ListRefusal};
use least_cost::Penalties;
use wire::Cell;

// The most fragments, and so the most lines and the most line widths that can be met.
const MOST: usize = 4096;

// The positions before, between and after them.
const POSITIONS: usize = 4097;

// Lays numbers out, and stores the ends, the costs and the starts as bytes.
fn lay_numbers(
    lists: &FragmentLists<'_, u16>,
    widths: &[u16],
    p: Penalties,
    ends: &mut [u8],
    costs: &mut [u8],
    starts: &mut [u8],
) -> Result<usize, ListRefusal>
    requires { Begun lists.now.words.now lists.now.whites.now lists.now.penalties.now widths.now p ends.old costs.old starts.old }
    ensures { LaidBytes lists.now.words.now lists.now.whites.now lists.now.penalties.now widths.now p ends.old costs.old starts.old
        result ends.new costs.new starts.new }
{
    let n = lists.words.len();
    let mut e = [0u16; MOST];
    let mut c = [0u64; POSITIONS];
    let mut s = [0u16; POSITIONS];
    let laid = least_cost::wrap_optimal_fit(lists, widths, p, &mut e, &mut c, &mut s);
    wire::copy_numbers::<u16, u16, u8>(&e, laid.unwrap_or(0), ends);
    wire::copy_numbers::<u64, u64, u8>(&c, n + 1, costs);
    wire::copy_numbers::<u16, u16, u8>(&s, n + 1, starts);
    laid
}

// Reads the numbers, and lays them out.
#[tactic(auto, using(crate::proofs::Laying::begun_few, crate::proofs::Widths::begun_whites, crate::proofs::Widths::begun_penalties))]
fn lay_bytes(
    lists: &FragmentLists<'_, u8>,
    widths: &[u8],
    p: Penalties,
    ends: &mut [u8],
    costs: &mut [u8],
    starts: &mut [u8],
) -> Result<usize, ListRefusal>
    requires { Begun (numbers16 lists.now.words.now) (numbers16 lists.now.whites.now) (numbers16 lists.now.penalties.now) (numbers16 widths.now) p ends.old costs.old starts.old }
    ensures { LaidBytes (numbers16 lists.now.words.now) (numbers16 lists.now.whites.now) (numbers16 lists.now.penalties.now) (numbers16 widths.now) p
        ends.old costs.old starts.old result ends.new costs.new starts.new }
{
    let n = <u8 as Cell<u16>>::count(lists.words);
    let m = <u8 as Cell<u16>>::count(widths).min(MOST);
    let mut a = [0u16; MOST];
    let mut b = [0u16; MOST];
    let mut c = [0u16; MOST];
    let mut d = [0u16; MOST];
    wire::copy_numbers::<u16, u8, u16>(lists.words, n, &mut a);
    wire::copy_numbers::<u16, u8, u16>(lists.whites, n, &mut b);
    wire::copy_numbers::<u16, u8, u16>(lists.penalties, n, &mut c);
    wire::copy_numbers::<u16, u8, u16>(widths, m, &mut d);
    let numbers = FragmentLists {
        words: &a[..n],
        whites: &b[..n],
        penalties: &c[..n],
    };
    lay_numbers(&numbers, &d[..m], p, ends, costs, starts)
}

// Lays fragments out at the least cost: one end index per line, and the scratch; or refusal 5, 4, 3, 6, 7
// or 8.
pub fn wrap_optimal_fit(
    lists: &FragmentLists<'_, u8>,
    widths: &[u8],
    p: Penalties,
    ends: &mut [u8],
    costs: &mut [u8],
    starts: &mut [u8],
) -> Result<usize, ListRefusal>
    ensures { LaidBytes (numbers16 lists.now.words.now) (numbers16 lists.now.whites.now) (numbers16 lists.now.penalties.now) (numbers16 widths.now) p
        ends.old costs.old starts.old result ends.new costs.new starts.new }
{
    least_cost::admit(
        lists.test(widths),
        least_cost::first_big(p),
        <u8 as Cell<u16>>::count(lists.words),
        <u8 as Cell<u16>>::count(ends),
        <u8 as Cell<u64>>::count(costs),
        <u8 as Cell<u16>>::count(starts),
    )?;
    lay_bytes(lists, widths, p, ends, costs, starts)
}
