// Least-cost layouts of fragments, as `wrap_optimal_fit` of `optimal_fit.rs`: for each end the start whose
// price is least, the smallest of equals. The lines and what they cost are by the definitions of `specs/`;
// nothing here knows texts.
#![tactic(auto)]

ghost use Rattle.std.specs.Prelude.{◌≡◌, true, ◌+◌, ◌*◌, ◌^◌, ◌≤◌, ◌<◌, length, get_or, replicate};
ghost use Rattle.std.proofs.lemmas.List.Edits.{sets};
ghost use Rattle.fragments.specs.Lists.{found};
ghost use Rattle.cheapest.specs.Least.{Cheapest};
ghost use Rattle.cheapest.specs.Lines.{Falls, line_of};
ghost use Rattle.cheapest.specs.Table.{at};
ghost use Rattle.least_cost.specs.Price.{target, width_price, ending_price, line_price};
ghost use Rattle.least_cost.specs.Layout.{first_big, admission_of, lines_of, costs_of, starts_of, Laying};
ghost use Rattle.least_cost.specs.Search.{Small, Even, Short, Sized, Priceable, Weighable, Hopeless, Ready, Widest, Searchable, Fillable, Writable, Finished, start_price};

use fragments::{FragmentLists, ListRefusal};
use units::{COST_MOST, FragmentIndex, PENALTY_MOST};

// The positions before, between and after the most fragments.
const POSITIONS: usize = 4097;

// How many penalties there are.
const PENALTY_COUNT: usize = 5;

// The penalties in document 01's order: per line, overflow, short-last-line fraction, short last line,
// hyphen.
#[derive(Clone, Copy)]
pub struct Penalties {
    pub line: u32,
    pub overflow: u32,
    pub fraction: u32,
    pub short: u32,
    pub hyphen: u32,
}

// The start chosen for a position, and what the position then costs.
#[derive(Clone, Copy)]
pub struct Choice {
    pub start: FragmentIndex,
    pub cost: u64,
}

// Penalties within bounds.
#[derive(Clone, Copy)]
struct Prices {
    p: Penalties,
    ghost small: { Small p },
}

// What a search goes by: fragments in lists of one length, not too many, and the penalties.
#[derive(Clone, Copy)]
struct Search<'a> {
    lists: FragmentLists<'a, u16>,
    prices: Prices,
    ghost even: { Even lists.words.now lists.whites.now lists.penalties.now },
    ghost short: { Short lists.words.now lists.whites.now lists.penalties.now },
}

// What is known of the positions before one: the wanted width of the line that starts at each, none of them
// above `widest`, and what each costs.
#[derive(Clone, Copy)]
struct Known<'a> {
    targets: &'a [u16; POSITIONS],
    costs: &'a [u64],
    widest: u64,
}

// The width of a fragment's word and of what stands after it.
fn width_with(words: &[u16], after: &[u16], i: usize) -> u64
    requires { (i < length words.now) × (i < length after.now) }
    ensures { (result ≡ get_or words.now i 0 + get_or after.now i 0) × (result ≤ 131070) }
{
    u64::from(words[i]) + u64::from(after[i])
}

// The larger of 1 and the width of a line by its number.
#[tactic(auto, unfolding(crate::specs::Price::target))]
fn target_of(widths: &[u16], line: usize) -> u16
    ensures { result ≡ target widths.now line }
{
    fragments::width_of(widths, line).max(1) as u16
}

// The largest width that any line may want.
fn widest_of(widths: &[u16]) -> u64
    ensures { Widest widths.now result }
{
    let mut most = 1;
    for &width in widths {
        most = width.max(most);
    }
    u64::from(most)
}

impl Prices {
    // What the line of the fragments i up to j, of n, pays for being `len` wide where `target` is wanted.
    fn width_price(self, target: u64, len: u64, i: usize, j: usize, n: usize) -> u64
        requires { Sized target len i }
        ensures { (result ≡ width_price self.p target len i j n) × (result ≤ 1000000 * 2 ^ 30) }
    {
        if target < len {
            return u64::from(self.p.overflow) * (len - target);
        }
        if j != n {
            return (target - len) * (target - len);
        }
        if j != i + 1 {
            return 0;
        }
        if len * u64::from(self.p.fraction) < target {
            u64::from(self.p.short)
        } else {
            0
        }
    }

    // What a line pays for ending at a fragment of this penalty width.
    #[tactic(auto, using(logic::proofs::Choice::picks), unfolding(crate::specs::Price::ending_price))]
    fn ending_price(self, penalty: u16) -> u64
        ensures { result ≡ ending_price self.p penalty }
    {
        if 0 < penalty {
            u64::from(self.p.hyphen)
        } else {
            0
        }
    }

    // The price of a line.
    fn line_price(self, target: u64, len: u64, penalty: u16, i: usize, j: usize, n: usize) -> u64
        requires { Sized target len i }
        ensures { (result ≡ line_price self.p target len penalty i j n) × (result ≤ 2 ^ 50) }
    {
        u64::from(self.p.line) + self.width_price(target, len, i, j, n) + self.ending_price(penalty)
    }

    // Whether no start before i can be as good as the best so far. `len` is the width of the line from i,
    // `cost` what i costs, `penalty` the penalty width of the fragment before i, and no line wants more than
    // `widest`. A start before i costs at least what i does, less the line that leads to i, and its line
    // overflows by more.
    fn hopeless(self, widest: u64, len: u64, penalty: u16, cost: u64, best: u64) -> bool
        requires { Weighable widest len cost best }
        ensures { result ≡ true → Hopeless self.p widest len penalty cost best }
    {
        let bar = widest.max(u64::from(penalty));
        if len <= bar {
            return false;
        }
        let over = u64::from(self.p.overflow) * (len - bar);
        best + widest * widest + self.ending_price(penalty) < cost + over
    }

    // What position j, of n, costs if its last line starts at i and is `len` wide.
    fn start_price(
        self,
        known: &Known<'_>,
        len: u64,
        penalty: u16,
        i: usize,
        j: usize,
        n: usize,
    ) -> u64
        requires { Priceable known.now.targets.now known.now.costs.now len i }
        ensures { (result ≡ at known.now.costs.now i + line_price self.p (at known.now.targets.now i) len penalty i j n) × (result ≤ 2 ^ 51) }
    {
        known.costs[i] + self.line_price(u64::from(known.targets[i]), len, penalty, i, j, n)
    }
}

impl<'a> Search<'a> {
    // The search of lists and penalties that the tests have let through. The lists come one by one, since of a
    // parameter that is a slice it is known that its numbers have 16 bits.
    fn new(words: &'a [u16], whites: &'a [u16], penalties: &'a [u16], p: Penalties) -> Search<'a>
        requires { Even words.now whites.now penalties.now × Small p }
        ensures { (result.lists.words.now ≡ words.now) × (result.lists.whites.now ≡ whites.now)
            × (result.lists.penalties.now ≡ penalties.now) × (result.prices.p ≡ p) }
    {
        let lists = FragmentLists {
            words,
            whites,
            penalties,
        };
        Search {
            lists,
            prices: Prices { p },
        }
    }

    // The start of the cheapest last line before position j, the smallest of equals, and what j costs with
    // it. The starts are tried downwards, until none that is left can win or tie.
    fn best_start(&self, known: &Known<'_>, j: usize) -> Choice
        requires { Ready self.now.lists.words.now self.now.lists.whites.now self.now.lists.penalties.now self.now.prices.p
            known.now.targets.now known.now.widest known.now.costs.now j }
        ensures { Cheapest (start_price self.now.lists.words.now self.now.lists.whites.now self.now.lists.penalties.now self.now.prices.p
            known.now.targets.now known.now.costs.now j) j result.start.0 result.cost }
    {
        let FragmentLists {
            words,
            whites,
            penalties,
        } = self.lists;
        let prices = self.prices;
        let n = words.len();
        let last = j - 1;
        let penalty = penalties[last];
        let mut len = width_with(words, penalties, last);
        let mut best = Choice {
            start: FragmentIndex(last),
            cost: prices.start_price(known, len, penalty, last, j, n),
        };
        for i in (0..last).rev() {
            let tail = penalties[i];
            if prices.hopeless(known.widest, len, tail, known.costs[i + 1], best.cost) {
                return best;
            }
            len += width_with(words, whites, i);
            let price = prices.start_price(known, len, penalty, i, j, n);
            if price <= best.cost {
                best = Choice {
                    start: FragmentIndex(i),
                    cost: price,
                };
            }
        }
        best
    }

    // Fills the table, position by position. `targets` holds the wanted width of the line that starts at
    // each position: all alike where there is at most one line width, and else by the position's line number,
    // which is computed once, when its start is chosen. `chosen` holds the starts for that.
    fn fill_table(
        &self,
        widths: &[u16],
        targets: &mut [u16; POSITIONS],
        chosen: &mut [u16; POSITIONS],
        costs: &mut [u64],
        starts: &mut [u16],
    )
        requires { Fillable self.now.lists.words.now widths.now targets.old chosen.old costs.old starts.old }
        ensures { (costs.new ≡ sets costs.old 0 (costs_of self.now.lists.words.now self.now.lists.whites.now self.now.lists.penalties.now widths.now self.now.prices.p))
            × (starts.new ≡ sets starts.old 0 (starts_of self.now.lists.words.now self.now.lists.whites.now self.now.lists.penalties.now widths.now self.now.prices.p)) }
    {
        let n = self.lists.words.len();
        let widest = widest_of(widths);
        costs[0] = 0;
        starts[0] = 0;
        for last in 0..n {
            let j = last + 1;
            let known = Known {
                targets,
                costs,
                widest,
            };
            let best = self.best_start(&known, j);
            let start = best.start.0 as u16;
            costs[j] = best.cost;
            starts[j] = start;
            chosen[j] = start;
            if 1 < widths.len() {
                let line = line_number(chosen, FragmentIndex(j));
                targets[j] = target_of(widths, line);
            }
        }
    }

    // Fills the table, with room of its own for targets and chosen starts.
    fn fill(&self, widths: &[u16], costs: &mut [u64], starts: &mut [u16])
        requires { Searchable self.now.lists.words.now costs.old starts.old }
        ensures { (costs.new ≡ sets costs.old 0 (costs_of self.now.lists.words.now self.now.lists.whites.now self.now.lists.penalties.now widths.now self.now.prices.p))
            × (starts.new ≡ sets starts.old 0 (starts_of self.now.lists.words.now self.now.lists.whites.now self.now.lists.penalties.now widths.now self.now.prices.p)) }
    {
        let first = target_of(widths, 0);
        let mut targets = [first; POSITIONS];
        let mut chosen = [0u16; POSITIONS];
        self.fill_table(widths, &mut targets, &mut chosen, costs, starts);
    }
}

// The line number of a position: 0 at 0, else one more than that of its chosen start.
fn line_number(starts: &[u16; POSITIONS], position: FragmentIndex) -> usize
    requires { (position.0 < 4097) × Falls (at starts.now) position.0 }
    ensures { result ≡ line_of (at starts.now) position.0 }
{
    let j = position.0;
    if j == 0 {
        0
    } else {
        let start = usize::from(starts[j]);
        line_number(starts, FragmentIndex(start)) + 1
    }
}

// How many lines end at or before a position: from each end on to the start that was chosen for it.
fn count_lines(starts: &[u16], n: usize) -> usize
    requires { (n < length starts.now) × Falls (at starts.now) n }
    ensures { result ≡ line_of (at starts.now) n }
{
    let mut lines = 0;
    let mut end = n;
    while 0 < end {
        lines += 1;
        end = usize::from(starts[end]);
    }
    lines
}

// Writes the ends of the lines of n fragments, from the last to the first, and answers how many there
// are; no fragments have one line, with end 0.
fn write_ends(starts: &[u16], n: usize, ends: &mut [u16]) -> usize
    requires { Writable starts.now n ends.old }
    ensures { (result ≡ length (lines_of (at starts.now) n)) × (ends.new ≡ sets ends.old 0 (lines_of (at starts.now) n)) }
{
    if n == 0 {
        fragments::put_end(ends, 0, FragmentIndex(0));
        return 1;
    }
    let lines = count_lines(starts, n);
    let mut end = n;
    for line in (0..lines).rev() {
        fragments::put_end(ends, line, FragmentIndex(end));
        end = usize::from(starts[end]);
    }
    lines
}

// Sets the scratch of n fragments to zero.
fn clear(costs: &mut [u64], starts: &mut [u16], n: usize)
    requires { (n < length costs.old) × (n < length starts.old) }
    ensures { (costs.new ≡ sets costs.old 0 (replicate (n + 1) 0)) × (starts.new ≡ sets starts.old 0 (replicate (n + 1) 0)) }
{
    costs[..=n].fill(0);
    starts[..=n].fill(0);
}

// The index of the first penalty above 1,000,000, if there is one.
#[tactic(auto, using(fragments::proofs::Laws::looking), unfolding(crate::specs::Layout::first_big))]
pub fn first_big(p: Penalties) -> Option<usize>
    ensures { result ≡ found (first_big p) 5 }
{
    let five = [p.line, p.overflow, p.fraction, p.short, p.hyphen];
    for i in 0..PENALTY_COUNT {
        if PENALTY_MOST < five[i] {
            return Some(i);
        }
    }
    None
}

// Whether the search is begun: by what the lists were found to be, the index of the first big penalty, the
// number of fragments, and the places of ends, costs and starts.
#[tactic(auto, using(crate::proofs::Admitting::admitting))]
pub fn admit(
    tested: Result<(), ListRefusal>,
    big: Option<usize>,
    n: usize,
    ends: usize,
    costs: usize,
    starts: usize,
) -> Result<(), ListRefusal>
    requires { n < 2 ^ 63 }
    ensures { result ≡ admission_of tested big n ends costs starts }
{
    tested?;
    if let Some(i) = big {
        return Err(ListRefusal::BigPenalty(i));
    }
    let needed = fragments::places_needed(n);
    if ends < needed {
        return Err(ListRefusal::NoRoom(needed));
    }
    let places = n + 1;
    if costs < places {
        return Err(ListRefusal::NoRoom(places));
    }
    if starts < places {
        return Err(ListRefusal::NoRoom(places));
    }
    Ok(())
}

// The last step, after the search: a cost above 2^53 is refused and the scratch set to zero; else the
// ends are written.
fn finish(
    n: usize,
    ends: &mut [u16],
    costs: &mut [u64],
    starts: &mut [u16],
) -> Result<usize, ListRefusal>
    requires { Writable starts.old n ends.old × (n < length costs.old) }
    ensures { Finished n ends.old costs.old starts.old result ends.new costs.new starts.new }
{
    if COST_MOST < costs[n] {
        clear(costs, starts, n);
        return Err(ListRefusal::TooDear);
    }
    Ok(write_ends(starts, n, ends))
}

// Lays the fragments out in lines at the least cost, and answers how many lines there are, or why none
// were laid out. `ends` holds the end of each line; `costs` and `starts` are scratch and hold the best cost
// and the chosen start of each position.
pub fn wrap_optimal_fit(
    lists: &FragmentLists<'_, u16>,
    widths: &[u16],
    p: Penalties,
    ends: &mut [u16],
    costs: &mut [u64],
    starts: &mut [u16],
) -> Result<usize, ListRefusal>
    ensures { Laying lists.now.words.now lists.now.whites.now lists.now.penalties.now widths.now p ends.old costs.old starts.old
        result ends.new costs.new starts.new }
{
    let tested = lists.test(widths);
    let big = first_big(p);
    let n = lists.words.len();
    admit(tested, big, n, ends.len(), costs.len(), starts.len())?;
    let search = Search::new(lists.words, lists.whites, lists.penalties, p);
    search.fill(widths, costs, starts);
    finish(n, ends, costs, starts)
}
