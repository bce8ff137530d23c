// Runs of bytes: where the run that starts at a place ends. A caller says by a closure which bytes a run has:
// spaces, the bytes of a line, those of one column.
#![tactic(auto)]

ghost use Rattle.std.specs.Prelude.{◌≡◌, ℕ, ◌+◌, Bool, drop};
ghost use Rattle.logic.specs.Count.{count};
ghost use Rattle.runs.specs.Tests.{AnswersAs};

// The end of the run of bytes, from a place on, that pass a test: that place itself where none stands there.
pub fn run_end<F: Fn(u8) -> bool>(text: &[u8], from: usize, passes: F) -> usize
    requires { F.IsAlwaysCallable passes }
    ensures { (test : ℕ → Bool) → AnswersAs F.Fn passes test → result ≡ from + count test (drop from text.now) }
{
    for at in from..text.len() {
        let on = passes(text[at]);
        if !on {
            return at;
        }
    }
    from.max(text.len())
}
