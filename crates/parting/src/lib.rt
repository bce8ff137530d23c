// Where a text and what is thought to have come of it part: the first byte that is neither the same in
// both nor a space that is a newline now. It serves a person who looks for words that are missing; whether
// a fill is right is for `judge` to say.
#![tactic(auto)]

ghost use Rattle.std.specs.Prelude.{◌≡◌};
ghost use Rattle.parting.specs.Parting.{goes_on, parts_at};

// Whether a byte may stand in the place of another: it is the same, or a newline in the place of a space.
#[tactic(auto, unfolding(crate::specs::Parting::goes_on))]
fn goes_on(before: u8, after: u8) -> bool
    ensures { result ≡ goes_on before after }
{
    if before == after {
        return true;
    }
    if words::is_space(before) {
        return lines::is_newline(after);
    }
    false
}

// The first place at which two texts part; where they do not, the length of the shorter.
pub fn parts_at(before: &[u8], after: &[u8]) -> usize
    ensures { result ≡ parts_at before.now after.now }
{
    before
        .iter()
        .zip(after)
        .take_while(|pair| goes_on(*pair.0, *pair.1))
        .count()
}
