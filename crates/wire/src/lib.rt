// Lists of numbers: as they are, and as bytes, high first, for callers that pass byte slices. One trait speaks
// of both, so that what reads or writes such a list is written once.
#![tactic(auto)]

ghost use Rattle.std.specs.Prelude.{◌≡◌, ℕ, ◌+◌, ◌*◌, ◌/◌, ◌≤◌, ◌<◌, List, [], ◌∷◌, length, get_or, take};
ghost use Rattle.std.proofs.lemmas.List.Edits.{sets};
ghost use Rattle.logic.specs.Flat.{flat};
ghost use Rattle.wire.specs.Wire.{be16, be32, be64, numbers16, numbers32, numbers64, places16, places32, places64};
ghost use Rattle.wire.specs.Cells.{CellLaws};
ghost use Rattle.wire.specs.Numbers.{plain_laws};
ghost use Rattle.wire.specs.Bytes.{laws16, laws32, laws64};

// What a list of numbers N is made of: the numbers themselves, or bytes. `numbers` are those that a list
// holds, `places` says how many it has room for, `at` where the k-th one lies, and `stored` are the elements
// that numbers take, `SIZE` each.
pub trait Cell<N> {
    ghost numbers: { List Self → List N };

    ghost places: { List Self → ℕ };

    ghost at: { ℕ → ℕ };

    ghost stored: { List N → List Self };

    ghost SIZE: { ℕ };

    const SIZE: usize;

    // How many numbers a list holds.
    fn count(list: &[Self]) -> usize
        ensures numbers { result ≡ length (numbers list.now) }
        ensures places { result ≡ places list.now };

    // The number at an index.
    fn get(list: &[Self], i: usize) -> N
        requires { i < length (numbers list.now) }
        ensures { result ≡ get_or (numbers list.now) i result };

    // Stores a number from an element on.
    fn store(list: &mut [Self], place: usize, n: N)
        requires { place + SIZE ≤ length list.old }
        ensures { list.new ≡ sets list.old place (stored (n ∷ [])) };

    ghost laws: { CellLaws numbers places at stored SIZE };
}

// Stores a number at an index.
pub fn put<N, C: Cell<N>>(list: &mut [C], k: usize, n: N)
    requires { k < C.places list.old }
    ensures { list.new ≡ sets list.old (C.at k) (C.stored (n ∷ [])) }
{
    C::store(list, C::SIZE * k, n);
}

// Stores the first n numbers of a list in another.
pub fn copy_numbers<N, A: Cell<N>, B: Cell<N>>(from: &[A], n: usize, to: &mut [B])
    requires { (n ≤ length (A.numbers from.now)) × (n ≤ B.places to.old) }
    ensures { to.new ≡ sets to.old 0 (B.stored (take n (A.numbers from.now))) }
{
    for k in 0..n {
        put(to, k, A::get(from, k));
    }
}

// Numbers as they are.
impl<N: Copy> Cell<N> for N {
    ghost numbers = { λ l. l };

    ghost places = { length };

    ghost at = { λ k. k };

    ghost stored = { λ l. l };

    ghost SIZE = { 1 };

    ghost laws = { plain_laws };

    const SIZE: usize = 1;

    fn count(list: &[N]) -> usize {
        list.len()
    }

    fn get(list: &[N], i: usize) -> N {
        list[i]
    }

    fn store(list: &mut [N], place: usize, n: N) {
        list[place] = n;
    }
}

// Numbers as bytes, high first.
impl Cell<u16> for u8 {
    ghost numbers = { numbers16 };

    ghost places = { places16 };

    ghost at = { λ k. 2 * k };

    ghost stored = { flat be16 };

    ghost SIZE = { 2 };

    ghost laws = { laws16 };

    const SIZE: usize = 2;

    #[tactic(auto, using(crate::proofs::Laws::counted16))]
    fn count(list: &[u8]) -> usize {
        list.len() / 2
    }

    #[tactic(auto, using(crate::proofs::Laws::read16))]
    fn get(list: &[u8], i: usize) -> u16 {
        let at = 2 * i;
        let bytes = &list[at..at + 2];
        u16::from_be_bytes([bytes[0], bytes[1]])
    }

    fn store(list: &mut [u8], place: usize, n: u16) {
        list[place..place + 2].copy_from_slice(&n.to_be_bytes());
    }
}

impl Cell<u32> for u8 {
    ghost numbers = { numbers32 };

    ghost places = { places32 };

    ghost at = { λ k. 4 * k };

    ghost stored = { flat be32 };

    ghost SIZE = { 4 };

    ghost laws = { laws32 };

    const SIZE: usize = 4;

    #[tactic(auto, using(crate::proofs::Laws::counted32))]
    fn count(list: &[u8]) -> usize {
        list.len() / 4
    }

    #[tactic(auto, using(crate::proofs::Laws::counted32, crate::proofs::Laws::read32))]
    fn get(list: &[u8], i: usize) -> u32 {
        let at = 4 * i;
        let bytes = &list[at..at + 4];
        u32::from_be_bytes([bytes[0], bytes[1], bytes[2], bytes[3]])
    }

    #[tactic(auto, using(crate::proofs::Laws::stored32))]
    fn store(list: &mut [u8], place: usize, n: u32) {
        list[place..place + 4].copy_from_slice(&n.to_be_bytes());
    }
}

impl Cell<u64> for u8 {
    ghost numbers = { numbers64 };

    ghost places = { places64 };

    ghost at = { λ k. 8 * k };

    ghost stored = { flat be64 };

    ghost SIZE = { 8 };

    ghost laws = { laws64 };

    const SIZE: usize = 8;

    #[tactic(auto, using(crate::proofs::Laws::counted64))]
    fn count(list: &[u8]) -> usize {
        list.len() / 8
    }

    #[tactic(auto, using(crate::proofs::Laws::counted64, crate::proofs::Laws::read64))]
    fn get(list: &[u8], i: usize) -> u64 {
        let at = 8 * i;
        let bytes = &list[at..at + 8];
        u64::from_be_bytes([
            bytes[0], bytes[1], bytes[2], bytes[3], bytes[4], bytes[5], bytes[6], bytes[7],
        ])
    }

    #[tactic(auto, using(crate::proofs::Laws::stored64))]
    fn store(list: &mut [u8], place: usize, n: u64) {
        list[place..place + 8].copy_from_slice(&n.to_be_bytes());
    }
}
