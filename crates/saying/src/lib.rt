// Lines are put together in a room that the caller lends: each method here adds bytes after those that are
// said already. What a line says is decided by who calls; nothing is written to a file here.
#![tactic(auto)]

ghost use Rattle.std.specs.Prelude.{◌≤◌, length};

// The most digits that a number has.
pub const NUMBER_MOST: usize = 20;

// A line: the room that it is lent, and how many bytes of it are said.
#[derive(Drop)]
pub struct Line<'a> {
    room: &'a mut [u8],
    len: usize,
    ghost fits: { len ≤ length room.now },
}

impl<'a> Line<'a> {
    ghost use Rattle.std.specs.Prelude.{◌≡◌, ◌∷◌, [], ◌++◌, ◌+◌, ◌≤◌, length, take, replicate};
    ghost use Rattle.saying.specs.Saying.{number_most, decimal_of, bytes_of, HasRoom, Said};

    // A line that says nothing yet.
    pub fn new(room: &'a mut [u8]) -> Line<'a>
        ensures same_room { result.room.ghost_name ≡ room.entry.ghost_name }
        ensures value { (result.len ≡ 0) × (result.room.now ≡ room.old) }
    {
        Line { room, len: 0 }
    }

    // A line that says the first bytes of its room.
    pub fn after(room: &'a mut [u8], len: usize) -> Line<'a>
        requires { len ≤ length room.old }
        ensures same_room { result.room.ghost_name ≡ room.entry.ghost_name }
        ensures value { (result.len ≡ len) × (result.room.now ≡ room.old) }
    {
        Line { room, len }
    }

    // The bytes that are said.
    pub fn as_bytes(&self) -> &[u8]
        ensures { result.now ≡ bytes_of self.now }
    {
        &self.room[..self.len]
    }

    // Adds bytes.
    pub fn say(&mut self, bytes: &[u8])
        requires { HasRoom self.old (length bytes.now) }
        ensures { Said self.old bytes.now self.new }
    {
        let end = self.len + bytes.len();
        let after = &mut self.room[self.len..end];
        after.copy_from_slice(bytes);
        self.len = end;
    }

    // Adds a byte.
    pub fn say_byte(&mut self, b: u8)
        requires { HasRoom self.old 1 }
        ensures { Said self.old (b ∷ []) self.new }
    {
        self.room[self.len] = b;
        self.len += 1;
    }

    // Adds n copies of a byte.
    pub fn say_times(&mut self, b: u8, n: usize)
        requires { HasRoom self.old n }
        ensures { Said self.old (replicate n b) self.new }
    {
        let end = self.len + n;
        let after = &mut self.room[self.len..end];
        after.fill(b);
        self.len = end;
    }

    // Adds the decimal digits of a number.
    pub fn say_number(&mut self, n: u64)
        requires { HasRoom self.old number_most }
        ensures said { Said self.old (decimal_of n) self.new }
        ensures upper_bound { self.new.len ≤ self.old.len + number_most }
    {
        let mut digits = [0u8; NUMBER_MOST];
        let k = io::decimal(n, &mut digits);
        self.say(&digits[..k]);
    }

    // Adds a name and, after it, the decimal digits of a number.
    pub fn say_named(&mut self, name: &[u8], n: u64)
        requires { HasRoom self.old (length name.now + number_most) }
        ensures said { Said self.old (name.now ++ decimal_of n) self.new }
        ensures upper_bound { self.new.len ≤ self.old.len + length name.now + number_most }
    {
        self.say(name);
        self.say_number(n);
    }
}
