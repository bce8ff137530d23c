// The numbers of a list that stored bytes are held against, whatever type the list has.

ghost use Rattle.std.specs.Prelude.{◌≡◌, ℕ};

// A number without a sign, by its value.
pub trait Number: Copy {
    ghost value: { Self → ℕ };

    // Its value.
    fn value(self) -> usize
        ensures { result ≡ value self };
}

impl Number for u16 {
    ghost value = { λ n. n };

    fn value(self) -> usize {
        usize::from(self)
    }
}

impl Number for u32 {
    ghost value = { λ n. n };

    fn value(self) -> usize {
        self as usize
    }
}

impl Number for usize {
    ghost value = { λ n. n };

    fn value(self) -> usize {
        self
    }
}
