// Numbers as the entries of a table of moves: what they can hold is below a limit.
ghost use Rattle.std.specs.Prelude.{◌≡◌, ℕ, ◌<◌, ◌≤◌};

pub trait Entry: Copy {
    ghost number: { Self → ℕ };

    ghost limit: { ℕ };

    fn nth(index: usize) -> Self
        ensures value { index < limit → number result ≡ index };
}

impl Entry for u8 {
    ghost number = { λ n. n };

    ghost limit = { 256 };

    fn nth(index: usize) -> u8
        ensures value { index < 256 → result ≡ index }
        ensures past { 256 ≤ index → result ≡ 255 }
    {
        u8::try_from(index).unwrap_or(u8::MAX)
    }
}

impl Entry for u16 {
    ghost number = { λ n. n };

    ghost limit = { 65536 };

    fn nth(index: usize) -> u16
        ensures value { index < 65536 → result ≡ index }
        ensures past { 65536 ≤ index → result ≡ 65535 }
    {
        u16::try_from(index).unwrap_or(u16::MAX)
    }
}
