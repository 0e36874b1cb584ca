// Reading bytes without a test for their end: a byte past it counts as 0, and a part stops there.
ghost use Rattle.std.specs.Prelude.{◌≡◌, ◌^◌, ◌<◌, take, drop, slice_index};
ghost use Rattle.bundle.specs.Sizes.{word16};

fn byte(bytes: &[u8], at: usize) -> u8
    ensures { result ≡ slice_index bytes.now at }
{
    bytes.get(at).copied().unwrap_or(0)
}

// The 16-bit number at `at`, high byte first.
pub(crate) fn word(bytes: &[u8], at: usize) -> usize
    requires { at < 2 ^ 32 }
    ensures value { result ≡ word16 bytes.now at }
    ensures bound { result < 65536 }
{
    let word = u16::from_be_bytes([byte(bytes, at), byte(bytes, at + 1)]);
    usize::from(word)
}

// The first `n` bytes, and those after them.
pub(crate) fn part(bytes: &[u8], n: usize) -> (&[u8], &[u8])
    ensures front { result.0.now ≡ take n bytes.now }
    ensures back { result.1.now ≡ drop n bytes.now }
{
    bytes.split_at(n.min(bytes.len()))
}
