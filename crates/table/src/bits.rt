// Bits of bytes: bit i is 2 ^ (i mod 8) of byte i / 8. A bit past the end is not set, and setting it changes nothing.
ghost use Rattle.std.specs.Prelude.{true, cond, ◌≡◌, ℕ, ◌+◌, ◌<◌, ◌≤◌, length, get_or};
ghost use Rattle.laws.specs.Bits.{bit_at, set_bit};

// Bit i is set.
pub fn get_bit(s: &[u8], i: usize) -> bool
    ensures { result ≡ bit_at s.now i }
{
    match s.get(i / 8) {
        Some(byte) => (*byte >> (i % 8)) % 2 == 1,
        None => false,
    }
}

// Sets bit i where `on` is true.
pub fn set_if(on: bool, s: &mut [u8], i: usize)
    ensures { s.new ≡ cond on (set_bit s.old i) s.old }
{
    if on && i / 8 < s.len() {
        s[i / 8] |= 1 << (i % 8);
    }
}

// The eight bytes from a on are 0: one test for all of them, so that loops can pass over them.
pub fn quiet(s: &[u8], a: usize) -> bool
    requires { a + 8 ≤ length s.now }
    ensures { result ≡ true → (k : ℕ) → k < 8 → get_or s.now (a + k) 0 ≡ 0 }
{
    let low = s[a] | s[a + 1] | s[a + 2] | s[a + 3];
    let high = s[a + 4] | s[a + 5] | s[a + 6] | s[a + 7];
    (low | high) == 0
}
