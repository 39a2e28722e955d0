//! Words of 64 bits.

ghost use Rattle.std.specs.Prelude.{◌≡◌, ◌+◌, ◌-◌, ◌*◌, ◌/◌, ◌%◌, ◌^◌, ◌<◌, ◌≤◌};
ghost use Rattle.std.specs.Int.{bit_at};

/// The word whose lowest bits, so many, are 1.
pub(crate) fn mask(len: usize) -> u64
    requires some { 1 ≤ len }
    requires room { len ≤ 64 }
    ensures { result ≡ 2 ^ len - 1 }
{
    u64::MAX >> (64 - len)
}

/// The bit at a place, counted from the right.
pub(crate) fn bit(word: u64, place: usize) -> u64
    requires { place < 64 }
    ensures { result ≡ bit_at word place }
{
    (word >> place) & 1
}

/// The word with this bit, 0 or 1, at a place.
pub(crate) fn with_bit(word: u64, place: usize, bit: u64) -> u64
    requires { place < 64 }
    ensures { bit < 2 → result ≡ (word / 2 ^ place / 2 * 2 + bit) * 2 ^ place + word % 2 ^ place }
{
    let left = word >> place >> 1;
    let right = word & ((1 << place) - 1);
    (((left << 1) | bit) << place) | right
}

/// So many bits, with so many to their right.
pub(crate) fn part(word: u64, right: usize, len: usize) -> u64
    requires right { right < 64 }
    requires some { 1 ≤ len }
    requires room { len ≤ 64 }
    ensures { result ≡ word / 2 ^ right % 2 ^ len }
{
    (word >> right) & mask(len)
}

/// Up to eight bits, with so many to their right.
pub(crate) fn byte(word: u64, right: usize, len: usize) -> u8
    requires right { right < 64 }
    requires some { 1 ≤ len }
    requires room { len ≤ 8 }
    ensures { result ≡ word / 2 ^ right % 2 ^ len }
{
    part(word, right, len) as u8
}

/// The bits of a word, and those of another, so many, to their right, where there is room for both.
pub(crate) fn beside(left: u64, right: u64, len: usize) -> u64
    requires { len < 64 }
    ensures { left < 2 ^ (64 - len) → right < 2 ^ len → result ≡ left * 2 ^ len + right }
{
    (left << len) | right
}
