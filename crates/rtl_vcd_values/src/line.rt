//! Codes and values, in a line of fixed room.

ghost use Rattle.std.specs.Prelude.{◌≡◌, ◌==◌, ℕ, ◌+◌, ◌≤◌, ◌<◌, ◌++◌, not, All, length, map, replicate, slice_index};
ghost use Rattle.std.specs.List.{list_all};
ghost use Rattle.arrayvec.specs.ArrayVec.{array_vec_len};
ghost use Rattle.rtl_net.specs.Digits as fewest;
ghost use Rattle.rtl_vcd_values.specs.Values as spec;

use arrayvec::ArrayVec;

/// How long the longest change is: `b`, 64 digits, a space, a code of ten characters, and the
/// line's end.
pub const LINE: usize = 77;

/// How many digits an integer prints.
pub const INTEGER: usize = 32;

/// Room for the longest change.
pub type Line = ArrayVec<u8, 77>;

/// What each of the nine values prints as, and behind them all other bytes.
const CHARACTERS: [u8; 256] =
    *b"xx01zx01xxxxxxxxxxxxxxxxxxxxxxxxxxxxxxxxxxxxxxxxxxxxxxxxxxxxxxxxxxxxxxxxxxxxxxxxxxxxxxxxxxxxxxxxxxxxxxxxxxxxxxxxxxxxxxxxxxxxxxxx\
    xxxxxxxxxxxxxxxxxxxxxxxxxxxxxxxxxxxxxxxxxxxxxxxxxxxxxxxxxxxxxxxxxxxxxxxxxxxxxxxxxxxxxxxxxxxxxxxxxxxxxxxxxxxxxxxxxxxxxxxxxxxxxxxx";

/// What one of the nine values, by its code, prints as.
pub fn character(value: u8) -> u8
    ensures { result ≡ spec.character value }
{
    CHARACTERS[value as usize]
}

/// Whether one value prints otherwise than the other.
pub fn is_other_character(before: u8, now: u8) -> bool
    ensures { result ≡ not (spec.character before == spec.character now) }
{
    character(before) != character(now)
}

/// Appends the code of the name with this number, at most ten characters.
pub fn push_code<const ROOM: usize>(line: &mut ArrayVec<u8, ROOM>, number: usize)
    requires room { array_vec_len line.old + 10 ≤ ROOM }
    ensures code { line.new.items ≡ line.old.items ++ spec.code number }
    ensures short { array_vec_len line.new ≤ array_vec_len line.old + 10 }
{
    line.push(b'!' + (number % 94) as u8);
    let mut rest = number / 94;
    while rest > 0 {
        line.push(b'!' + (rest % 94) as u8);
        rest /= 94;
    }
}

/// How many binary digits hold the number, at least one.
pub fn binary_digits(number: u32) -> u32
    ensures digits { result ≡ fewest.binary_digits number }
    ensures most { result ≤ 32 }
{
    if number < 2 {
        return 1;
    }
    1 + binary_digits(number / 2)
}

/// Appends so many binary digits of the number, the lowest last.
pub fn push_binary(line: &mut Line, digits: u32, number: u32)
    requires room { array_vec_len line.old + digits ≤ 77 }
    ensures digits { line.new.items ≡ line.old.items ++ spec.binary digits number }
    ensures len { array_vec_len line.new ≡ array_vec_len line.old + digits }
{
    if digits == 0 {
        return;
    }
    push_binary(line, digits - 1, number / 2);
    line.push(b'0' + (number % 2) as u8);
}

/// Appends what the values of these nets print as.
pub fn push_elements(line: &mut Line, nets: &[usize], values: &[u8])
    requires there { All (λ n. n < length values.now) nets.now }
    requires room { array_vec_len line.old + length nets.now ≤ 77 }
    ensures characters { line.new.items ≡ line.old.items ++ map spec.character (map (slice_index values.now) nets.now) }
    ensures len { array_vec_len line.new ≡ array_vec_len line.old + length nets.now }
{
    for net in nets {
        line.push(character(values[*net]));
    }
}

/// Appends an integer's digits from the values of these nets, `x` for each where one of these is no
/// digit.
pub fn push_integer(line: &mut Line, least: i32, nets: &[usize], values: &[u8])
    requires there { All (λ n. n < length values.now) nets.now }
    requires some { 0 < length nets.now }
    requires most { length nets.now ≤ 64 }
    requires room { array_vec_len line.old + 64 ≤ 77 }
    ensures digits { line.new.items ≡ line.old.items ++ spec.integer least (map (slice_index values.now) nets.now) }
    ensures len { array_vec_len line.new ≤ array_vec_len line.old + 64 }
{
    if !are_digits(nets, values) {
        push_times(line, b'x', INTEGER);
        return;
    }
    let sign = sign_of(least, nets, values);
    push_times(line, sign, INTEGER.saturating_sub(nets.len()));
    push_elements(line, nets, values);
}

/// What stands before an integer's digits, where the least one of its type is this.
fn sign_of(least: i32, nets: &[usize], values: &[u8]) -> u8
    requires there { All (λ n. n < length values.now) nets.now }
    requires some { 0 < length nets.now }
    ensures { result ≡ spec.sign_of least (map (slice_index values.now) nets.now) }
{
    if least < 0 {
        character(values[nets[0]])
    } else {
        b'0'
    }
}

/// Whether each of these nets has a digit.
fn are_digits(nets: &[usize], values: &[u8]) -> bool
    requires { All (λ n. n < length values.now) nets.now }
    ensures { result ≡ list_all spec.is_digit (map (slice_index values.now) nets.now) }
{
    for net in nets {
        if !is_digit(values[*net]) {
            return false;
        }
    }
    true
}

/// Whether one of the nine values, by its code, is a digit.
fn is_digit(value: u8) -> bool
    ensures { result ≡ spec.is_digit value }
{
    matches!(character(value), b'0' | b'1')
}

/// Appends a letter so many times.
fn push_times(line: &mut Line, letter: u8, count: usize)
    requires room { array_vec_len line.old + count ≤ 77 }
    ensures letters { line.new.items ≡ line.old.items ++ replicate count letter }
    ensures len { array_vec_len line.new ≡ array_vec_len line.old + count }
{
    for _ in 0..count {
        line.push(letter);
    }
}
