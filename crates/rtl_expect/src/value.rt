//! What a text wants of a signal's elements.

ghost use Rattle.std.specs.Prelude.{◌≡◌, ◌==◌, ◌≤◌, length, option_map, slice_index, IfOk};
ghost use Rattle.std.specs.List.{list_all};
ghost use Rattle.rtl_net.specs.Nets.{signal_view};
ghost use Rattle.rtl_expect.specs.Expected as spec;

use crate::expected::Wanted;
use crate::literals::Literals;
use crate::numbers::{integer_wanted, truth_wanted};
use rtl_net::{Signal, SignalKind};
use rtl_stim_lines::{Time, time_of};
use std::alloc::{AllocError, Global};
use vhdl_values::Nine;

/// What a text wants of a signal's elements, if it is one of their values.
pub(crate) type Found = Result<Option<Vec<Wanted>>, AllocError>;

/// What a text wants of a signal's elements.
#[tactic(auto, unfolding(crate::specs::Expected::value_wanted))]
pub(crate) fn value_wanted<L: Literals>(
    alloc: Global,
    literals: &L,
    signal: &Signal,
    text: &[u8],
) -> Found
    requires some { 1 ≤ length signal.now.nets.items }
    requires few { length signal.now.nets.items ≤ 64 }
    ensures { IfOk result (λ found. option_map (λ v. v.items) found
        ≡ spec.value_wanted (L.positions literals.now) (signal_view signal.now) text.now) }
{
    match signal.kind {
        SignalKind::One => letters_wanted(alloc, &signal.nets, text),
        SignalKind::Vector { .. } => elements_wanted(alloc, &signal.nets, text),
        SignalKind::Integer { least, greatest } => {
            integer_wanted(alloc, least, greatest, &signal.nets, text)
        }
        SignalKind::Boolean => truth_wanted(alloc, &signal.nets, text),
        SignalKind::Enumeration { count } => {
            position_wanted(alloc, literals, signal, count, text)
        }
    }
}

/// What letters of the nine values want of these nets, one letter for each.
fn letters_wanted(alloc: Global, nets: &[usize], text: &[u8]) -> Found
    ensures { IfOk result (λ found. option_map (λ v. v.items) found ≡ spec.letters_wanted nets.now text.now) }
{
    if nets.len() != text.len() {
        return Ok(None);
    }
    let mut wanted = Vec::with_capacity(alloc, nets.len())?;
    for (place, net) in nets.iter().enumerate() {
        let Some(code) = code_wanted_of(text[place]) else {
            return Ok(None);
        };
        wanted.push(Wanted { net: *net, code })?;
    }
    Ok(Some(wanted))
}

/// The code that a letter wants, if it is one; `-` and `?` stand for any.
fn code_wanted_of(letter: u8) -> Option<Option<u64>>
    ensures { result ≡ spec.code_wanted_of letter }
{
    if letter == b'?' {
        return Some(None);
    }
    let value = Nine::from_byte(letter)?;
    Some(code_wanted(value))
}

/// The code that is wanted; `-` stands for any.
fn code_wanted(value: Nine) -> Option<u64>
    ensures { result ≡ spec.code_wanted value }
{
    match value {
        Nine::Dash => None,
        _ => Some(u64::from(value.code())),
    }
}

/// What letters or a bit string want of these nets.
fn elements_wanted(alloc: Global, nets: &[usize], text: &[u8]) -> Found
    ensures { IfOk result (λ found. option_map (λ v. v.items) found ≡ spec.elements_wanted nets.now text.now) }
{
    let Some(digits) = quoted_digits(text) else {
        return letters_wanted(alloc, nets, text);
    };
    let letters = letters_of_digits(alloc, digits)?;
    let Some(letters) = cut_letters(nets.len(), &letters) else {
        return Ok(None);
    };
    letters_wanted(alloc, nets, letters)
}

/// What stands between `x"` and `"`.
fn quoted_digits(text: &[u8]) -> Option<&[u8]>
    ensures { option_map (λ digits. digits.now) result ≡ spec.quoted_digits text.now }
{
    let [x, quote, rest @ ..] = text else {
        return None;
    };
    if !x.eq_ignore_ascii_case(&b'x') || *quote != b'"' {
        return None;
    }
    match rest.split_last() {
        Some((b'"', digits)) => Some(digits),
        _ => None,
    }
}

/// The letters of digits.
fn letters_of_digits(alloc: Global, digits: &[u8]) -> Result<Vec<u8>, AllocError>
    ensures { IfOk result (λ letters. letters.items ≡ spec.letters_of_digits digits.now) }
{
    let mut letters = Vec::new(alloc);
    for digit in digits {
        letters.extend_from_slice(&four_letters(*digit))?;
    }
    Ok(letters)
}

/// The bits of a digit from the left; four times the byte where it is none.
fn four_letters(byte: u8) -> [u8; 4]
    ensures { result ≡ spec.four_letters byte (spec.hex_of byte) }
{
    match hex_of(byte) {
        None => [byte; 4],
        Some(digit) => [
            b'0' + digit / 8 % 2,
            b'0' + digit / 4 % 2,
            b'0' + digit / 2 % 2,
            b'0' + digit % 2,
        ],
    }
}

/// The value of a hexadecimal digit.
fn hex_of(byte: u8) -> Option<u8>
    ensures { result ≡ spec.hex_of byte }
{
    match byte {
        b'0'..=b'9' => Some(byte - b'0'),
        b'A'..=b'F' => Some(byte - b'A' + 10),
        b'a'..=b'f' => Some(byte - b'a' + 10),
        _ => None,
    }
}

/// The last of these letters, of so many elements, where those before them are the surplus of a
/// digit, and 0.
fn cut_letters(count: usize, letters: &[u8]) -> Option<&[u8]>
    ensures { option_map (λ cut. cut.now) result ≡ spec.cut_letters count letters.now }
{
    if letters.len() < count {
        return None;
    }
    let surplus = letters.len() - count;
    if surplus >= 4 {
        return None;
    }
    let (before, cut) = letters.split_at(surplus);
    if are_zeros(before) { Some(cut) } else { None }
}

/// Whether all of these letters are 0.
fn are_zeros(letters: &[u8]) -> bool
    ensures { result ≡ list_all (λ letter. letter == 48) letters.now }
{
    letters.iter().all(|letter| *letter == b'0')
}

/// What the position or the name of a literal, one of so many, wants of a signal's element; `-` and
/// `?` stand for any.
fn position_wanted<L: Literals>(
    alloc: Global,
    literals: &L,
    signal: &Signal,
    count: u32,
    text: &[u8],
) -> Found
    requires some { 1 ≤ length signal.now.nets.items }
    ensures { IfOk result (λ found. option_map (λ v. v.items) found
        ≡ spec.position_wanted (slice_index signal.now.nets.items 0) count
        (L.positions literals.now (signal_view signal.now) text.now) text.now) }
{
    let net = signal.nets[0];
    if is_any(text) {
        return Ok(Some(vec![in alloc; Wanted { net, code: None }]?));
    }
    let position = match time_of(text) {
        Some(Time::At(position)) => Some(position),
        Some(Time::TooLarge) => None,
        None => literals.position(signal, text),
    };
    match position {
        Some(position) if position < u64::from(count) => {
            let code = Some(position);
            Ok(Some(vec![in alloc; Wanted { net, code }]?))
        }
        _ => Ok(None),
    }
}

/// Whether a text stands for any value.
pub(crate) fn is_any(text: &[u8]) -> bool
    ensures { result ≡ spec.is_any text.now }
{
    text == b"-".as_slice() || text == b"?".as_slice()
}
