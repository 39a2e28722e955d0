//! Elements of one vector, told as a range.

ghost use Rattle.std.specs.Prelude.{◌≡◌, ◌≤◌, ◌++◌, length, IfSome, OnOk};
ghost use Rattle.rtlsim_findings.specs.Ranges as spec;
ghost use Rattle.vhdl_lexer.specs.Literals.{greatest_integer};

use rtl_net::NoMemory;
use vhdl_lexer::integer_value;

/// Whether a name ends with an index.
fn ends_index(name: &[u8]) -> bool
    ensures { result ≡ spec.ends_index name.now }
{
    matches!(name, [.., b')'])
}

/// What stands behind the last `(` of a name.
fn index_part(name: &[u8]) -> &[u8]
    ensures part { result.now ≡ spec.index_part name.now }
    ensures within { length result.now ≤ length name.now }
{
    let mut found: &[u8] = &[];
    let mut bytes = name;
    while let [byte, rest @ ..] = bytes {
        if *byte == b'(' {
            found = rest;
        }
        bytes = rest;
    }
    found
}

/// A name up to its last `(`.
fn base_part(name: &[u8]) -> &[u8]
    ensures { result.now ≡ spec.base_part name.now }
{
    &name[..name.len() - index_part(name).len()]
}

/// The index of an element's name.
fn index_of(name: &[u8]) -> Option<u32>
    ensures number { result ≡ spec.index_of name.now }
    ensures fits { IfSome result (λ n. n ≤ greatest_integer) }
{
    integer_value(index_part(name))
}

/// Whether two indices are one beside the other.
fn are_beside(first: Option<u32>, second: Option<u32>) -> bool
    ensures { result ≡ spec.are_beside first second }
{
    match (first, second) {
        (Some(first), Some(second)) => {
            u64::from(first) + 1 == u64::from(second) || u64::from(second) + 1 == u64::from(first)
        }
        _ => false,
    }
}

/// Whether the second name is that of the element beside the first.
pub fn follows(first: &[u8], second: &[u8]) -> bool
    ensures { result ≡ spec.follows first.now second.now }
{
    let both_end = ends_index(first) && ends_index(second);
    let same_base = base_part(first) == base_part(second);
    both_end && same_base && are_beside(index_of(first), index_of(second))
}

/// Whether a range goes down.
fn falls(first: Option<u32>, last: Option<u32>) -> bool
    ensures { result ≡ spec.falls first last }
{
    match (first, last) {
        (Some(first), Some(last)) => last < first,
        _ => false,
    }
}

/// The word between the bounds of a range.
fn direction(first: &[u8], last: &[u8]) -> &'static [u8]
    ensures { result.now ≡ spec.direction first.now last.now }
{
    if falls(index_of(first), index_of(last)) {
        b" downto "
    } else {
        b" to "
    }
}

/// Appends the range from the first name to the last, as `alu.b(7 downto 0)`, or the one name. It
/// takes memory where the text grows.
pub fn push_range(first: &[u8], last: &[u8], text: &mut Vec<u8>) -> Result<(), NoMemory>
    ensures { OnOk result (text.new.items ≡ text.old.items ++ spec.range_text first.now last.now) }
{
    if first == last {
        return Ok(text.extend_from_slice(first)?);
    }
    text.extend_from_slice(&first[..first.len().saturating_sub(1)])?;
    text.extend_from_slice(direction(first, last))?;
    text.extend_from_slice(index_part(last))?;
    Ok(())
}
