//! The characters of literals, the words of calls that have a length, and names of types.

ghost use Rattle.std.specs.Prelude.{◌≡◌};
ghost use Rattle.vhdl_misfits.specs.Values as spec;

use vhdl_slips::is_same_word;

/// Whether it is the character of one of the nine values.
fn is_value(byte: u8) -> bool
    ensures { result ≡ spec.is_value byte }
{
    matches!(
        byte,
        b'U' | b'X' | b'0' | b'1' | b'Z' | b'W' | b'L' | b'H' | b'-'
    )
}

/// Whether it is that, or a quotation mark.
fn is_element(byte: u8) -> bool
    ensures { result ≡ spec.is_element byte }
{
    byte == b'"' || is_value(byte)
}

pub(crate) fn are_elements(written: &[u8]) -> bool
    ensures { result ≡ spec.are_elements written.now }
{
    written.iter().all(|byte| is_element(*byte))
}

/// Whether the second of three characters is that of one of the nine values.
pub(crate) fn is_one_value(written: &[u8]) -> bool
    ensures { result ≡ spec.is_one_value written.now }
{
    match written {
        [_, value, _] => is_value(*value),
        _ => false,
    }
}

/// Whether its second argument is a length.
pub(crate) fn is_sized(word: &[u8]) -> bool
    ensures { result ≡ spec.is_sized word.now }
{
    is_same_word(word, b"resize") || is_same_word(word, b"to_unsigned")
}

/// Whether it is the name of a type of one element, of whole numbers, or of truths.
pub(crate) fn names_element(word: &[u8]) -> bool
    ensures { result ≡ spec.names_element word.now }
{
    is_same_word(word, b"std_logic")
        || is_same_word(word, b"std_ulogic")
        || is_same_word(word, b"integer")
        || is_same_word(word, b"natural")
        || is_same_word(word, b"positive")
        || is_same_word(word, b"boolean")
}
