//! The operands of a row: letters of values, and numbers after `#`.

ghost use Rattle.std.specs.Prelude.{◌≤◌, IfSome, length};

use vhdl_values::{Nine, Vec9};

/// The vector that 1 to 64 letters spell.
pub fn vector(letters: &str) -> Option<Vec9> {
    let bytes = letters.as_bytes();
    let mut values = [Nine::U; 64];
    if bytes.is_empty() || bytes.len() > 64 {
        return None;
    }
    for (at, byte) in bytes.iter().enumerate() {
        values[at] = Nine::from_byte(*byte)?;
    }
    Some(Vec9::of(&values[..bytes.len()]))
}

/// The value that one letter spells.
pub fn value(letter: &str) -> Option<Nine> {
    let spelled = vector(letter)?;
    if spelled.len() == 1 {
        Some(spelled.get(0))
    } else {
        None
    }
}

/// The natural number after `#`.
pub fn natural(word: &str) -> Option<u32> {
    word.strip_prefix("#")?.parse::<u32>().ok()
}

/// The vector that the codes 0 to 8 after `:` have.
pub fn coded(word: &str) -> Option<Vec9> {
    let bytes = word.strip_prefix(":")?.as_bytes();
    let mut codes = [0; 64];
    if bytes.is_empty() || bytes.len() > 64 {
        return None;
    }
    for (at, byte) in bytes.iter().enumerate() {
        if *byte < b'0' || *byte > b'8' {
            return None;
        }
        codes[at] = *byte - b'0';
    }
    Some(Vec9::of_codes(&codes[..bytes.len()]))
}
