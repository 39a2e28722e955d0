//! The names and values of NAME=VALUE words.

ghost use Rattle.std.specs.Prelude.{◌≡◌, ◌<◌, ◌==◌, map, length, position, IfOk, IfSome};
ghost use Rattle.rtl_run.specs.Words as spec;
ghost use Rattle.rtl_stim_lines.specs.Pairs.{pair_view};

use std::alloc::{AllocError, Global};

/// The name and the value of each word. It takes memory in proportion to them.
pub fn pairs_of<'a>(
    alloc: Global,
    words: &[&'a [u8]],
) -> Result<Vec<Option<(&'a [u8], &'a [u8])>>, AllocError>
    ensures { IfOk result (λ pairs. map pair_view pairs.items ≡ map spec.sides (map (λ word. word.now) words.now)) }
{
    let mut pairs = Vec::new(alloc);
    for word in words {
        pairs.push(sides(word))?;
    }
    Ok(pairs)
}

/// The name and the value of a word.
fn sides(word: &[u8]) -> Option<(&[u8], &[u8])>
    ensures { spec.sides word.now ≡ pair_view result }
{
    if !is_word(word) {
        return None;
    }
    let at = equals_at(word)?;
    let name = &word[..at];
    let value = &word[at + 1..];
    if name.is_empty() || value.is_empty() {
        return None;
    }
    Some((name, value))
}

/// Whether no blank and no control character stands in a word.
fn is_word(word: &[u8]) -> bool
    ensures { result ≡ spec.is_word word.now }
{
    for byte in word {
        if *byte < 33 {
            return false;
        }
    }
    true
}

/// Where the first `=` stands.
fn equals_at(word: &[u8]) -> Option<usize>
    ensures first { result ≡ position (λ b. b == 61) word.now }
    ensures within { IfSome result (λ at. at < length word.now) }
{
    word.iter().position(|b| *b == b'=')
}
