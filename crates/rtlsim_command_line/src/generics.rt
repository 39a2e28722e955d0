//! Values that words set for generics of the top.

ghost use Rattle.std.specs.Prelude.{◌≡◌, ◌≤◌, [], IfOk, IfSome, map, option_map};
ghost use Rattle.std.specs.Str.{str_eq_ignore_ascii_case};
ghost use Rattle.rtlsim_command_line.specs.Settings as spec;
ghost use Rattle.rtlsim_command_line.specs.Words.{setting_view, text_of};

use crate::parsed::cut_option;
use std::alloc::{AllocError, Global};

/// The greatest integer of a generic.
const GREATEST: u64 = 2_147_483_647;

/// A generic, by its name in letters of either case, and its value.
#[derive(Clone, Copy)]
pub struct Setting<'a> {
    pub name: &'a str,
    pub value: i32,
}

/// What words of the form NAME=VALUE set, in order; `None` where one says no integer, or a name is
/// set twice. It takes memory in proportion to the words.
pub(crate) fn settings_of<'a>(
    alloc: Global,
    words: &[&'a str],
) -> Result<Option<Vec<Setting<'a>>>, AllocError>
    ensures { IfOk result (λ settings. option_map (λ all. map setting_view all.items) settings ≡
        spec.settings_from [] (map text_of words.now)) }
{
    let mut settings = Vec::new(alloc);
    for word in words {
        let Some(setting) = setting_of(word) else {
            return Ok(None);
        };
        if is_set(&settings, setting.name) {
            return Ok(None);
        }
        settings.push(setting)?;
    }
    Ok(Some(settings))
}

/// What a word sets.
fn setting_of(word: &str) -> Option<Setting<'_>>
    ensures { option_map setting_view result ≡ spec.setting_of word.now }
{
    let (name, text) = cut_option(word);
    let value = integer_of(text?.as_bytes())?;
    if name.is_empty() {
        return None;
    }
    Some(Setting { name, value })
}

/// Whether the generic of this name is set.
fn is_set(settings: &[Setting<'_>], name: &str) -> bool
    ensures { result ≡ spec.is_set (map setting_view settings.now) name.now }
{
    for setting in settings {
        if is_same_name(setting.name, name) {
            return true;
        }
    }
    false
}

/// Whether two names are one, in letters of either case.
fn is_same_name(first: &str, second: &str) -> bool
    ensures { result ≡ str_eq_ignore_ascii_case first.now second.now }
{
    first.eq_ignore_ascii_case(second)
}

/// The integer that a text is: digits, which a minus may stand before.
fn integer_of(text: &[u8]) -> Option<i32>
    ensures { result ≡ spec.integer_of text.now }
{
    match text {
        [b'-', digits @ ..] => Some(-(number_of(digits)? as i32)),
        _ => Some(number_of(text)? as i32),
    }
}

/// The number that digits are, one or more.
fn number_of(digits: &[u8]) -> Option<u32>
    ensures value { result ≡ spec.number_of digits.now }
    ensures within { IfSome result (λ n. n ≤ spec.greatest) }
{
    if digits.is_empty() {
        return None;
    }
    let mut number = 0;
    for byte in digits {
        let b'0'..=b'9' = *byte else {
            return None;
        };
        number = 10 * number + u64::from(byte - b'0');
        if number > GREATEST {
            return None;
        }
    }
    Some(number as u32)
}
