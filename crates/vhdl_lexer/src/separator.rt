//! Separators (IEEE 1076-2008, 15.3) and comments (15.9).

ghost use Rattle.std.specs.Prelude.{◌≡◌, ◌≤◌, ℕ, List, length, IfSome, IfNone};
ghost use Rattle.vhdl_lexer.specs.Scan as spec;

use crate::byte::{begins, ends_line, is_separator};

/// The text behind a line's end, of which the comment is a part.
#[tactic(auto, unfolding(crate::specs::Scan::skip))]
fn skip_line(mut text: &[u8]) -> &[u8]
    ensures value { spec.skip result.now ≡ spec.skip_line text.entry.now }
    ensures within { length result.now ≤ length text.entry.now }
{
    while let [b, rest @ ..] = text {
        text = rest;
        if ends_line(*b) {
            return text;
        }
    }
    text
}

/// The text from the next `*/` on, or nothing.
fn from_close(mut text: &[u8]) -> &[u8]
    ensures value { result.now ≡ spec.from_close text.entry.now }
    ensures within { length result.now ≤ length text.entry.now }
{
    while let [b, rest @ ..] = text {
        if *b == b'*' && begins(b'/', rest) {
            return text;
        }
        text = rest;
    }
    text
}

/// The text behind the delimited comment whose `*` begins the text, or `None` where it has no end.
#[tactic(auto, unfolding(crate::specs::Scan::skip_star))]
fn after_comment(text: &[u8]) -> Option<&[u8]>
    ensures closed { IfSome result
        (λ after. (opened : List ℕ) → spec.skip_star opened text.now ≡ spec.skip after.now) }
    ensures within { IfSome result (λ after. length after.now ≤ length text.now) }
    ensures left_open { IfNone result ((opened : List ℕ) → spec.skip_star opened text.now ≡ opened) }
{
    let [_, body @ ..] = text else {
        return None;
    };
    let [_, _, after @ ..] = from_close(body) else {
        return None;
    };
    Some(after)
}

/// The text behind the separators and comments at its front. An open comment stays.
#[tactic(auto, unfolding(crate::specs::Scan::skip))]
pub fn skip(mut text: &[u8]) -> &[u8]
    ensures value { result.now ≡ spec.skip text.entry.now }
    ensures within { length result.now ≤ length text.entry.now }
{
    while let [b, rest @ ..] = text {
        if is_separator(*b) {
            text = rest;
        } else if *b == b'-' && begins(b'-', rest) {
            text = skip_line(rest);
        } else if *b == b'/' && begins(b'*', rest) {
            let Some(after) = after_comment(rest) else {
                return text;
            };
            text = after;
        } else {
            return text;
        }
    }
    text
}
