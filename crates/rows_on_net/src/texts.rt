//! Texts with numbers, and lines in one.

use byte_streams::{Sink, push_number, push_text};

/// Writes a text and a number behind it.
pub fn push_count<S: Sink>(out: &mut S, text: &str, count: u64) {
    push_text(out, text.as_bytes());
    push_number(out, count);
}

/// Writes `true` or `false`.
pub fn push_truth<S: Sink>(out: &mut S, truth: bool) {
    let text = if truth { "true" } else { "false" };
    push_text(out, text.as_bytes());
}

/// Writes the lines of a text, with `; ` between them.
pub fn push_joined<S: Sink>(out: &mut S, text: &[u8]) {
    let mut is_first = true;
    for line in text_of(text).lines() {
        if !is_first {
            push_text(out, b"; ");
        }
        push_text(out, line.as_bytes());
        is_first = false;
    }
}

/// What was written, as a text.
fn text_of(bytes: &[u8]) -> &str {
    str::from_utf8(bytes).unwrap_or("not UTF-8")
}
