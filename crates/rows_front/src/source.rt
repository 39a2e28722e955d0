//! Sources as the tables write them.
//!
//! A backslash and a letter stand for a byte that a line of a table doesn't hold: `\n`, `\r`, `\t`
//! for the ends of lines and the tab, `\xHH` for a byte by two hexadecimal digits. `\*N*` stands
//! for N times the byte behind it.

ghost use Rattle.std.specs.Prelude.{◌<◌};

use rows_calls::Text;
use std::alloc::Global;

/// The bytes of a source that is written so.
pub fn source_of(alloc: Global, written: &str) -> Text {
    let mut source = Text::new(alloc);
    push_source(&mut source, written);
    source
}

/// Adds the bytes of a source that is written so.
pub fn push_source(source: &mut Text, written: &str) {
    let mut parts = written.split('\\');
    source.push(parts.next().unwrap_or(""));
    for part in parts {
        push_escaped(source, part);
    }
}

/// Adds the bytes of a text that stands behind a backslash.
fn push_escaped(source: &mut Text, part: &str) {
    match part.as_bytes() {
        [b'*', ..] => push_repeated(source, part),
        [b'n', rest @ ..] => push_byte(source, b'\n', rest),
        [b'r', rest @ ..] => push_byte(source, b'\r', rest),
        [b't', rest @ ..] => push_byte(source, b'\t', rest),
        [b'x', high, low, rest @ ..] => push_byte(source, 16 * digit(*high) + digit(*low), rest),
        rest => source.push_bytes(rest),
    }
}

/// Adds a byte and what stands behind it.
fn push_byte(source: &mut Text, byte: u8, rest: &[u8]) {
    source.push_bytes(&[byte]);
    source.push_bytes(rest);
}

/// Adds a text of the form `*N*`, a byte that comes N times, and a rest.
fn push_repeated(source: &mut Text, part: &str) {
    let (_, counted) = part.split_once('*').unwrap_or(("", ""));
    let (count, rest) = counted.split_once('*').unwrap_or(("", ""));
    if let (Ok(count), [byte, rest @ ..]) = (count.parse::<u32>(), rest.as_bytes()) {
        for _ in 0..count {
            source.push_bytes(&[*byte]);
        }
        source.push_bytes(rest);
    }
}

/// The value of a hexadecimal digit, 0 of any other byte.
fn digit(b: u8) -> u8
    ensures { result < 16 }
{
    match b {
        b'0'..=b'9' => b - b'0',
        b'a'..=b'f' => b - b'a' + 10,
        _ => 0,
    }
}

/// Adds a text in that form, but for the end of its last line.
pub fn push_written(found: &mut Text, text: &Text) {
    found.heed(text);
    let lines = text.as_str();
    for byte in lines.strip_suffix('\n').unwrap_or(lines).as_bytes() {
        match *byte {
            b'\n' => found.push("\\n"),
            b'\r' => found.push("\\r"),
            b'\t' => found.push("\\t"),
            byte => found.push_bytes(&[byte]),
        }
    }
}
