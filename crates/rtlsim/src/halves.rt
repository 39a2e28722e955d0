//! A source and a stimulus in one input.

ghost use Rattle.std.specs.Prelude.{◌≡◌, ◌<◌, IfSome, length};
ghost use Rattle.rtlsim.specs.Halves.{begins_mark, mark_of, halves_of};

use crate::first_line::first_line;

/// The source and the stimulus of one input: the first line that is `@` alone ends the source, and
/// the rest is the stimulus, which is empty without such a line. A carriage return at its end
/// counts for nothing.
pub fn halves_at_line(all: &[u8]) -> (&[u8], &[u8])
    ensures source { result.0.now ≡ (halves_of all.now).0 }
    ensures stimulus { result.1.now ≡ (halves_of all.now).1 }
{
    match mark_at(all) {
        None => (all, &[]),
        Some(at) => {
            let (_mark, stimulus) = first_line(&all[at..]);
            (&all[..at], stimulus)
        }
    }
}

/// Where the first line that is `@` alone starts.
fn mark_at(all: &[u8]) -> Option<usize>
    ensures mark { result ≡ mark_of all.now }
    ensures within { IfSome result (λ at. at < length all.now) }
{
    let mut starts = true;
    for at in 0..all.len() {
        if starts && is_mark(&all[at..]) {
            return Some(at);
        }
        starts = all[at] == b'\n';
    }
    None
}

/// Whether the first line is `@` alone.
fn is_mark(text: &[u8]) -> bool
    ensures { result ≡ begins_mark text.now }
{
    let (line, _rest) = first_line(text);
    line == b"@".as_slice()
}
