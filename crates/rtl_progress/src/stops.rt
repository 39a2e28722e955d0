//! When a stimulus says to stop.

ghost use Rattle.std.specs.Prelude.{◌≡◌, ◌≤◌, ◌∷◌, [], false, length, position, slice_index_or, IfNone, IfSome};
ghost use Rattle.std.specs.List.{position_or_len};
ghost use Rattle.rtl_stim_lines.specs.Lines as lines;
ghost use Rattle.rtl_stim_lines.specs.Lines.{words_of};
ghost use Rattle.rtl_progress.specs.Stops as stops;

use rtl_stim_lines::{Time, line_end, time_of, without_return};

/// The time in ns of the first line of a stimulus that says one to stop at; 0 where none does. It
/// takes no memory.
pub fn stop_of(text: &[u8]) -> u64
    ensures { result ≡ stops.stop_of text.now }
{
    let mut left = text;
    while let Some(end) = line_end(left) {
        if let Some(stop) = stop_in(without_return(&left[..end])) {
            return stop;
        }
        left = &left[end + 1..];
    }
    stop_in(left).unwrap_or(0)
}

/// The time at which a line says to stop, if it does.
#[tactic(auto, using(crate::proofs::Lines::none_of_more, crate::proofs::Lines::none_of_other))]
fn stop_in(line: &[u8]) -> Option<u64>
    ensures { result ≡ stops.stop_in line.now }
{
    let (keyword, behind) = first_word(line)?;
    let (time, behind) = first_word(behind)?;
    if keyword != b"stop".as_slice() {
        return None;
    }
    if first_word(behind).is_some() {
        return None;
    }
    match time_of(time)? {
        Time::At(time) => Some(time),
        Time::TooLarge => None,
    }
}

/// The first word of a line, if it has one, and what stands behind it.
fn first_word(line: &[u8]) -> Option<(&[u8], &[u8])>
    ensures none { IfNone result (words_of line.now ≡ []) }
    ensures word { IfSome result (λ cut. words_of line.now ≡ cut.0.now ∷ words_of cut.1.now) }
{
    let line = without_blanks(line);
    if line.is_empty() {
        return None;
    }
    let end = word_len(line);
    Some((&line[..end], &line[end..]))
}

/// A line without the blanks at its beginning.
fn without_blanks(line: &[u8]) -> &[u8]
    ensures words { words_of result.now ≡ words_of line.now }
    ensures begun { lines.is_blank (slice_index_or result.now 0 0) ≡ false }
{
    let mut left = line;
    while let [b' ' | b'\t', others @ ..] = left {
        left = others;
    }
    left
}

/// How many bytes stand before the first blank.
#[tactic(auto, using(crate::proofs::Lines::before_blank, crate::proofs::Lines::before_end))]
fn word_len(line: &[u8]) -> usize
    ensures len { result ≡ position_or_len lines.is_blank line.now }
    ensures within { result ≤ length line.now }
{
    match first_blank(line) {
        Some(blank) => blank,
        None => line.len(),
    }
}

/// Where the first blank stands.
fn first_blank(line: &[u8]) -> Option<usize>
    ensures { result ≡ position lines.is_blank line.now }
{
    line.iter().position(|byte| *byte == b' ' || *byte == b'\t')
}
