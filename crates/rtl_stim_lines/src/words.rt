//! The words of a line.

ghost use Rattle.std.specs.Prelude.{◌≡◌, map, IfOk};
ghost use Rattle.rtl_stim_lines.specs.Lines as lines;

use std::alloc::{AllocError, Global};

/// The words of a line, which spaces and tabs separate.
pub fn words_of<'a>(alloc: Global, line: &'a [u8]) -> Result<Vec<&'a [u8]>, AllocError>
    ensures { IfOk result (λ words. map (λ word. word.now) words.items ≡ lines.words_of line.now) }
{
    line.split(|byte| *byte == b' ' || *byte == b'\t')
        .filter(|part| !part.is_empty())
        .collect(alloc)
}

/// Whether a line of these words says nothing: it is blank, or a comment.
pub fn says_nothing(words: &[&[u8]]) -> bool
    ensures { result ≡ lines.says_nothing (map (λ word. word.now) words.now) }
{
    match words {
        [] => true,
        [[first, ..], ..] => *first == b'#',
        _ => false,
    }
}

/// A line that a line feed ends, without the carriage return before that.
pub fn without_return(line: &[u8]) -> &[u8]
    ensures { result.now ≡ lines.without_return line.now }
{
    match line {
        [front @ .., b'\r'] => front,
        _ => line,
    }
}
