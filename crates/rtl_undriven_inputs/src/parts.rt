//! The lines of a text.

ghost use Rattle.std.specs.Prelude.{◌≡◌, map, IfOk, if◌then◌else◌};
ghost use Rattle.std.specs.List.{slice_split};
ghost use Rattle.rtl_stim_lines.specs.Lines as lines;

use rtl_net::NoMemory;
use rtl_stim_lines::without_return;
use std::alloc::Global;

/// The parts of a text between line feeds.
pub(crate) fn parts_of<'a>(alloc: Global, text: &'a [u8]) -> Result<Vec<&'a [u8]>, NoMemory>
    ensures { IfOk result (λ parts. map (λ part. part.now) parts.items ≡ slice_split lines.ends_line text.now) }
{
    text.split(|byte| *byte == b'\n').collect(alloc)
}

/// A part as a line: the last has no line feed behind it.
pub(crate) fn line_of(part: &[u8], is_last: bool) -> &[u8]
    ensures { result.now ≡ (if is_last then part.now else lines.without_return part.now) }
{
    if is_last { part } else { without_return(part) }
}
