//! Blanks in place of what is taken out.

ghost use Rattle.std.specs.Prelude.{◌≡◌};
ghost use Rattle.vhdl_lexer.specs.Extents.{blank, blanked};

use vhdl_lexer::Extent;

/// Puts blanks in place of the bytes of an extent. What ends a line stays, so that what is left
/// stands at its byte, line and column.
pub(crate) fn blank_out(extent: Extent, left: &mut [u8])
    ensures { left.new ≡ blanked extent left.old }
{
    let end = left.len().min(extent.end as usize);
    let mut at = extent.start as usize;
    while at < end {
        left[at] = blank(left[at]);
        at += 1;
    }
}

/// A blank; what ends a line stays.
fn blank(byte: u8) -> u8
    ensures { result ≡ blank byte }
{
    if matches!(byte, b'\n'..=b'\r') {
        byte
    } else {
        b' '
    }
}
