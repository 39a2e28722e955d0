//! Long lines, cut round a byte.

ghost use Rattle.std.specs.Prelude.{◌≡◌, ◌++◌};
ghost use Rattle.vhdl_source_files.specs.Cutting as spec;

/// A line, in two halves that meet at the byte at which a fault is told.
#[derive(Clone, Copy)]
pub struct CutLine<'a> {
    /// `..` where something is left out before the first half.
    pub cut: &'static [u8],
    /// What is shown before the byte.
    pub before: &'a [u8],
    /// What is shown from the byte on.
    pub after: &'a [u8],
    /// `..` where something is left out behind the second half.
    pub more: &'static [u8],
}

/// A line that has these halves, as it is shown: whole, or where it has more than 200 bytes at most
/// 100 of each half.
pub fn cut_line<'a>(before: &'a [u8], after: &'a [u8]) -> CutLine<'a>
    ensures before { spec.before_text result ≡ spec.shown_before before.now after.now }
    ensures after { spec.after_text result ≡ spec.shown_after before.now after.now }
{
    let is_long = before.len() + after.len() > 200;
    let (cut, before) = cut_before(is_long, before);
    let (after, more) = cut_after(is_long, after);
    CutLine {
        cut,
        before,
        after,
        more,
    }
}

/// The first half, with `..` where something is left out before it.
fn cut_before(is_long: bool, before: &[u8]) -> (&'static [u8], &[u8])
    ensures { result.0.now ++ result.1.now ≡ spec.cut_before is_long before.now }
{
    if is_long && before.len() > 100 {
        (b"..", &before[before.len() - 98..])
    } else {
        (b"", before)
    }
}

/// The second half, with `..` where something is left out behind it.
fn cut_after(is_long: bool, after: &[u8]) -> (&[u8], &'static [u8])
    ensures { result.0.now ++ result.1.now ≡ spec.cut_after is_long after.now }
{
    if is_long && after.len() > 100 {
        (&after[..98], b"..")
    } else {
        (after, b"")
    }
}
