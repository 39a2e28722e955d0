//! Rows that lie in a list.

ghost use Rattle.std.specs.Prelude.{◌≡◌, ◌<◌, length};
ghost use Rattle.rtl_model.specs.bodies.Rows as m;
ghost use Rattle.rtl_net.specs.Bodies.{spacing_view};

use rtl_net::Spacing;

/// How many rows lie in so many elements.
pub(crate) fn row_count(spacing: Spacing, elements: usize) -> usize
    requires { elements < usize.MAX }
    ensures { result ≡ m.row_count (spacing_view spacing) elements }
{
    match elements.checked_sub(spacing.len as usize) {
        Some(further) => further.checked_div(spacing.step as usize).unwrap_or(0) + 1,
        None => 0,
    }
}

/// The row with a number.
pub(crate) fn row<T>(elements: &[T], spacing: Spacing, number: usize) -> &[T]
    requires { number < m.row_count (spacing_view spacing) (length elements.now) }
    ensures { result.now ≡ m.row (spacing_view spacing) elements.now number }
{
    let first = number * spacing.step as usize;
    &elements[first..first + spacing.len as usize]
}
