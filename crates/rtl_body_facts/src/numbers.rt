//! Whether a number is among those of a name, and whether there are any.

ghost use Rattle.std.specs.Prelude.{◌≡◌, ◌==◌};
ghost use Rattle.std.specs.List.{list_any};
ghost use Rattle.rtl_net.specs.Indices.{numbers};
ghost use Rattle.rtl_model.specs.basics.Lists.{is_empty};

use rtl_net::Indices;

/// Whether a number is among these.
pub fn has_number(indices: &Indices, n: usize) -> bool
    ensures { result ≡ list_any (λ d. d == n) (numbers indices.now) }
{
    match indices {
        Indices::Run { first, len } => {
            let first = *first as usize;
            first <= n && n < first + *len as usize
        }
        Indices::List(listed) => listed.as_slice().iter().any(|d| *d as usize == n),
    }
}

/// Whether there are no numbers.
pub fn has_none(indices: &Indices) -> bool
    ensures { result ≡ is_empty (numbers indices.now) }
{
    match indices {
        Indices::Run { len, .. } => *len == 0,
        Indices::List(listed) => listed.as_slice().is_empty(),
    }
}
