//! The lowest of some nets that is wanted.

ghost use Rattle.std.specs.Prelude.{◌≡◌};
ghost use Rattle.rtl_seen_nets.specs.Lowest as spec;

/// The lower of two nets, where there are two.
pub(crate) fn lower(left: Option<usize>, right: Option<usize>) -> Option<usize>
    ensures { result ≡ spec.lower left right }
{
    match (left, right) {
        (None, _) => right,
        (_, None) => left,
        (Some(left), Some(right)) => Some(left.min(right)),
    }
}

/// A net, if it is wanted.
pub(crate) fn if_wanted(wanted: &[bool], net: usize) -> Option<usize>
    ensures { result ≡ spec.if_wanted wanted.now net }
{
    if net < wanted.len() && wanted[net] {
        Some(net)
    } else {
        None
    }
}
