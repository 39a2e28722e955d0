//! Numbers from a least one to a greatest, both among the integers.

ghost use Rattle.std.specs.Prelude.{◌≡◌, ◌≤◌, ◌^◌};
ghost use Rattle.vhdl_expand_rules.specs.Computed.{held_in};
ghost use Rattle.vhdl_expand_rules.specs.Statements as definition;
ghost use Rattle.vhdl_expand_numbers.specs.Views.{limits_view};

use vhdl_expand_numbers::Limits;
use vhdl_expand_rules::extent;
use vhdl_tree::Direction;

/// Whether some number is one of both.
pub(crate) fn overlap(left: Limits, right: Limits) -> bool
    ensures { result ≡ definition.overlap (limits_view left) (limits_view right) }
{
    left.least <= right.greatest && right.least <= left.greatest
}

/// The nearest of these numbers.
pub(crate) fn held(limits: Limits, number: i32) -> i32
    ensures { result ≡ held_in (limits_view limits) number }
{
    number.min(limits.greatest).max(limits.least)
}

/// How many of some numbers are among all.
pub(crate) fn count_in(all: Limits, numbers: Limits) -> u64
    ensures given { result ≡ definition.count_in (limits_view all) (limits_view numbers) }
    ensures few { result ≤ 2 ^ 32 }
{
    if overlap(all, numbers) {
        extent(
            Direction::To,
            held(all, numbers.least),
            held(all, numbers.greatest),
        )
    } else {
        0
    }
}
