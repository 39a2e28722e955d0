//! A law over where assignments are left out.

ghost use Rattle.rtl_latches.specs.Laws.{EachLatchHasAPlace};

/// Where a body has an assignment in it, and doesn't assign on every path, there is a place that
/// leaves it out.
pub fn each_latch_has_a_place()
    ensures { EachLatchHasAPlace }
{}
