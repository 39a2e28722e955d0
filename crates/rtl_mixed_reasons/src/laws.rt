//! A law over reasons.

ghost use Rattle.rtl_mixed_reasons.specs.Laws.{EachMixedHasAReason};

/// A process has a reason exactly where it is neither clocked nor combinational.
pub fn each_mixed_has_a_reason()
    ensures { EachMixedHasAReason }
{}
