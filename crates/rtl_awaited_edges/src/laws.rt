//! The law of processes that are asleep (`specs/Laws.antt`), the contract of a function that does
//! nothing.

ghost use Rattle.rtl_awaited_edges.specs.Laws.{EachAsleepAssignsNothing};

/// A process assigns nothing where the edge that it awaits isn't there.
pub fn each_asleep_assigns_nothing()
    ensures { EachAsleepAssignsNothing }
{}
