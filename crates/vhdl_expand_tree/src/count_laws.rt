//! A law of counts, as the contract of a function that does nothing.

ghost use Rattle.vhdl_expand_tree.specs.Counts.{EachDesignCostsItsParts};

/// A design counts what its tree of instances costs, part by part, so that a budget that is kept
/// while the tree is made is the limit of the whole.
pub fn counts_are_costs()
    ensures { EachDesignCostsItsParts }
{}
