//! Laws of elaborated netlists in the words of rtl_net (`specs`), each the contract of a function
//! that does nothing.

ghost use Rattle.vhdl_elab_rules.specs.Named.{EachHasItsNames};
ghost use Rattle.vhdl_elab_rules.specs.Nets.{EachElaboratedIsNet};
ghost use Rattle.vhdl_elab_rules.specs.Prefixes.{EachTreeIsDotted};

/// A netlist that shows what is elaborated from sound and named units, and whose processes list
/// what their bodies read, meets all that holds of every `Net`.
pub fn elaborated_are_nets()
    ensures { EachElaboratedIsNet }
{}

/// Nets and processes have the names that rtl_net makes of the scopes, signals and processes of a
/// netlist that shows them.
pub fn names_are_alike()
    ensures { EachHasItsNames }
{}

/// Before a process of named units the labels of generates are joined by dots, with one behind them
/// where there are any.
pub fn prefixes_end_in_dots()
    ensures { EachTreeIsDotted }
{}
