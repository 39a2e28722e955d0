//! What codes and values amount to. These functions do nothing: their contracts are the laws.

ghost use Rattle.rtl_vcd.specs.Laws.{CodesDiffer, PrintAsSaid};

/// Every name has a code of its own (IEEE 1364-2005, 18.2.3.2).
pub fn codes_differ()
    ensures { CodesDiffer }
{}

/// Codes, digits and changes on examples.
pub fn print_as_said()
    ensures { PrintAsSaid }
{}
