//! The laws of running processes one by one (`specs/Laws.antt`), each the contract of a function
//! that does nothing.

ghost use Rattle.rtl_levels.specs.Laws.{EachStaysSettled, EachRunSettles, EachStartIsTaken};
ghost use Rattle.rtl_levels.specs.Laws.{EachEdgeIsTaken, EachResetIsKept, EachMachineGoesOnAlike};

/// A driver's net stays settled where neither what the driver looks at nor the net itself changes.
/// A run settles of its process what looks at nothing that the run changes, and leaves settled
/// whatever looks at nothing of that.
pub fn each_run_settles()
    ensures stays { EachStaysSettled }
    ensures settles { EachRunSettles }
{}

/// A run of a clocked process from what all nets start with, and the first inputs, gives what its
/// registers start with, once its reset has been read in the first valuation too.
pub fn each_start_is_taken()
    ensures { EachStartIsTaken }
{}

/// A run of a clocked process from the settled values, with the new inputs, gives what its
/// registers have next, once its reset has been read in the next valuation too; where neither its
/// edge comes nor its reset's net changes at once, what they have gives it. Resets are kept from
/// the first valuation on.
pub fn each_edge_is_taken()
    ensures edges { EachEdgeIsTaken }
    ensures resets { EachResetIsKept }
{}

/// What begins as the machine does, and goes on by its steps, is its run.
pub fn each_machine_goes_on_alike()
    ensures { EachMachineGoesOnAlike }
{}
