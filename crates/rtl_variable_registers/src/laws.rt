//! Laws of variables that are kept by nets (`specs/Laws`), each the contract of a function that
//! does nothing.

ghost use Rattle.rtl_variable_registers.specs.Laws.{EachRunsAlike, NothingIsStored};
ghost use Rattle.rtl_variable_registers.specs.Laws.{EachKeepsItsTiming, EachClockedIsKept};
ghost use Rattle.rtl_variable_registers.specs.Laws.{EachClockedIsRegister};
ghost use Rattle.rtl_variable_registers.specs.Laws.{EachKnownResetIsRegister, EachStraightSets, EachKeptIsNeeded};
ghost use Rattle.rtl_variable_registers.specs.Laws.{WhatIsNoRegisterStays, WhatKeepsNoneStays};
ghost use Rattle.rtl_variable_registers.specs.Laws.{EachStandsWhereItDid, EachIsSoundStill};
ghost use Rattle.rtl_variable_registers.specs.Laws.{WhatIsAcceptedStays};
ghost use Rattle.rtl_variable_registers.specs.Beside.{EachStaysBeside};
ghost use Rattle.rtl_variable_registers.specs.Whole.{EachSettlesAlike};

/// Each run of a process whose variables are kept by nets does what the process does by itself,
/// whose variables keep their values.
pub fn runs_are_alike()
    ensures { EachRunsAlike }
{}

/// A register whose variables are kept reads no variable that it hasn't assigned.
pub fn nothing_is_stored()
    ensures { NothingIsStored }
{}

/// A register whose variables are kept has its edge and its reset.
pub fn timing_is_kept()
    ensures { EachKeepsItsTiming }
{}

/// A process that was clocked is clocked by the same edge, and reset alike, by constants.
pub fn clocked_is_kept()
    ensures { EachClockedIsKept }
{}

/// A clocked process is a register, but where its reset looks at a variable that isn't known.
pub fn clocked_is_register()
    ensures { EachClockedIsRegister }
{}

/// So is a process with an edge and a reset, first or behind, whose reset assigns what is known to
/// signals and variables, and does nothing else.
pub fn known_reset_is_register()
    ensures { EachKnownResetIsRegister }
{}

/// Code without ifs and cases assigns on some path what it assigns on every path.
pub fn straight_sets()
    ensures { EachStraightSets }
{}

/// A variable that is kept has an element that the edge looks at before it assigns it, or that the
/// reset sets.
pub fn kept_is_needed()
    ensures { EachKeptIsNeeded }
{}

/// A process that is no register keeps no variable, and stays as it is.
pub fn no_register_stays()
    ensures { WhatIsNoRegisterStays }
{}

/// A process of which no variable is kept, and that stores none, stays as it is.
pub fn keeps_none_stays()
    ensures { WhatKeepsNoneStays }
{}

/// The nets, drivers and processes that there were keep their numbers, and a kept element has a net
/// of its own.
pub fn stands_where_it_did()
    ensures { EachStandsWhereItDid }
{}

/// A netlist in range and connected is so where its variables are kept.
pub fn kept_is_sound()
    ensures { EachIsSoundStill }
{}

/// A netlist that the checker accepts has no variable to keep.
pub fn accepted_stays()
    ensures { WhatIsAcceptedStays }
{}

/// The standard's run of a netlist, whose processes keep their variables, and the run of the
/// netlist whose variables are kept stay beside each other, step by step.
pub fn stays_beside()
    ensures { EachStaysBeside }
{}

/// What the netlist whose variables are kept settles in at each moment, the standard's simulation
/// settles in.
pub fn settles_alike()
    ensures { EachSettlesAlike }
{}
