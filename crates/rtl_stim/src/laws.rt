//! The laws of moments, over `specs/Moments.antt`.

ghost use Rattle.rtl_stim.specs.Edges.{TimesShowRaces};
ghost use Rattle.rtl_stim.specs.Moments.{EachBeginsAtZero, EachMomentFollows};

/// The first moment of a stimulus is 0. Where an agenda is filled for a moment, its least time is
/// the next one, and its changes lead from the inputs at the moment to those at the next; where no
/// time waits, the moment is the last.
pub fn agenda_gives_moments()
    ensures first { EachBeginsAtZero }
    ensures follows { EachMomentFollows }
{}

/// The races under a stimulus are those of its times: at each moment after the first the inputs go
/// from what they are right before its time to what they are then, and at no other time anything
/// changes.
pub fn times_show_races()
    ensures { TimesShowRaces }
{}
