//! Lines of known designs: what is printed of their netlists and of the checker's verdicts.

ghost use Rattle.rtl_definition_examples.specs.Listing.{CounterIsListed, CounterIsReported, LoopIsListed, LevelIsListed, LinesAreAsSaid};

/// What is printed of a counter and of the checker's verdict on it.
pub fn counter_is_listed()
    ensures net { CounterIsListed }
    ensures verdict { CounterIsReported }
{}

/// Faults, levels, sources and starts on examples.
pub fn lines_are_as_said()
    ensures faults { LoopIsListed }
    ensures levels { LevelIsListed }
    ensures lines { LinesAreAsSaid }
{}
