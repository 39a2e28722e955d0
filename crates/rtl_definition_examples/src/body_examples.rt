//! Examples about bodies: what they assign, read and store, of what kind they are, and wrong
//! definitions of what they do.

ghost use Rattle.rtl_definition_examples.specs.Bodies.{KindsOfBodies, KindsOfResets, AssignsOfBodies, RunsOfBodies};
ghost use Rattle.rtl_definition_examples.specs.Bodies.{VariablesOfBodies, StoresOfBodies, ReadsOfBodies};
ghost use Rattle.rtl_definition_examples.specs.Counter.{CounterCounts};
ghost use Rattle.rtl_definition_examples.specs.BodyMistakes.{LatchWouldPass, DefaultWouldStay, TestWouldBeRising};
ghost use Rattle.rtl_definition_examples.specs.Looking.{LooksOfBodies, LooksAtNoLess};
ghost use Rattle.rtl_definition_examples.specs.Variables.{VariablesOfNets, VariableWouldBeKept, StoredWouldPass};

/// What is clocked, with a reset and without, what is combinational, and what is neither.
pub fn kinds_of_bodies()
    ensures kinds { KindsOfBodies }
    ensures resets { KindsOfResets }
{}

/// What small bodies assign on every syntactic path.
pub fn assigns_of_bodies()
    ensures { AssignsOfBodies }
{}

/// What runs of small bodies assign.
pub fn runs_of_bodies()
    ensures { RunsOfBodies }
{}

/// What small bodies do with variables, and which they store.
pub fn variables_of_bodies()
    ensures runs { VariablesOfBodies }
    ensures stores { StoresOfBodies }
{}

/// What a body with every form of expression, test and statement reads.
pub fn reads_of_bodies()
    ensures { ReadsOfBodies }
{}

/// A counter as a flat netlist is in range, connected and accepted, and its simulation counts.
pub fn counter_counts()
    ensures { CounterCounts }
{}

/// Wrong definitions of what bodies do break the laws on small bodies.
pub fn body_mistakes()
    ensures latch { LatchWouldPass }
    ensures default { DefaultWouldStay }
    ensures rising { TestWouldBeRising }
{}

/// What drivers look at in small bodies, and that their entries follow from no less.
pub fn looks_of_bodies()
    ensures looks { LooksOfBodies }
    ensures no_less { LooksAtNoLess }
{}

/// What processes with variables settle in, and which variables they store.
pub fn variables_of_nets()
    ensures { VariablesOfNets }
{}

/// A variable that keeps its value from run to run, and an if without else that counts as assigning
/// a variable, differ from the right definitions, and with them a law would fail.
pub fn variable_mistakes()
    ensures kept { VariableWouldBeKept }
    ensures stored { StoredWouldPass }
{}
