//! Small designs (`specs/designs`) on which the definitions are tried: their netlists, and what is
//! refused.

ghost use Rattle.rtl_definition_examples.specs.designs.Bodies.{ConditionsBecomeTests, ConditionsAreTold, NumbersBecomeConstants, DefaultsAreTaken};
ghost use Rattle.rtl_definition_examples.specs.designs.Designs.{CounterHasItsNet, InvertersAreJoined, IdlePortsHoldTheirDefaults, LoopsAreUnrolled};
ghost use Rattle.rtl_definition_examples.specs.designs.Refusals.{IntegersHaveValues, TopsAreThere, LengthsAgree, FirstRulesAreTold, TurnsAreWithin};
ghost use Rattle.rtl_definition_examples.specs.designs.Refusals.{ActualsFit, SourcesAreCounted, VariablesAreNumbered, VariablesAreTold};

/// A counter, two inverters under a generate, an idle out port, loops and variables.
pub fn designs_have_nets()
    ensures counter { CounterHasItsNet }
    ensures inverters { InvertersAreJoined }
    ensures idle { IdlePortsHoldTheirDefaults }
    ensures loops { LoopsAreUnrolled }
    ensures variables { VariablesAreNumbered }
{}

/// Conditions, numbers beside vectors, generics, conditional generates, and what nets start with.
pub fn bodies_are_expanded()
    ensures tests { ConditionsBecomeTests }
    ensures conditions { ConditionsAreTold }
    ensures numbers { NumbersBecomeConstants }
    ensures defaults { DefaultsAreTaken }
{}

/// Static integers, tops and generics, lengths and indices, turns, associations, sources and
/// variables: what is told, and where.
pub fn broken_designs_are_refused()
    ensures integers { IntegersHaveValues }
    ensures tops { TopsAreThere }
    ensures lengths { LengthsAgree }
    ensures order { FirstRulesAreTold }
    ensures turns { TurnsAreWithin }
    ensures actuals { ActualsFit }
    ensures sources { SourcesAreCounted }
    ensures variables { VariablesAreTold }
{}
