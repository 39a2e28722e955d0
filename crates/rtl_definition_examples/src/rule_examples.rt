//! Small trees (`specs/rules`) on which the rules are tried: what is accepted, with its units, and
//! what is refused.

ghost use Rattle.rtl_definition_examples.specs.rules.Expressions.{OperatorsHaveTypes, NamesHaveMeanings, EdgesAskForSignals, LiteralsHaveValues};
ghost use Rattle.rtl_definition_examples.specs.rules.Declarations.{DeclarationsDeclare, ValuesAreFixed, ChoicesCover};
ghost use Rattle.rtl_definition_examples.specs.rules.Statements.{TargetsAreSignals, ProcessesAreRegions, TurnsHaveParameters, ConditionsBecomeIfs};
ghost use Rattle.rtl_definition_examples.specs.rules.Files.{UnitsAreOnce, FormalsAreAssociated, ContextsBringNames};

/// Operators, names, edge tests and literals.
pub fn expressions_have_types()
    ensures operators { OperatorsHaveTypes }
    ensures names { NamesHaveMeanings }
    ensures edges { EdgesAskForSignals }
    ensures literals { LiteralsHaveValues }
{}

/// Ports, generics and signals; the values of constants and defaults; the choices of a case.
pub fn declarations_declare()
    ensures declarations { DeclarationsDeclare }
    ensures values { ValuesAreFixed }
    ensures choices { ChoicesCover }
{}

/// Targets, processes with variables, loops and generates, conditional assignments.
pub fn statements_are_analysed()
    ensures targets { TargetsAreSignals }
    ensures processes { ProcessesAreRegions }
    ensures turns { TurnsHaveParameters }
    ensures conditions { ConditionsBecomeIfs }
{}

/// Entities and architectures, instances and components, context clauses.
pub fn files_have_units()
    ensures units { UnitsAreOnce }
    ensures instances { FormalsAreAssociated }
    ensures contexts { ContextsBringNames }
{}
