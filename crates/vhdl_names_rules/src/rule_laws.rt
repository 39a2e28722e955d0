//! Laws in the words of a reader (`specs/laws`), each the contract of a function that does nothing.

ghost use Rattle.vhdl_names_rules.specs.laws.Choices.{ChoicesDiffer, OthersIsLast};
ghost use Rattle.vhdl_names_rules.specs.laws.Associations.{FormalsHaveActuals};
ghost use Rattle.vhdl_names_rules.specs.laws.Sound.{TargetsAreDriven, ActualsAreDriven, InstancesFitUnits};
ghost use Rattle.vhdl_names_rules.specs.laws.Files.{EntitiesStandInOrder};
ghost use Rattle.vhdl_names_rules.specs.laws.Parameters.{LoopsNumberParameters, GeneratesNumberParameters};
ghost use Rattle.vhdl_names_rules.specs.laws.Regions.{InterfaceNamesStandOnce, ArchitectureNamesStandOnce, ProcessNamesStandOnce};
ghost use Rattle.vhdl_names_rules.specs.laws.Regions.{GenerateLabelsStandOnce, InnermostIsMeant, MeaningsAreDeclared};

/// No two choices of all alternatives are the same, and `others` stands nowhere but alone in the
/// last.
pub fn choices_are_told_apart()
    ensures differ { ChoicesDiffer }
    ensures others { OthersIsLast }
{}

/// Each association is for one formal, no formal has two, and each formal has the actual of its
/// own.
pub fn formals_have_actuals()
    ensures { FormalsHaveActuals }
{}

/// No name stands twice in a region: in an interface, in an architecture with its interface and
/// labels, among a process's variables and among its labels, and among the labels of a generate's
/// statements.
pub fn names_stand_once()
    ensures interface { InterfaceNamesStandOnce }
    ensures architecture { ArchitectureNamesStandOnce }
    ensures process { ProcessNamesStandOnce }
    ensures generate { GenerateLabelsStandOnce }
{}

/// A name means what its one declaration in the innermost region that has one is, and nothing that
/// isn't declared in sight.
pub fn innermost_is_meant()
    ensures innermost { InnermostIsMeant }
    ensures declared { MeaningsAreDeclared }
{}

/// The units of a file are its entities in order of the text, each of a name of its own, each with
/// one architecture at most, which stands after it.
pub fn entities_stand_in_order()
    ensures { EntitiesStandInOrder }
{}

/// No target, and no actual of an out port, is an in port.
pub fn no_in_port_is_driven()
    ensures targets { TargetsAreDriven }
    ensures actuals { ActualsAreDriven }
{}

/// An instance is of a unit of the file, and has an entry for each of that unit's generics and
/// ports.
pub fn instances_fit_units()
    ensures { InstancesFitUnits }
{}

/// The parameters of the loops, and of the generates, round a place are numbered from the outermost
/// on.
pub fn parameters_are_numbered()
    ensures loops { LoopsNumberParameters }
    ensures generates { GeneratesNumberParameters }
{}
