//! Laws of expansion in the words of a reader (`specs/laws`), each the contract of a function that
//! does nothing.

ghost use Rattle.vhdl_expand_rules.specs.laws.Bytes.{EachBodyIsToldAtItsBytes, EachProcessIsToldAtItsBytes, EachDesignIsToldAtBytesOfUnits};
ghost use Rattle.vhdl_expand_rules.specs.laws.Expressions.{EachNameFits, EachVectorFits, EachValueFits, EachTestFits};
ghost use Rattle.vhdl_expand_rules.specs.laws.Labels.{EachTreeIsNamed};
ghost use Rattle.vhdl_expand_rules.specs.laws.Lengths.{EachDesignFits};
ghost use Rattle.vhdl_expand_rules.specs.laws.Statements.{EachBodyFits};
ghost use Rattle.vhdl_expand_rules.specs.laws.Trees.{EachTreeIsSound};

/// Each object of a tree starts with as many values as it has elements, and an associated port is
/// as long as its actual.
pub fn lengths_agree()
    ensures { EachDesignFits }
{}

/// A name and an expression that stand soundly in a unit are expanded to ones that fit: each
/// element is there and of its type, and each length is one that a vector can have.
pub fn expressions_fit()
    ensures names { EachNameFits }
    ensures vectors { EachVectorFits }
    ensures values { EachValueFits }
    ensures tests { EachTestFits }
{}

/// A body that stands soundly in a unit is expanded to one that fits.
pub fn bodies_fit()
    ensures { EachBodyFits }
{}

/// A tree that is expanded from sound units is sound: objects start with values of their types,
/// actuals are of the types of their ports, no in port is driven, and the body of a process fits
/// and assigns what the process drives.
pub fn trees_are_sound()
    ensures { EachTreeIsSound }
{}

/// Names and labels of a tree have a letter, where those of its units have.
pub fn trees_are_named()
    ensures { EachTreeIsNamed }
{}

/// What is refused of a body, of a process or of units is told at one of their bytes, or at 0.
pub fn refusals_stand_in_the_units()
    ensures bodies { EachBodyIsToldAtItsBytes }
    ensures processes { EachProcessIsToldAtItsBytes }
    ensures designs { EachDesignIsToldAtBytesOfUnits }
{}
