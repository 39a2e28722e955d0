//! Laws of soundness (`specs/Laws`), each the contract of a function that does nothing.

ghost use Rattle.vhdl_names_laws.specs.Laws.{ExpressionsFit, StatementsFit, UnitsAreSound, PortsAreDistinct, UnitsAreNamed};
ghost use Rattle.vhdl_names_laws.specs.Laws.{SmallPortsAreDistinct, SpelledFilesHaveWords, ComponentsAreTexts};
ghost use Rattle.vhdl_names_laws.specs.Laws.{WellTypedFilesBreakNoRule, IllTypedFilesBreakARule};
ghost use Rattle.vhdl_names_laws.specs.Laws.{FaultsStandAtTokens, FaultsLieInTheText, UnitsStandAtTokens, UnitsLieInTheText};

/// Each expression is what its type says: integers are in range, vectors have the shape of their
/// kind, literals of an enumeration are below its count, and tests compare values of one shape.
pub fn expressions_are_sound()
    ensures { ExpressionsFit }
{}

/// Each sequential statement fits: targets are driven and given values of their shape, selectors
/// have the shape of their choices, and conditions and ranges fit.
pub fn statements_are_sound()
    ensures { StatementsFit }
{}

/// The units of a file are sound, where the file is well formed, as the parser gives it: an
/// enumeration has a literal.
pub fn units_are_sound()
    ensures { UnitsAreSound }
{}

/// The ports of each entity have names of their own.
pub fn ports_have_names_of_their_own()
    ensures { PortsAreDistinct }
{}

/// Where each identifier of a file is a word, each name and label of its units has a letter, and no
/// two ports of an entity have one name, whatever the case of its letters.
pub fn units_are_named()
    ensures named { UnitsAreNamed }
    ensures ports { SmallPortsAreDistinct }
{}

/// Each identifier of a file that the tokens of a text spell, as the parser's do, is a word: it has
/// a letter, and its letters are small.
pub fn spelled_files_have_words()
    ensures { SpelledFilesHaveWords }
{}

/// A component spells its entity's generics and ports, token for token apart from case: every
/// optional word, default and bound stands in both.
pub fn components_are_texts()
    ensures { ComponentsAreTexts }
{}

/// A well-typed file breaks no rule of `vhdl_names_rules`: none of them asks for more than the
/// language does.
pub fn well_typed_files_break_no_rule()
    ensures { WellTypedFilesBreakNoRule }
{}

/// A file that isn't well typed breaks a rule of `vhdl_names_rules`: no rule of the language is
/// left out there, and the first has a problem and a byte.
pub fn ill_typed_files_break_a_rule()
    ensures { IllTypedFilesBreakARule }
{}

/// A fault of names is told at the byte at which a token of the file starts, and so inside its
/// text.
pub fn faults_lie_in_the_text()
    ensures token { FaultsStandAtTokens }
    ensures text { FaultsLieInTheText }
{}

/// What the units of a file have starts at a byte at which a token of the file starts, and so
/// inside its text.
pub fn units_lie_in_the_text()
    ensures token { UnitsStandAtTokens }
    ensures text { UnitsLieInTheText }
{}
