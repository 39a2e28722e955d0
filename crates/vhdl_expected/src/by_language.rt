//! Tables that differ by the language.

ghost use Rattle.std.specs.Prelude.{◌≡◌};
ghost use Rattle.vhdl_expected.specs.Told as spec;

use crate::row::Row;
use vhdl_lexer::Language;

/// The table of a language.
pub(crate) fn told_in(
    language: Language,
    narrow: &'static [Row],
    wide: &'static [Row],
) -> &'static [Row]
    ensures { spec.rows_of result ≡ spec.told_in language (spec.rows_of narrow.entry) (spec.rows_of wide.entry) }
{
    match language {
        Language::Profile => narrow,
        Language::Wide => wide,
    }
}
