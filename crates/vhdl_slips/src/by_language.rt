//! The words at which forms begin that a language hasn't, and slips of the pen.

ghost use Rattle.std.specs.Prelude.{◌≡◌, map};
ghost use Rattle.vhdl_slips.specs.Forms as spec;

use crate::form::FormWord;
use crate::table::{
    AGGREGATES, BEGUN, CONDITIONS, DECLARED, DEFAULTS, ELEMENTS, ENDED, FUNCTIONS, LISTS, LOGICAL,
    NUMBERS, OTHER_TYPES, PLACES, RELATIONS, SHIFTS, SIGNS, STATEMENTS, STATIC, TARGETS, TYPES,
    UNITS, VALUES, VARIABLES, WAITS, WIDE_AGGREGATES, WIDE_DECLARED, WIDE_DEFAULTS, WIDE_ELEMENTS,
    WIDE_NUMBERS, WIDE_PLACES, WIDE_STATIC, WIDE_VALUES,
};
use vhdl_lexer::Language;

/// The words at which slips of the pen are told.
pub(crate) fn slips(language: Language) -> [&'static [FormWord]; 7]
    ensures { map spec.words_of result ≡ spec.slips language }
{
    [
        &BEGUN,
        &CONDITIONS,
        &LISTS,
        &TARGETS,
        &SIGNS,
        &VARIABLES,
        told_in(language, &DECLARED, &WIDE_DECLARED),
    ]
}

/// The words at which a form begins that the grammar hasn't, where none of these slips is told.
pub(crate) fn unread(language: Language) -> [&'static [FormWord]; 9]
    ensures { map spec.words_of result ≡ spec.unread language }
{
    [
        told_in(language, &STATIC, &WIDE_STATIC),
        told_in(language, &AGGREGATES, &WIDE_AGGREGATES),
        &TYPES,
        &UNITS,
        &WAITS,
        &STATEMENTS,
        &LOGICAL,
        &SHIFTS,
        &ENDED,
    ]
}

/// The names of packages, types and attributes that are left out.
pub(crate) fn left_out(language: Language) -> [&'static [FormWord]; 8]
    ensures { map spec.words_of result ≡ spec.left_out language }
{
    [
        told_in(language, &VALUES, &WIDE_VALUES),
        told_in(language, &ELEMENTS, &WIDE_ELEMENTS),
        &RELATIONS,
        &FUNCTIONS,
        told_in(language, &NUMBERS, &WIDE_NUMBERS),
        &OTHER_TYPES,
        told_in(language, &PLACES, &WIDE_PLACES),
        told_in(language, &DEFAULTS, &WIDE_DEFAULTS),
    ]
}

/// The table of a language.
fn told_in(
    language: Language,
    narrow: &'static [FormWord],
    wide: &'static [FormWord],
) -> &'static [FormWord]
    ensures { spec.words_of result ≡ spec.told_in language (spec.words_of narrow.entry) (spec.words_of wide.entry) }
{
    match language {
        Language::Profile => narrow,
        Language::Wide => wide,
    }
}
