//! The faults of a source behind its first, found.

ghost use Rattle.std.specs.Prelude.{◌≡◌, ◌++◌, ◌==◌, if◌then◌else◌, IfOk, is_ok, map, option_map, option_to_list};
ghost use Rattle.vhdl_parser_rules.specs.Expected.{expected_of};
ghost use Rattle.rtlsim_refusals.specs.Explained.{told_view};
ghost use Rattle.vhdl_slips.specs.Words.{read_of};
ghost use Rattle.rtlsim_command_faults.specs.Behind.{Behind};
ghost use Rattle.rtlsim_command_faults.specs.Further as spec;
ghost use Rattle.rtlsim_command_faults.specs.Next.{Adds, sought_of};
ghost use Rattle.vhdl_source_files.specs.Files.{file_view};
ghost use Rattle.vhdl_lexer.specs.Cut.{Cuts};
ghost use Rattle.vhdl_front_rules.specs.Asking.{asked_view};

use crate::faults::Fault;
use crate::next::{Next, next_fault};
use crate::reports::name_report;
use crate::syntax::find_grammar;
use fault_rules::Report;
use rtlsim_refusals::{Lexed, Told, told_source};
use std::alloc::{AllocError, Global};
use vhdl_front_rules::{Asked, Front};
use vhdl_lexer::{Language, Token, lex};
use vhdl_names_further::is_known;
use vhdl_names_rules::NameFault;
use vhdl_parser_rules::Expected;
use vhdl_source_files::SourceFile;

/// The most faults that are told of a source, its first among them.
pub(crate) const MOST_TOLD: u32 = 20;

/// How many times a source is read once more at most.
const MOST_STEPS: u32 = 100;

/// How a search for faults ends.
#[derive(Clone, Copy)]
pub(crate) enum End {
    /// There are no more.
    Whole,
    /// There are more than are told, or no more are looked for.
    More,
    /// Memory was refused.
    NoMemory,
}

/// What faults are looked for in.
#[derive(Clone, Copy)]
pub(crate) struct Search<'s, 'f> {
    pub files: &'s [SourceFile<'f>],
    pub asked: Asked<'s>,
    pub tokens: &'s [Token],
}

/// Finds the faults of a source behind its first, and appends what is told of them: behind one of
/// grammar, or of names and types, the further ones.
pub(crate) fn find_further<'f, F: Front>(
    alloc: Global,
    files: &[SourceFile<'f>],
    asked: Asked<'_>,
    first: &Fault,
    told: &mut Vec<Told<'f>>,
) -> End
    ensures { Adds (Behind (map file_view files.now) (asked_view asked.entry) first.now)
        (map told_view told.old.items) (map told_view told.new.items) result }
{
    match first {
        Fault::Syntax(first) => find_grammar(alloc, files, asked, first.byte(), told),
        Fault::Name(first) => find_names::<F>(alloc, files, asked, *first, told),
        _ => End::Whole,
    }
}

/// Finds the faults of names and types of a source behind its first.
fn find_names<'f, F: Front>(
    alloc: Global,
    files: &[SourceFile<'f>],
    asked: Asked<'_>,
    first: NameFault,
    told: &mut Vec<Told<'f>>,
) -> End
    ensures { Adds (spec.NamesBehind (map file_view files.now) (asked_view asked.entry) first)
        (map told_view told.old.items) (map told_view told.new.items) result }
{
    let Ok(tokens) = lex(alloc, asked.source) else {
        return End::NoMemory;
    };
    let Ok(left) = Vec::from_slice(alloc, asked.source) else {
        return End::NoMemory;
    };
    let search = Search {
        files,
        asked,
        tokens: &tokens,
    };
    find_behind::<F>(alloc, &search, left, first, MOST_STEPS, MOST_TOLD - 1, told)
}

/// Finds the faults behind one of what is left of the source, in so many readings and so many of
/// them at most.
fn find_behind<'f, F: Front>(
    alloc: Global,
    search: &Search<'_, 'f>,
    left: Vec<u8>,
    fault: NameFault,
    steps: u32,
    more: u32,
    told: &mut Vec<Told<'f>>,
) -> End
    requires { Cuts None 0 search.now.asked.source.now search.now.tokens.now }
    ensures { Adds (spec.Further (sought_of search.now) steps more left.items fault)
        (map told_view told.old.items) (map told_view told.new.items) result }
{
    if is_none(steps) {
        return End::More;
    }
    match next_fault::<F>(alloc, search.asked, search.tokens, left, fault) {
        Next::Found { left, fault } => {
            if is_known(search.asked.source, search.tokens, &left, fault) {
                return find_behind::<F>(alloc, search, left, fault, steps - 1, more, told);
            }
            if is_none(more) {
                return End::More;
            }
            let lexed = Lexed {
                text: search.asked.source,
                tokens: search.tokens,
            };
            match push_report(
                alloc,
                search.asked.language,
                search.files,
                lexed,
                Expected::Nothing,
                name_report(fault),
                told,
            ) {
                Ok(()) => {
                    find_behind::<F>(alloc, search, left, fault, steps - 1, more - 1, told)
                }
                Err(_refused) => End::NoMemory,
            }
        }
        Next::Nothing => End::Whole,
        Next::NoMemory => End::NoMemory,
    }
}

pub(crate) fn is_none(count: u32) -> bool
    ensures { result ≡ (count == 0) }
{
    count == 0
}

/// Appends what is told of a report on a source that has these tokens and is read in a language.
pub(crate) fn push_report<'f>(
    alloc: Global,
    language: Language,
    files: &[SourceFile<'f>],
    source: Lexed<'_>,
    expected: Expected,
    report: Option<Report>,
    told: &mut Vec<Told<'f>>,
) -> Result<(), AllocError>
    ensures { map told_view told.new.items
        ≡ (if is_ok result then map told_view told.old.items
        ++ option_to_list (spec.told_of language (map file_view files.now) (read_of source.entry)
        (expected_of expected) report)
        else map told_view told.old.items) }
{
    match told_of(alloc, language, files, source, expected, report)? {
        Some(one) => Ok(told.push(one)?),
        None => Ok(()),
    }
}

/// What is told of a report on a source that has these tokens and is read in a language, if there
/// is one.
pub(crate) fn told_of<'f>(
    alloc: Global,
    language: Language,
    files: &[SourceFile<'f>],
    source: Lexed<'_>,
    expected: Expected,
    report: Option<Report>,
) -> Result<Option<Told<'f>>, AllocError>
    ensures { IfOk result (λ told. option_map told_view told
        ≡ spec.told_of language (map file_view files.now) (read_of source.entry) (expected_of expected) report) }
{
    match report {
        Some(report) => told_source(alloc, language, files, source, expected, report),
        None => Ok(None),
    }
}
