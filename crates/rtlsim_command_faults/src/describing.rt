//! The faults of a source that is refused, as an object.

ghost use Rattle.std.specs.Prelude.{◌≡◌, ◌⊎◌, IfOk, map, option_map};
ghost use Rattle.rtlsim_refusals.specs.Explained.{told_of_refusal, told_view};
ghost use Rattle.rtlsim_command_faults.specs.Further.{told_by};
ghost use Rattle.rtlsim_command_faults.specs.Refusal as spec;
ghost use Rattle.vhdl_source_files.specs.Files.{file_view};
ghost use Rattle.rtlsim_findings_text.specs.Refusals.{refused_text};
ghost use Rattle.vhdl_front_rules.specs.Asking.{asked_view};

use crate::expecting::expected_by;
use crate::faults::Fault;
use crate::reports::{elab_report, lex_report, name_report, syntax_report};
use crate::search::{End, find_further, told_of};
use byte_streams::{Sink, push_text};
use fault_rules::Report;
use rtlsim_findings_text::refused_text;
use rtlsim_refusals::{Lexed, Told, told_refusal};
use std::alloc::{AllocError, Global};
use vhdl_front_rules::{Asked, Front, SourceFault};
use vhdl_lexer::{Language, lex};
use vhdl_source_files::SourceFile;

/// Writes the object of a source that is refused: what is told of its first fault, and of those
/// behind it that `push_further_faults` tells. Answers that fault; or the want of memory, where
/// nothing was written. It takes memory as `push_further_faults` does, and for the text.
pub fn describe_refusal<F: Front, S: Sink>(
    alloc: Global,
    files: &[SourceFile<'_>],
    asked: Asked<'_>,
    fault: SourceFault,
    out: &mut S,
) -> SourceFault
    ensures fault { (result ≡ fault) ⊎ (result ≡ SourceFault.NoMemory) }
    ensures described { spec.Describes (map file_view files.now) (asked_view asked.entry) result (S.state out.old)
        (S.state out.new) }
{
    match object_of::<F>(alloc, files, asked, &Fault::from(fault)) {
        Ok(object) => {
            push_text(out, &object);
            fault
        }
        Err(_refused) => SourceFault::NoMemory,
    }
}

/// The object.
fn object_of<F: Front>(
    alloc: Global,
    files: &[SourceFile<'_>],
    asked: Asked<'_>,
    first: &Fault,
) -> Result<Vec<u8>, AllocError>
    ensures { IfOk result (λ object.
        spec.IsObject (map file_view files.now) (asked_view asked.entry) first.now object.items) }
{
    let told = told_of_all::<F>(alloc, files, asked, first)?;
    refused_text(alloc, &told)
}

/// What is told of the first fault and of those behind it.
fn told_of_all<'f, F: Front>(
    alloc: Global,
    files: &[SourceFile<'f>],
    asked: Asked<'_>,
    first: &Fault,
) -> Result<Vec<Told<'f>>, AllocError>
    ensures { IfOk result (λ told. spec.AreTold (map file_view files.now) (asked_view asked.entry) first.now
        (map told_view told.items)) }
{
    let Some(one) = told_of_first(alloc, files, asked, first)? else {
        return Err(AllocError);
    };
    let mut told = Vec::new(alloc);
    told.push(one)?;
    match find_further::<F>(alloc, files, asked, first, &mut told) {
        End::NoMemory => Err(AllocError),
        _ => Ok(told),
    }
}

/// What is told of a source's fault.
fn told_of_first<'f>(
    alloc: Global,
    files: &[SourceFile<'f>],
    asked: Asked<'_>,
    fault: &Fault,
) -> Result<Option<Told<'f>>, AllocError>
    ensures { IfOk result (λ told. spec.TellsFirst (map file_view files.now) (asked_view asked.entry) fault.now
        (option_map told_view told)) }
{
    let (language, source) = (asked.language, asked.source);
    match fault {
        Fault::Lex(fault) => told_of_lexer(alloc, files, lex_report(*fault)),
        Fault::Syntax(fault) => told_read(alloc, language, files, source, syntax_report(*fault)),
        Fault::Name(fault) => told_read(alloc, language, files, source, name_report(*fault)),
        Fault::Elab(fault) => told_read(alloc, language, files, source, elab_report(*fault)),
        _ => Ok(None),
    }
}

/// What is told of why a source has no tokens.
fn told_of_lexer<'f>(
    alloc: Global,
    files: &[SourceFile<'f>],
    report: Option<Report>,
) -> Result<Option<Told<'f>>, AllocError>
    ensures { IfOk result (λ told. option_map told_view told ≡
        told_by (told_of_refusal (map file_view files.now)) report) }
{
    match report {
        Some(report) => told_refusal(alloc, files, report),
        None => Ok(None),
    }
}

/// What is told of a report on a source in a language, which is cut into tokens once more.
pub(crate) fn told_read<'f>(
    alloc: Global,
    language: Language,
    files: &[SourceFile<'f>],
    source: &[u8],
    report: Option<Report>,
) -> Result<Option<Told<'f>>, AllocError>
    ensures { IfOk result (λ told. spec.TellsRead language (map file_view files.now) source.now report
        (option_map told_view told)) }
{
    let Ok(tokens) = lex(alloc, source) else {
        return Err(AllocError);
    };
    let expected = expected_by(alloc, language, source, &tokens, report)?;
    let source = Lexed {
        text: source,
        tokens: &tokens,
    };
    told_of(alloc, language, files, source, expected, report)
}
