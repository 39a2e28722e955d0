//! The program without words: they stand in the first line of the standard input.

ghost use Rattle.std.specs.Prelude.{◌≡◌, ◌<◌, ◌==◌, not, filter, IfOk, IfErr, IfSome, IsUtf8, length, map, position};
ghost use Rattle.std.specs.List.{before_first, after_first, slice_split};
ghost use Rattle.rtlsim_command_line.specs.Words.{IsOfWords};
ghost use Rattle.rtlsim.specs.Inputs.{GivesNamed, GivesStandardAlone};
ghost use Rattle.rtl_stim_lines.specs.Lines as lines;
ghost use Rattle.rtl_stim_lines.specs.Lines.{ends_line};
ghost use Rattle.rtlsim.specs.Lines.{first_line_of};
ghost use Rattle.rtlsim.specs.Sinks.{AreIntact, sinks};
ghost use Rattle.rtlsim.specs.Tools.{ServesFirstLine, ServesLine, words_in};

use crate::inputs::{Inputs, Named, Standard, read_input};
use crate::refusals::{not_text, refuse_input, refuse_words};
use crate::tools::tool_with;
use crate::unread::ReadFault;
use byte_streams::{Reader, Sink};
use rtlsim_command_line::Refused;
use rtlsim_commands::{Front, Status};
use std::alloc::{AllocError, Global};
use std::rt::Files;

/// The program without words: does what the words of the first line of the input ask for, cut at
/// runs of spaces, as `tool_with` does; `@` is what stands after that line. Where the input can't
/// be read, or the line isn't UTF-8, it tells so.
pub fn tool_first_line<F: Front, T: Files, R: Reader, O: Sink, E: Sink, G: Sink>(
    alloc: Global,
    files: &T,
    reader: &mut R,
    out: &mut O,
    err: &mut E,
    progress: &mut G,
) -> Status
    requires { AreIntact (O.state out.old) (E.state err.old) }
    ensures { ServesFirstLine (GivesNamed T.File.remaining) (R.state reader.old) (R.state reader.new) result
        (sinks (O.state out.old) (O.state out.new) (E.state err.old) (E.state err.new)
        (G.state progress.old) (G.state progress.new)) }
{
    match read_input(alloc, reader) {
        Ok(all) => {
            let (line, rest) = first_line(&all);
            let mut inputs = Named {
                files,
                reader: rest,
            };
            serve_line::<F, _, _, _, _>(alloc, line, &mut inputs, out, err, progress)
        }
        Err(fault) => refuse_input(ReadFault::of("@", fault), false, out, err),
    }
}

/// The same, where `@` is the only file.
pub(crate) fn serve_reader_line<F: Front, R: Reader, O: Sink, E: Sink, G: Sink>(
    alloc: Global,
    input: &mut Standard<R>,
    out: &mut O,
    err: &mut E,
    progress: &mut G,
) -> Status
    requires { AreIntact (O.state out.old) (E.state err.old) }
    ensures { ServesFirstLine GivesStandardAlone (R.state input.old.reader) (R.state input.new.reader) result
        (sinks (O.state out.old) (O.state out.new) (E.state err.old) (E.state err.new)
        (G.state progress.old) (G.state progress.new)) }
{
    match read_input(alloc, &mut input.reader) {
        Ok(all) => {
            let (line, rest) = first_line(&all);
            let mut inputs = Standard { reader: rest };
            serve_line::<F, _, _, _, _>(alloc, line, &mut inputs, out, err, progress)
        }
        Err(fault) => refuse_input(ReadFault::of("@", fault), false, out, err),
    }
}

/// Does what the words of a line ask for.
fn serve_line<F: Front, I: Inputs, O: Sink, E: Sink, G: Sink>(
    alloc: Global,
    line: &[u8],
    inputs: &mut I,
    out: &mut O,
    err: &mut E,
    progress: &mut G,
) -> Status
    requires { AreIntact (O.state out.old) (E.state err.old) }
    ensures { ServesLine I.gives line.now (I.state inputs.old) (I.state inputs.new) result
        (sinks (O.state out.old) (O.state out.new) (E.state err.old) (E.state err.new)
        (G.state progress.old) (G.state progress.new)) }
{
    match read_words(alloc, line) {
        Ok(words) => tool_with::<F, _, _, _, _>(alloc, &words, inputs, out, err, progress),
        Err(refused) => refuse_words(&refused, out, err),
    }
}

/// The words of a line, cut at runs of spaces.
fn read_words(alloc: Global, line: &[u8]) -> Result<Vec<&str>, Refused>
    ensures read { IfOk result (λ words. map (λ word. word.now) words.items ≡ words_in line.now) }
    ensures refused { IfErr result (λ refused. IsOfWords refused → ¬ (IsUtf8 line.now)) }
{
    let Ok(text) = str::from_utf8(line) else {
        return Err(not_text(alloc));
    };
    let pieces = pieces_of(alloc, text)?;
    Ok(filled(alloc, &pieces)?)
}

/// The pieces of a text between its spaces.
fn pieces_of(alloc: Global, text: &str) -> Result<Vec<&str>, AllocError>
    ensures { IfOk result (λ pieces. map (λ piece. piece.now) pieces.items ≡
        slice_split (λ byte. byte == 32) text.now) }
{
    text.split(' ').collect(alloc)
}

/// The pieces in which something stands.
fn filled<'a>(alloc: Global, pieces: &[&'a str]) -> Result<Vec<&'a str>, AllocError>
    ensures { IfOk result (λ words. map (λ word. word.now) words.items
        ≡ filter (λ piece. not (length piece == 0)) (map (λ piece. piece.now) pieces.now)) }
{
    let mut words = Vec::with_capacity(alloc, pieces.len())?;
    for piece in pieces {
        if !piece.is_empty() {
            words.push(*piece)?;
        }
    }
    Ok(words)
}

/// The first line, without its end, and what stands behind it.
pub(crate) fn first_line(all: &[u8]) -> (&[u8], &[u8])
    ensures line { result.0.now ≡ first_line_of all.now }
    ensures rest { result.1.now ≡ after_first ends_line all.now }
{
    let (line, rest) = cut_line(all);
    (without_return(line), rest)
}

/// A line without the carriage return at its end.
fn without_return(line: &[u8]) -> &[u8]
    ensures { result.now ≡ lines.without_return line.now }
{
    match line {
        [front @ .., b'\r'] => front,
        _ => line,
    }
}

/// The bytes before the first line feed, and those after it.
fn cut_line(all: &[u8]) -> (&[u8], &[u8])
    ensures line { result.0.now ≡ before_first ends_line all.now }
    ensures rest { result.1.now ≡ after_first ends_line all.now }
{
    match line_end(all) {
        Some(at) => (&all[..at], &all[at + 1..]),
        None => (all, &[]),
    }
}

/// Where the first line feed stands.
fn line_end(all: &[u8]) -> Option<usize>
    ensures end { result ≡ position ends_line all.now }
    ensures within { IfSome result (λ at. at < length all.now) }
{
    all.iter().position(|byte| *byte == b'\n')
}
