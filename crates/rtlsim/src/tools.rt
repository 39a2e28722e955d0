//! The program, over any inputs and sinks.

ghost use Rattle.std.specs.Prelude.{◌≡◌, map};
ghost use Rattle.rtlsim_command_faults.specs.Status.{code_of};
ghost use Rattle.rtlsim_command_faults.specs.declared.status.Status.{Status};
ghost use Rattle.rtlsim.specs.Inputs.{GivesStandardAlone};
ghost use Rattle.rtlsim.specs.Sinks.{AreIntact, sinks};
ghost use Rattle.rtlsim.specs.Tools.{Performs, ServesCall, ServesWords};
ghost use Rattle.rtlsim_command_line.specs.Words.{call_view};

use crate::first_line::serve_reader_line;
use crate::inputs::{Inputs, Standard};
use crate::performing::perform_texts;
use crate::refusals::{refuse_input, refuse_words};
use crate::texts::{read_sources, read_texts};
use byte_streams::{Reader, Sink};
use rtlsim_command_line::{Call, parse_words};
use rtlsim_commands::{Front, Status};
use std::alloc::Global;

/// The program where each file is `@`: does what the words ask for, or without words what those of
/// the input's first line ask for, with the standard input alone, and answers the exit status. How
/// far a run is goes to `progress`, where that is asked for.
pub fn tool<F: Front, R: Reader, O: Sink, E: Sink, G: Sink>(
    alloc: Global,
    words: &[&str],
    input: &mut Standard<R>,
    out: &mut O,
    err: &mut E,
    progress: &mut G,
) -> u8
    requires { AreIntact (O.state out.old) (E.state err.old) }
    ensures { (outcome : Status) × (result ≡ code_of outcome)
        × ServesWords GivesStandardAlone (map (λ word. word.now) words.now) (R.state input.old.reader)
        (R.state input.new.reader) outcome
        (sinks (O.state out.old) (O.state out.new) (E.state err.old) (E.state err.new)
        (G.state progress.old) (G.state progress.new)) }
{
    if words.is_empty() {
        return serve_reader_line::<F, _, _, _, _>(alloc, input, out, err, progress).code();
    }
    tool_with::<F, _, _, _, _>(alloc, words, input, out, err, progress).code()
}

/// Does what the words ask for: reads the files that they name by `inputs`, writes the result to
/// `out` and what is told of it to `err`, and answers the status. Words that are no command are
/// refused with a text on `err`. How far a run is goes to `progress` while it runs, where that is
/// asked for; what can't be written there is left out. It takes memory for the words and the files,
/// and as the command does.
pub fn tool_with<F: Front, I: Inputs, O: Sink, E: Sink, G: Sink>(
    alloc: Global,
    words: &[&str],
    inputs: &mut I,
    out: &mut O,
    err: &mut E,
    progress: &mut G,
) -> Status
    requires { AreIntact (O.state out.old) (E.state err.old) }
    ensures { ServesCall I.gives (map (λ word. word.now) words.now) (I.state inputs.old) (I.state inputs.new) result
        (sinks (O.state out.old) (O.state out.new) (E.state err.old) (E.state err.new)
        (G.state progress.old) (G.state progress.new)) }
{
    match parse_words(alloc, words) {
        Ok(call) => perform::<F, _, _, _, _>(alloc, &call, inputs, out, err, progress),
        Err(refused) => refuse_words(&refused, out, err),
    }
}

/// Does what is asked for: reads the list if there is one, the files before the source, the source,
/// the stimulus and what is expected by `inputs`, and then does what the command does with the
/// joined source: writes the result to `out`, what is told of it to `err`, and how far a run is to
/// `progress`, and answers the status. The first input that isn't read is told. It takes memory for
/// the files, once more for the source where it is that of several, and as the command does.
pub fn perform<F: Front, I: Inputs, O: Sink, E: Sink, G: Sink>(
    alloc: Global,
    call: &Call<'_>,
    inputs: &mut I,
    out: &mut O,
    err: &mut E,
    progress: &mut G,
) -> Status
    requires { AreIntact (O.state out.old) (E.state err.old) }
    ensures { Performs I.gives (call_view call.now) (I.state inputs.old) (I.state inputs.new) result
        (sinks (O.state out.old) (O.state out.new) (E.state err.old) (E.state err.new)
        (G.state progress.old) (G.state progress.new)) }
{
    let (before, file) = match read_sources(alloc, call, inputs) {
        Ok(names) => names,
        Err(fault) => return refuse_input(fault, call.explains, out, err),
    };
    match read_texts(alloc, call, &before, file.as_str(), inputs) {
        Ok(texts) => perform_texts::<F, _, _, _>(alloc, call, &texts, out, err, progress),
        Err(fault) => refuse_input(fault, call.explains, out, err),
    }
}
