//! The words that the system passes.

ghost use Rattle.std.specs.Prelude.{◌≡◌, false, IfOk, List, Option, map, string_bytes, ℕ};
ghost use Rattle.byte_streams.specs.Read.{ReaderState};
ghost use Rattle.rtlsim.specs.Inputs.{GivesNamed};
ghost use Rattle.rtlsim.specs.Sinks.{AreIntact, sinks};
ghost use Rattle.rtlsim.specs.Streams.{ServesArguments};
ghost use Rattle.rtlsim.specs.Tools.{ServesWords};

use crate::first_line::tool_first_line;
use crate::inputs::Named;
use crate::refusals::{not_text, refuse_words};
use crate::tools::tool_with;
use byte_streams::{In, Sink};
use rtlsim_command_line::Refused;
use rtlsim_commands::{Front, Status};
use std::alloc::{AllocError, Global};
use std::env;
use std::io::{ErrorKind, Read};
use std::rt::{Env, Files};

/// Does what the arguments ask for, or tells why they are refused.
pub(crate) fn serve_arguments<
    F: Front,
    T: Files + Env + AllocGlobal,
    R: Read + Drop,
    O: Sink,
    E: Sink,
    G: Sink,
>(rt: &T, reader: R, out: &mut O, err: &mut E, progress: &mut G) -> Status
    requires { AreIntact (O.state out.old) (E.state err.old) }
    ensures { (words : Option (List (List ℕ)))
        × ServesArguments (GivesNamed T.File.remaining) words (R.remaining reader) result
        (sinks (O.state out.old) (O.state out.new) (E.state err.old) (E.state err.new)
        (G.state progress.old) (G.state progress.new)) }
{
    match words_of(rt) {
        Ok(words) => serve_words::<F, _, _, _, _, _>(
            rt.alloc(),
            rt,
            &words,
            reader,
            out,
            err,
            progress,
        ),
        Err(refused) => refuse_words(&refused, out, err),
    }
}

/// The words after the program's name: refused where one of them is no text, or for want of memory.
fn words_of<T: Env + AllocGlobal>(rt: &T) -> Result<Vec<String>, Refused> {
    let args = match env::args(rt) {
        Ok(args) => args,
        Err(error) if error.kind() == ErrorKind::OutOfMemory => return Err(Refused::NoMemory),
        Err(_) => return Err(not_text(rt.alloc())),
    };
    Ok(args.skip(1).collect(rt.alloc())?)
}

/// Does what the words ask for; without words, what the first line of the input asks for.
fn serve_words<F: Front, T: Files, R: Read + Drop, O: Sink, E: Sink, G: Sink>(
    alloc: Global,
    files: &T,
    args: &[String],
    reader: R,
    out: &mut O,
    err: &mut E,
    progress: &mut G,
) -> Status
    requires { AreIntact (O.state out.old) (E.state err.old) }
    ensures { (after : ReaderState) × ServesWords (GivesNamed T.File.remaining) (map string_bytes args.now)
        (record { left = R.remaining reader; failed = false }) after result
        (sinks (O.state out.old) (O.state out.new) (E.state err.old) (E.state err.new)
        (G.state progress.old) (G.state progress.new)) }
{
    let mut reader = In::new(reader);
    if args.is_empty() {
        return tool_first_line::<F, _, _, _, _, _>(alloc, files, &mut reader, out, err, progress);
    }
    match texts_of(alloc, args) {
        Ok(words) => {
            let mut inputs = Named { files, reader };
            tool_with::<F, _, _, _, _>(alloc, &words, &mut inputs, out, err, progress)
        }
        Err(refused) => refuse_words(&Refused::from(refused), out, err),
    }
}

/// The words as texts.
fn texts_of(alloc: Global, args: &[String]) -> Result<Vec<&str>, AllocError>
    ensures { IfOk result (λ words. map (λ word. word.now) words.items ≡ map string_bytes args.now) }
{
    let mut words = Vec::with_capacity(alloc, args.len())?;
    for word in args {
        words.push(word.as_str())?;
    }
    Ok(words)
}
