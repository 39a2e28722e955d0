//! The program over a reader and writers, as the system gives them.

ghost use Rattle.std.specs.Prelude.{◌≡◌, Option, List, ℕ};
ghost use Rattle.std.specs.Process.{exit_status};
ghost use Rattle.byte_streams.specs.Written.{IsIntact};
ghost use Rattle.rtlsim.specs.Inputs.{GivesNamed};
ghost use Rattle.rtlsim.specs.Streams.{Ends, GoesOut, GoesToWriters, RunsArguments, ServesArguments, TellsLoss, TellsMemory, writers};
ghost use Rattle.rtlsim_commands.specs.Served as served;
ghost use Rattle.rtlsim_command_faults.specs.Status.{code_of};
ghost use Rattle.rtlsim_command_faults.specs.declared.status.Status.{Status};

use crate::arguments::serve_arguments;
use byte_streams::{Out, Sink, push_text};
use rtlsim_commands::{Front, Status, push_memory};
use std::io::{BufWriter, Read, Write};
use std::process::ExitCode;
use std::rt::{Env, Files};

/// What the program ends with: its status, the writers of its two streams, and that to which how
/// far a run is went.
#[derive(Drop)]
pub struct Ended<O, E, P> {
    pub status: Status,
    pub stdout: O,
    pub stderr: E,
    pub progress: P,
}

/// How many bytes of output wait for one write: of a trace of many megabytes each write costs.
const OUTPUT: usize = 65536;

/// The program over the system's arguments and files, a reader and three writers: does what the
/// arguments ask for, as `tool_with` does, or `tool_first_line` where there are none, and sees that
/// all that it prints and tells goes out, in as few writes as it can. The status is that of what
/// was done, or `Failed` where something didn't go out. How far a run is goes to `progress` at
/// once.
pub fn program<
    F: Front,
    T: Files + Env + AllocGlobal,
    R: Read + Drop,
    O: Write + Copy + Drop,
    E: Write + Copy + Drop,
    P: Write + Drop,
>(rt: &T, reader: R, stdout: O, stderr: E, progress: P) -> Ended<O, E, P>
    ensures { RunsArguments (GivesNamed T.File.remaining) (R.remaining reader) result.status
        (writers (O.contents stdout) (O.contents result.stdout) (E.contents stderr) (E.contents result.stderr)
        (P.contents progress) (P.contents result.progress)) }
{
    let Ok(output) = BufWriter::with_capacity(rt.alloc(), OUTPUT, stdout) else {
        return refuse_memory(stdout, stderr, progress);
    };
    let Ok(errors) = BufWriter::new(rt.alloc(), stderr) else {
        return refuse_memory(stdout, stderr, progress);
    };
    run_arguments::<F, _, _, _, _, _>(
        rt,
        reader,
        Out::new(output),
        Out::new(errors),
        Out::new(progress),
    )
}

/// The program, as `program` runs it, with what the process ends with: the number of the program's
/// status.
pub fn exit_code<
    F: Front,
    T: Files + Env + AllocGlobal,
    R: Read + Drop,
    O: Write + Copy + Drop,
    E: Write + Copy + Drop,
    P: Write + Drop,
>(rt: &T, reader: R, stdout: O, stderr: E, progress: P) -> ExitCode
    ensures { (status : Status) × (out : Option (List ℕ)) × (err : Option (List ℕ)) × (shown : Option (List ℕ))
        × (exit_status result ≡ code_of status)
        × RunsArguments (GivesNamed T.File.remaining) (R.remaining reader) status
        (writers (O.contents stdout) out (E.contents stderr) err (P.contents progress) shown) }
{
    let ended = program::<F, _, _, _, _, _>(rt, reader, stdout, stderr, progress);
    ExitCode::from(ended.status.code())
}

/// Tells that memory was refused, where no buffers can be had.
fn refuse_memory<O, E: Write + Drop, P>(stdout: O, stderr: E, progress: P) -> Ended<O, E, P>
    ensures kept { result.stdout ≡ stdout }
    ensures silent { result.progress ≡ progress }
    ensures told { TellsMemory result.status (E.contents stderr) (E.contents result.stderr) }
{
    let mut err = Out::new(stderr);
    push_memory(&mut err);
    Ended {
        status: ended_by(err.failed(), Status::Memory),
        stdout,
        stderr: err.into_inner(),
        progress,
    }
}

/// Does what the arguments ask for, and sees that all goes out.
fn run_arguments<
    F: Front,
    T: Files + Env + AllocGlobal,
    R: Read + Drop,
    O: Write + Drop,
    E: Write + Drop,
    P: Write + Drop,
>(
    rt: &T,
    reader: R,
    mut out: Out<BufWriter<O>>,
    mut err: Out<BufWriter<E>>,
    mut shown: Out<P>,
) -> Ended<O, E, P>
    requires out { IsIntact (⟦<Out<BufWriter<O>> as Sink>⟧.state out) }
    requires err { IsIntact (⟦<Out<BufWriter<E>> as Sink>⟧.state err) }
    ensures { (words : Option (List (List ℕ)))
        × GoesToWriters (ServesArguments (GivesNamed T.File.remaining) words (R.remaining reader)) result.status
        (⟦<Out<BufWriter<O>> as Sink>⟧.state out) (⟦<Out<BufWriter<E>> as Sink>⟧.state err)
        (⟦<Out<P> as Sink>⟧.state shown)
        (O.contents result.stdout) (E.contents result.stderr) (P.contents result.progress) }
{
    let outcome = serve_arguments::<F, _, _, _, _, _>(rt, reader, &mut out, &mut err, &mut shown);
    end(outcome, out, err, shown.into_inner())
}

/// Sees that what both outputs took goes out, and that it is told where the first doesn't.
fn end<O: Write + Drop, E: Write + Drop, P>(
    outcome: Status,
    out: Out<BufWriter<O>>,
    mut err: Out<BufWriter<E>>,
    progress: P,
) -> Ended<O, E, P>
    ensures kept { result.progress ≡ progress }
    ensures ends { Ends outcome (⟦<Out<BufWriter<O>> as Sink>⟧.state out) (⟦<Out<BufWriter<E>> as Sink>⟧.state err)
        result.status
        (O.contents result.stdout) (E.contents result.stderr) }
{
    let had_failed = out.failed();
    let (stdout, is_out) = flush(out);
    tell_loss(is_out, had_failed, &mut err);
    let (stderr, is_told) = flush(err);
    Ended {
        status: ended_by(!is_told, ended_by(!is_out, outcome)),
        stdout,
        stderr,
        progress,
    }
}

/// Tells that the last bytes of the output don't go out, where it hadn't failed before.
fn tell_loss<E: Sink>(is_out: bool, had_failed: bool, err: &mut E)
    ensures { TellsLoss is_out had_failed (E.state err.old) (E.state err.new) }
{
    if !is_out && !had_failed {
        push_text(err, b"rtlsim: output\n");
    }
}

/// A status, which a failed write overrules.
fn ended_by(has_failed: bool, outcome: Status) -> Status
    ensures { result ≡ served.ended_by has_failed outcome }
{
    if has_failed { Status::Failed } else { outcome }
}

/// Sees that what was taken goes out. Gives the writer, and whether all went out.
fn flush<W: Write + Drop>(sink: Out<BufWriter<W>>) -> (W, bool)
    ensures { GoesOut result.1 (⟦<Out<BufWriter<W>> as Sink>⟧.state sink).taken (W.contents result.0) }
{
    let mut writer = sink.into_inner();
    let is_out = writer.flush().is_ok();
    let (inner, _rest) = writer.into_parts();
    (inner, is_out)
}
