//! What is done for a call once its files are read.

ghost use Rattle.std.specs.Prelude.{◌≡◌, ◌⊎◌, false, map, option_map, unwrap_or, [], IfOk};
ghost use Rattle.rtlsim.specs.Requests as requests;
ghost use Rattle.rtlsim.specs.Served as served;
ghost use Rattle.rtlsim.specs.Served.{GoesBy, Runs, ServesBy, ServesRun, ServesTexts, AreTokens, asked_in, asks_places, choice_in};
ghost use Rattle.rtlsim.specs.Sinks.{AreIntact, ShowsIf, outputs, sinks};
ghost use Rattle.rtlsim_commands.specs.Served.{Serves, both};
ghost use Rattle.rtlsim_commands.specs.Sights.{Seeing, events_of};
ghost use Rattle.rtlsim_remarked_runs.specs.Remarking.{with_remark};
ghost use Rattle.rtlsim.specs.Texts.{texts_view};
ghost use Rattle.rtlsim.specs.Tools.{Silently, TellsInput};
ghost use Rattle.rtlsim_command_line.specs.Words.{call_view};
ghost use Rattle.rtlsim_command_faults.specs.Lines.{memory_line};
ghost use Rattle.rtlsim_command_faults.specs.declared.status.Status.TheVariants as status;

use crate::job::Job;
use crate::prepared::prepare;
use crate::refusals::refuse_input;
use crate::texts::Texts;
use crate::unread::ReadFault;
use byte_streams::{Sink, Unwatched, Watch};
use rtl_progress::{Progress, stop_of};
use rtlsim_command_line::{Call, Order, Request};
use rtlsim_commands::{
    CheckNet, Command, Compared, EvalNet, Form, Forward, Front, ListNet, Pick, Reverse, RunEvents,
    RunLevels, RunMachine, Simulate, Status, Telling, Traced, describe, serve,
};
use rtlsim_remarked_runs::RemarkedRun;
use std::alloc::{AllocError, Global};
use vhdl_lexer::{Language, LexFault, Token, lex};
use vhdl_slips::Lexed;

/// Does what is asked for with what was read, or tells that memory was refused before.
pub(crate) fn perform_texts<'b, F: Front, O: Sink, E: Sink, G: Sink>(
    alloc: Global,
    call: &'b Call<'_>,
    texts: &'b Texts<'_>,
    out: &mut O,
    err: &mut E,
    progress: &mut G,
) -> Status
    requires { AreIntact (O.state out.old) (E.state err.old) }
    ensures { let s = sinks (O.state out.old) (O.state out.new) (E.state err.old) (E.state err.new)
        (G.state progress.old) (G.state progress.new) in
        Silently (TellsInput memory_line status.Memory result) s
        ⊎ ServesTexts (call_view call.now) (texts_view texts.now) result s }
{
    let Ok(prepared) = prepare(alloc, call, texts) else {
        return refuse_input(ReadFault::NoMemory, false, out, err);
    };
    let source = prepared.source();
    let Ok(tokens) = tokens_for(alloc, call, source) else {
        return refuse_input(ReadFault::NoMemory, false, out, err);
    };
    let (_source, stimulus) = texts.main.texts();
    let telling = Telling {
        files: &prepared.files,
        source: Lexed {
            text: source,
            tokens: &tokens,
        },
        language: language_of(call),
        stimulus: stimulus_name(call),
        stimulus_text: call.stimulus.map(|_name| stimulus),
        expected: expected_name(call),
        expected_text: texts.expected(),
        trace: &prepared.traced,
        explains: call.explains,
    };
    let job = Job {
        request: call.request,
        source,
        top: call.top.as_bytes(),
        generics: &prepared.generics,
        telling: &telling,
        sets: &prepared.sets,
        stimulus,
        traced: &prepared.traced,
        is_untraced: call.is_untraced,
        expected: texts.expected(),
    };
    perform_shown::<F, _, _, _>(alloc, &job, call.shows_progress, out, err, progress)
}

/// In which language a call reads its source.
fn language_of(call: &Call<'_>) -> Language
    ensures { result ≡ served.language_of (call_view call.now).is_wide }
{
    if call.is_wide {
        Language::Wide
    } else {
        Language::Profile
    }
}

/// Whether an explanation or an object is asked for, which tell places, or what is expected is
/// given, which names literals.
fn asks_places(call: &Call<'_>) -> bool
    ensures { result ≡ asks_places (call_view call.now) }
{
    call.explains || matches!(call.request, Request::Json) || call.expected.is_some()
}

/// The tokens of a source by which places are told, where they are asked for; none of a source that
/// has no tokens. It takes the memory of the tokens.
fn tokens_for(alloc: Global, call: &Call<'_>, source: &[u8]) -> Result<Vec<Token>, AllocError>
    ensures { IfOk result (λ tokens. AreTokens (asks_places (call_view call.now)) source.now tokens.items) }
{
    if !asks_places(call) {
        return Ok(Vec::new(alloc));
    }
    match lex(alloc, source) {
        Ok(tokens) => Ok(tokens),
        Err(fault) => match fault {
            LexFault::NoMemory => Err(AllocError),
            _ => Ok(Vec::new(alloc)),
        },
    }
}

/// The name of the stimulus, or what stands for it.
fn stimulus_name<'b>(call: &'b Call<'_>) -> &'b [u8]
    ensures { result.now ≡ unwrap_or (call_view call.now).stimulus requests.set_form }
{
    match call.stimulus {
        Some(name) => name.as_bytes(),
        None => b"NAME=VALUE",
    }
}

/// The name of the file of what is expected; nothing without one.
fn expected_name<'b>(call: &'b Call<'_>) -> &'b [u8]
    ensures { result.now ≡ unwrap_or (call_view call.now).expected [] }
{
    match call.expected {
        Some(name) => name.as_bytes(),
        None => &[],
    }
}

/// Does what is asked for, and shows how far a run is where `shows` says so.
fn perform_shown<F: Front, O: Sink, E: Sink, G: Sink>(
    alloc: Global,
    job: &Job<'_>,
    shows: bool,
    out: &mut O,
    err: &mut E,
    progress: &mut G,
) -> Status
    requires { AreIntact (O.state out.old) (E.state err.old) }
    ensures serves { let s = sinks (O.state out.old) (O.state out.new) (E.state err.old) (E.state err.new)
        (G.state progress.old) (G.state progress.new) in
        ServesBy job.now.telling.now (asked_in job.now) result (outputs s)
        (ShowsIf shows job.now.stimulus.now s) (choice_in job.now) job.now.request
        (map (λ set. set.now) job.now.sets.now) job.now.stimulus.now (option_map (λ text. text.now) job.now.expected) }
    ensures silent { shows ≡ false → G.state progress.new ≡ G.state progress.old }
{
    if !shows {
        return perform_job::<F, _, _, _>(alloc, job, &mut Unwatched, out, err);
    }
    let mut watch = Progress::new(progress, stop_of(job.stimulus));
    let status = perform_job::<F, _, _, _>(alloc, job, &mut watch, out, err);
    watch.end();
    status
}

/// Does what is asked for, while this watch looks on where it is a run.
fn perform_job<F: Front, V: Watch, O: Sink, E: Sink>(
    alloc: Global,
    job: &Job<'_>,
    watch: &mut V,
    out: &mut O,
    err: &mut E,
) -> Status
    requires { AreIntact (O.state out.old) (E.state err.old) }
    ensures { ServesBy job.now.telling.now (asked_in job.now) result
        (both (O.state out.old) (O.state out.new) (E.state err.old) (E.state err.new))
        (λ stands. V.told watch.old stands watch.new) (choice_in job.now) job.now.request
        (map (λ set. set.now) job.now.sets.now) job.now.stimulus.now (option_map (λ text. text.now) job.now.expected) }
{
    let (telling, stimulus) = (job.telling, job.stimulus);
    match job.request {
        Request::Eval => {
            let sets = job.sets;
            serve_job::<F, _, _, _, _>(alloc, &mut EvalNet { sets }, job, watch, out, err)
        }
        Request::Net => serve_job::<F, _, _, _, _>(alloc, &mut ListNet, job, watch, out, err),
        Request::Check => {
            let form = Form::ToldLines(telling);
            serve_job::<F, _, _, _, _>(alloc, &mut CheckNet { form }, job, watch, out, err)
        }
        Request::Dot => {
            let form = Form::ToldGraph(telling);
            serve_job::<F, _, _, _, _>(alloc, &mut CheckNet { form }, job, watch, out, err)
        }
        Request::Json => describe::<F, _, _>(alloc, job.asked(), telling, out, err),
        Request::Run {
            is_event,
            order: Order::Forward,
        } => simulate::<F, _, _, _, _>(alloc, is_event, &mut Forward, job, watch, out, err),
        Request::Run {
            is_event,
            order: Order::Reverse,
        } => simulate::<F, _, _, _, _>(alloc, is_event, &mut Reverse, job, watch, out, err),
        Request::Levels => {
            serve_run::<F, _, _, _, _>(alloc, RunLevels { stimulus }, job, watch, out, err)
        }
    }
}

/// Runs a source while this watch looks on, by events alone where `is_event` says so, with its
/// processes in the order of the picker.
fn simulate<F: Front, P: Pick, V: Watch, O: Sink, E: Sink>(
    alloc: Global,
    is_event: bool,
    pick: &mut P,
    job: &Job<'_>,
    watch: &mut V,
    out: &mut O,
    err: &mut E,
) -> Status
    requires order { GoesBy job.now.request P.picks }
    requires intact { AreIntact (O.state out.old) (E.state err.old) }
    ensures { ServesRun job.now.telling.now (asked_in job.now) result
        (both (O.state out.old) (O.state out.new) (E.state err.old) (E.state err.new))
        (λ stands. V.told watch.old stands watch.new) (choice_in job.now) is_event job.now.stimulus.now
        (option_map (λ text. text.now) job.now.expected) }
{
    let stimulus = job.stimulus;
    if is_event {
        let run = RunEvents { stimulus, pick };
        serve_run::<F, _, _, _, _>(alloc, run, job, watch, out, err)
    } else {
        let run = RunMachine { stimulus, pick };
        serve_run::<F, _, _, _, _>(alloc, run, job, watch, out, err)
    }
}

/// Makes a run of the source of a job, by what is asked of its trace, while this watch looks on,
/// compares it with what is expected if that is given, and remarks on it.
fn serve_run<F: Front, R: Simulate + Drop, V: Watch, O: Sink, E: Sink>(
    alloc: Global,
    run: R,
    job: &Job<'_>,
    watch: &mut V,
    out: &mut O,
    err: &mut E,
) -> Status
    requires { AreIntact (O.state out.old) (E.state err.old) }
    ensures { Serves (Seeing (R.sight run)
        (Runs job.now.telling.now (choice_in job.now) (R.sight run) (R.shows run)
        (option_map (λ text. text.now) job.now.expected))
        (λ stands. V.told watch.old stands watch.new))
        (with_remark (record { text = R.Answer.text; status = R.Answer.said; events = events_of (R.sight run) }))
        job.now.telling.now (asked_in job.now) result
        (both (O.state out.old) (O.state out.new) (E.state err.old) (E.state err.new)) }
{
    let compared = Compared {
        run: Traced {
            run,
            choice: job.choice(),
        },
        source: job.telling.source,
        expected: job.expected,
    };
    let mut run = RemarkedRun {
        run: compared,
        telling: job.telling,
    };
    serve_job::<F, _, _, _, _>(alloc, &mut run, job, watch, out, err)
}

/// Does a command on the source of a job, while this watch looks on, and tells what it answers.
fn serve_job<F: Front, C: Command, V: Watch, O: Sink, E: Sink>(
    alloc: Global,
    command: &mut C,
    job: &Job<'_>,
    watch: &mut V,
    out: &mut O,
    err: &mut E,
) -> Status
    requires { AreIntact (O.state out.old) (E.state err.old) }
    ensures { Serves (Seeing (C.sight command.old) (C.does command.old) (λ stands. V.told watch.old stands watch.new))
        (record { text = C.Answer.text; status = C.Answer.said; events = events_of (C.sight command.old) })
        job.now.telling.now (asked_in job.now) result
        (both (O.state out.old) (O.state out.new) (E.state err.old) (E.state err.new)) }
{
    serve::<F, _, _, _, _>(alloc, job.asked(), job.telling, command, watch, out, err)
}
