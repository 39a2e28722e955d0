//! The call that words say.

ghost use Rattle.std.specs.Prelude.{◌≡◌, ◌≤◌, IfOk, IfErr, IsErr, codes, length, map, option_map};
ghost use Rattle.rtlsim_command_line.specs.Words as words;
ghost use Rattle.rtlsim_command_line.specs.Words.{Says, SayNothing, IsOfWords, are_set, call_view, parsed_view, row_of, said_by, text_of, unsaid_text, use_view};
ghost use Rattle.rtlsim_command_line.specs.declared.parts.TheConstants.{PARTS};
ghost use Rattle.rtlsim_command_line.specs.declared.reading.Refused.TheVariants.{NoMemory};
ghost use Rattle.clap.specs.Values.{kind_of};
ghost use Rattle.clap.specs.declared.error.kind.ErrorKind.TheVariants.{OutOfMemory};

use crate::call::{Call, Order, Request};
use crate::commands::command;
use crate::generics::settings_of;
use crate::parsed::{Parsed, read_words};
use crate::parts::{Part, table};
use clap::error::ErrorKind;
use clap::{ArgMatches, Error};
use std::alloc::{AllocError, Global};

/// Why the words are refused.
#[derive(Drop)]
pub enum Refused {
    /// They are no command; the text says why, or is the help that was asked for.
    Words(String),
    /// Memory was refused.
    NoMemory,
}

impl From<AllocError> for Refused {
    ghost from_gives = { λ _ refused. refused ≡ NoMemory };

    fn from(_refused: AllocError) -> Refused {
        Refused::NoMemory
    }
}

/// What is told of a generic that clap has nothing against.
const BAD_GENERIC: &str =
    "error: a generic is set as --generic NAME=VALUE or -gNAME=VALUE, once, VALUE an integer of at most 2147483647 or, with a minus, \
    of no less than -2147483647

For more information, try '--help'.
";

/// What is told of other words that clap has nothing against.
const READ_TWICE: &str =
    "error: the standard input, @, is named twice: where a file of --with or --expect is @, no other FILE or STIM may be

For more information, try '--help'.
";

/// The same where a list is given.
const LIST_READ_TWICE: &str =
    "error: the standard input, @, is named twice: where the list of --files or the file of --expect is @, no STIM may be

For more information, try '--help'.
";

/// What helps where `--with` is given and an operand is one too many.
static ONE_FILE: &str =
    "\n\n  tip: --with takes one file, and stands before each: --with a.vhd --with b.vhd; --files LIST names any number";

/// Reads the words after the program's name. It takes memory in proportion to their number.
///
/// # Errors
///
/// - `Words` where they say no call, as where they ask for help.
/// - `NoMemory` where memory was refused.
#[tactic(auto, unfolding(crate::specs::Words::Says, crate::specs::Words::SayNothing))]
pub fn parse_words<'a>(alloc: Global, words: &'a [&'a str]) -> Result<Call<'a>, Refused>
    ensures said { IfOk result (λ call. Says (map (λ word. word.now) words.now) call) }
    ensures refused { IfErr result (λ refused. IsOfWords refused → SayNothing (map (λ word. word.now) words.now)) }
{
    match call_of(alloc, table(), words)? {
        Some(call) => Ok(call),
        None => Err(Refused::Words(refusal_text(alloc, words)?)),
    }
}

/// The call that the words say.
fn call_of<'a>(
    alloc: Global,
    parts: &[Part<&str>],
    words: &[&'a str],
) -> Result<Option<Call<'a>>, AllocError>
    ensures { IfOk result (λ call.
        option_map call_view call ≡ said_by (map row_of parts.now) (map text_of words.now)) }
{
    let [command, others @ ..] = words else {
        return Ok(None);
    };
    let Some(given) = read_words(alloc, parts, others)? else {
        return Ok(None);
    };
    if !given.fits(parts, command) {
        return Ok(None);
    }
    call_with(alloc, command, &given)
}

/// The call of a command, with what is given behind it.
fn call_with<'a>(
    alloc: Global,
    command: &str,
    given: &Parsed<'a>,
) -> Result<Option<Call<'a>>, AllocError>
    ensures { IfOk result (λ call. option_map call_view call ≡ words.call_with command.now (parsed_view given.now)) }
{
    let list = given.value("files");
    let Some((file, top, rest)) = named(list, &given.operands) else {
        return Ok(None);
    };
    let Some(request) = request_of(command, given) else {
        return Ok(None);
    };
    let Some((sets, stimulus)) = parted(request, rest) else {
        return Ok(None);
    };
    let Some(generics) = settings_of(alloc, &given.values(alloc, "generic")?)? else {
        return Ok(None);
    };
    let (with, expected) = (given.values(alloc, "with")?, given.value("expect"));
    if !is_read_once(&with, list, expected, &given.operands) {
        return Ok(None);
    }
    Ok(Some(Call {
        request,
        file,
        list,
        top,
        sets: sets.to_vec(alloc)?,
        stimulus,
        with,
        explains: given.has("explain"),
        is_wide: given.has("wide"),
        expected,
        shows_progress: given.has("progress"),
        generics,
        traced: given.values(alloc, "trace")?,
        is_untraced: given.has("no-trace"),
    }))
}

/// FILE, which is empty where a list stands for it, TOP, and the words behind them.
fn named<'r, 'a>(
    list: Option<&str>,
    operands: &'r [&'a str],
) -> Option<(&'a str, &'a str, &'r [&'a str])>
    ensures { option_map words.named_view result
        ≡ words.named (option_map text_of list.entry) (map text_of operands.now) }
{
    match (list, operands) {
        (None, [file, top, rest @ ..]) => Some((*file, *top, rest)),
        (Some(_), [top, rest @ ..]) => Some(("", *top, rest)),
        _ => None,
    }
}

/// The request of a command with these options.
fn request_of(command: &str, given: &Parsed<'_>) -> Option<Request>
    ensures { result ≡ words.request_of command.now (map use_view given.now.uses.items) }
{
    match command {
        "eval" => Some(Request::Eval),
        "net" => Some(Request::Net),
        "check" if given.has("dot") => Some(Request::Dot),
        "check" if given.has("json") => Some(Request::Json),
        "check" => Some(Request::Check),
        "run" if given.has("levels") => Some(Request::Levels),
        "run" => Some(Request::Run {
            is_event: given.has("event"),
            order: order_of(given)?,
        }),
        _ => None,
    }
}

/// The order of a run, which may be given.
fn order_of(given: &Parsed<'_>) -> Option<Order>
    ensures { result ≡ words.order_of (words.value (map use_view given.now.uses.items) (codes "order")) }
{
    match given.value("order") {
        None | Some("forward") => Some(Order::Forward),
        Some("reverse") => Some(Order::Reverse),
        Some(_) => None,
    }
}

/// The words that set inputs, and the stimulus, of those behind FILE and TOP.
fn parted<'r, 'a>(request: Request, rest: &'r [&'a str]) -> Option<(&'r [&'a str], Option<&'a str>)>
    ensures { option_map words.parted_view result ≡ words.parted request (map text_of rest.now) }
{
    match (request, rest) {
        (Request::Eval, _) => Some((rest, None)),
        (Request::Run { .. } | Request::Levels, [stimulus]) => Some((&[], Some(*stimulus))),
        (Request::Net | Request::Check | Request::Dot | Request::Json, []) => Some((&[], None)),
        _ => None,
    }
}

/// Whether the standard input is read once at most: by one of the files beside the source and the
/// stimulus, or by operands.
fn is_read_once(
    with: &[&str],
    list: Option<&str>,
    expected: Option<&str>,
    operands: &[&str],
) -> bool
    ensures { result ≡ words.is_read_once (map text_of with.now) (option_map text_of list.entry)
        (option_map text_of expected.entry) (map text_of operands.now) }
{
    let beside = standard_count(with) + standard_of(list) + standard_of(expected);
    beside == 0 || beside == 1 && standard_count(operands) == 0
}

/// One where this name is given and is the standard input's.
fn standard_of(name: Option<&str>) -> usize
    ensures count { result ≡ words.standard_of (option_map text_of name.entry) }
    ensures within { result ≤ 1 }
{
    match name {
        Some("@") => 1,
        _ => 0,
    }
}

/// How many of these names are the standard input's.
fn standard_count(names: &[&str]) -> usize
    ensures count { result ≡ words.standard_count (map text_of names.now) }
    ensures within { result ≤ length names.now }
{
    names.iter().filter(|name| **name == "@").count()
}

/// What clap tells of words that say no request: a mistake, or the help that is asked for.
fn refusal_text<'a>(alloc: Global, words: &'a [&'a str]) -> Result<String, AllocError> {
    let is_listed = has_option(words, "--files");
    let outcome = command(alloc, is_listed)?.try_get_matches_from(words);
    match told_by(alloc, outcome)? {
        None => String::from_str(alloc, unsaid(alloc, words, is_listed)?),
        Some((true, text)) if has_option(words, "--with") => with_tip(alloc, text),
        Some((_, text)) => Ok(text),
    }
}

/// What clap tells, if it has something against the words, and whether it doesn't know one of them.
fn told_by(
    alloc: Global,
    outcome: Result<ArgMatches<'_>, Error>,
) -> Result<Option<(bool, String)>, AllocError> {
    match outcome {
        Ok(_) => Ok(None),
        Err(error) => Ok(Some((
            error.kind() == ErrorKind::UnknownArgument,
            error_text(alloc, &error)?,
        ))),
    }
}

/// Whether an option stands among words.
fn has_option(words: &[&str], name: &str) -> bool {
    words.iter().any(|word| word.starts_with(name))
}

/// The text of an operand that is one too many, and below its first line what helps; another text
/// stays.
fn with_tip(alloc: Global, text: String) -> Result<String, AllocError> {
    if text.starts_with("error: unexpected argument '-") {
        return Ok(text);
    }
    let Some((fault, others)) = text.split_once("\n\n") else {
        return Ok(text);
    };
    let mut told = String::from_str(alloc, fault)?;
    told.push_str(ONE_FILE)?;
    told.push_str("\n\n")?;
    told.push_str(others)?;
    Ok(told)
}

/// What is told of words that clap has nothing against.
fn unsaid(alloc: Global, words: &[&str], is_listed: bool) -> Result<&'static str, AllocError>
    ensures { IfOk result (λ text. text.now ≡ unsaid_text (are_set PARTS (map text_of words.now)) is_listed) }
{
    if !sets_generics(alloc, words)? {
        return Ok(BAD_GENERIC);
    }
    Ok(if is_listed {
        LIST_READ_TWICE
    } else {
        READ_TWICE
    })
}

/// Whether each generic that words set is set rightly.
fn sets_generics(alloc: Global, words: &[&str]) -> Result<bool, AllocError>
    ensures { IfOk result (λ set. set ≡ are_set PARTS (map text_of words.now)) }
{
    let [_command, others @ ..] = words else {
        return Ok(true);
    };
    let Some(given) = read_words(alloc, table(), others)? else {
        return Ok(false);
    };
    let settings = settings_of(alloc, &given.values(alloc, "generic")?)?;
    Ok(settings.is_some())
}

/// The text of an error of clap's, which is want of memory where clap had none.
fn error_text(alloc: Global, error: &Error) -> Result<String, AllocError>
    ensures { kind_of error.now ≡ OutOfMemory → IsErr result }
{
    if error.kind() == ErrorKind::OutOfMemory {
        return Err(AllocError);
    }
    error.to_string(alloc)
}
