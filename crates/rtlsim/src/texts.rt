//! What calls read.

ghost use Rattle.std.specs.Prelude.{◌≡◌, Some, Ok, Err, IfOk, IfErr, map, option_map, string_bytes};
ghost use Rattle.rtlsim.specs.Requests.{GivesFiles, GivesSources};
ghost use Rattle.rtlsim.specs.Reads.{GivesAll, GivesBoth, GivesMain, GivesMaybe, GivesOne};
ghost use Rattle.rtlsim.specs.Texts.{read_view, texts_of, texts_view};
ghost use Rattle.rtlsim.specs.Unread.{Unread, unread_of};
ghost use Rattle.rtlsim_command_line.specs.Words.{call_view};
ghost use Rattle.vhdl_source_files.specs.Files.{file_view};

use crate::halves::halves_at_line;
use crate::inputs::Inputs;
use crate::problem::InputProblem;
use crate::unread::ReadFault;
use rtlsim_command_line::Call;
use std::alloc::{AllocError, Global};
use vhdl_source_files::{SourceFile, listed};

/// What was read for a call.
#[derive(Drop)]
pub(crate) struct Texts<'a> {
    /// The files whose texts stand before the source's, in order.
    pub before: Vec<ReadFile<'a>>,
    /// The name of the source.
    pub file: &'a str,
    /// The source, with the stimulus.
    pub main: Main,
    /// What is expected of a run, if that is given.
    pub expected: Option<Vec<u8>>,
}

/// A file and its bytes.
#[derive(Drop)]
pub(crate) struct ReadFile<'a> {
    pub name: &'a str,
    pub text: Vec<u8>,
}

/// A source, and a stimulus if there is one.
#[derive(Drop)]
pub(crate) enum Main {
    /// The source alone.
    Alone(Vec<u8>),
    /// One after the other.
    Apart { source: Vec<u8>, stimulus: Vec<u8> },
    /// In one input, between which a line `@` stands.
    Together(Vec<u8>),
}

impl Texts<'_> {
    /// What is expected of a run, if that is given.
    pub(crate) fn expected(&self) -> Option<&[u8]>
        ensures { option_map (λ text. text.now) result ≡ (texts_view self.now).expected }
    {
        match &self.expected {
            Some(text) => Some(text),
            None => None,
        }
    }
}

impl Main {
    /// The text of the source, and that of the stimulus, which is empty where there is none.
    pub(crate) fn texts(&self) -> (&[u8], &[u8])
        ensures source { result.0.now ≡ (texts_of self.now).0 }
        ensures stimulus { result.1.now ≡ (texts_of self.now).1 }
    {
        match self {
            Main::Alone(source) => (source, &[]),
            Main::Apart { source, stimulus } => (source, stimulus),
            Main::Together(all) => halves_at_line(all),
        }
    }
}

impl ReadFile<'_> {
    /// Its name and bytes.
    pub(crate) fn file(&self) -> SourceFile<'_>
        ensures { file_view result ≡ read_view self.now }
    {
        SourceFile {
            name: self.name.as_bytes(),
            text: &self.text,
        }
    }
}

/// The names of the source's files, those before the last and the last: they stand in the list of
/// the call, if there is one, or in the call.
pub(crate) fn read_sources<'a, I: Inputs>(
    alloc: Global,
    call: &Call<'a>,
    inputs: &mut I,
) -> Result<(Vec<String>, String), ReadFault<'a>>
    ensures given { IfOk result (λ names.
        GivesSources I.gives (call_view call.now) (call_view call.now).list (I.state inputs.old) (I.state inputs.new)
        (Ok (record { before = map string_bytes names.0.items; last = string_bytes names.1 }))) }
    ensures failed { IfErr result (λ fault. (unread : Unread) → unread_of fault ≡ Some unread
        → GivesSources I.gives (call_view call.now) (call_view call.now).list (I.state inputs.old) (I.state inputs.new)
        (Err unread)) }
{
    let Some(name) = call.list else {
        return match own_sources(alloc, &call.with, call.file) {
            Ok(names) => Ok(names),
            Err(_) => Err(ReadFault::NoMemory),
        };
    };
    let text = read_one(alloc, name, inputs)?;
    match listed(alloc, name.as_bytes(), &text) {
        Ok(Some(names)) => Ok(names),
        Ok(None) => Err(ReadFault::Unread {
            name,
            problem: InputProblem::NoList,
        }),
        Err(_) => Err(ReadFault::NoMemory),
    }
}

/// The same names, held.
fn own_sources(
    alloc: Global,
    with: &[&str],
    file: &str,
) -> Result<(Vec<String>, String), AllocError>
    ensures before { IfOk result (λ names. map string_bytes names.0.items ≡ map (λ name. name.now) with.now) }
    ensures last { IfOk result (λ names. string_bytes names.1 ≡ file.now) }
{
    let mut before = Vec::with_capacity(alloc, with.len())?;
    for name in with {
        before.push(String::from_str(alloc, name)?)?;
    }
    Ok((before, String::from_str(alloc, file)?))
}

/// Reads the files that a call names: those before the source, the source, the stimulus, and that
/// of what is expected. The first that isn't read is told.
pub(crate) fn read_texts<'a, I: Inputs>(
    alloc: Global,
    call: &'a Call<'_>,
    before: &'a [String],
    file: &'a str,
    inputs: &mut I,
) -> Result<Texts<'a>, ReadFault<'a>>
    ensures given { IfOk result (λ texts. GivesFiles I.gives (call_view call.now)
        (record { before = map string_bytes before.now; last = file.now })
        (I.state inputs.old) (I.state inputs.new) (Ok (texts_view texts))) }
    ensures failed { IfErr result (λ fault. (unread : Unread) → unread_of fault ≡ Some unread
        → GivesFiles I.gives (call_view call.now)
        (record { before = map string_bytes before.now; last = file.now })
        (I.state inputs.old) (I.state inputs.new) (Err unread)) }
{
    let before = read_files(alloc, before, inputs)?;
    let main = read_main(alloc, file, call.stimulus, inputs)?;
    let expected = read_maybe(alloc, call.expected, inputs)?;
    Ok(Texts {
        before,
        file,
        main,
        expected,
    })
}

/// Reads the file of a name.
fn read_one<'a, I: Inputs>(
    alloc: Global,
    name: &'a str,
    inputs: &mut I,
) -> Result<Vec<u8>, ReadFault<'a>>
    ensures given { IfOk result (λ text.
        GivesOne I.gives name.now (I.state inputs.old) (I.state inputs.new) (Ok text.items)) }
    ensures failed { IfErr result (λ fault. (unread : Unread) → unread_of fault ≡ Some unread
        → GivesOne I.gives name.now (I.state inputs.old) (I.state inputs.new) (Err unread)) }
{
    match inputs.read(alloc, name) {
        Ok(text) => Ok(text),
        Err(fault) => Err(ReadFault::of(name, fault)),
    }
}

/// Reads the files of these names, in order.
fn read_files<'a, I: Inputs>(
    alloc: Global,
    names: &'a [String],
    inputs: &mut I,
) -> Result<Vec<ReadFile<'a>>, ReadFault<'a>>
    ensures given { IfOk result (λ files.
        GivesAll I.gives (map string_bytes names.now) (I.state inputs.old) (I.state inputs.new)
        (Ok (map read_view files.items))) }
    ensures failed { IfErr result (λ fault. (unread : Unread) → unread_of fault ≡ Some unread
        → GivesAll I.gives (map string_bytes names.now) (I.state inputs.old) (I.state inputs.new) (Err unread)) }
{
    let mut files = Vec::new(alloc);
    let mut left = names;
    while let [name, others @ ..] = left {
        let text = read_one(alloc, name.as_str(), inputs)?;
        files.push(ReadFile {
            name: name.as_str(),
            text,
        })?;
        left = others;
    }
    Ok(files)
}

/// Reads a source, and then a stimulus if one is named; where both are the standard input, one
/// input has both.
fn read_main<'a, I: Inputs>(
    alloc: Global,
    file: &'a str,
    stimulus: Option<&'a str>,
    inputs: &mut I,
) -> Result<Main, ReadFault<'a>>
    ensures given { IfOk result (λ main.
        GivesMain I.gives file.now (option_map (λ name. name.now) stimulus.entry) (I.state inputs.old)
        (I.state inputs.new) (Ok (texts_of main))) }
    ensures failed { IfErr result (λ fault. (unread : Unread) → unread_of fault ≡ Some unread
        → GivesMain I.gives file.now (option_map (λ name. name.now) stimulus.entry) (I.state inputs.old)
        (I.state inputs.new) (Err unread)) }
{
    match stimulus {
        None => Ok(Main::Alone(read_one(alloc, file, inputs)?)),
        Some(stimulus) => read_both(alloc, file, stimulus, inputs),
    }
}

/// Reads a source and a stimulus.
fn read_both<'a, I: Inputs>(
    alloc: Global,
    file: &'a str,
    stimulus: &'a str,
    inputs: &mut I,
) -> Result<Main, ReadFault<'a>>
    ensures given { IfOk result (λ main.
        GivesBoth I.gives file.now stimulus.now (I.state inputs.old) (I.state inputs.new) (Ok (texts_of main))) }
    ensures failed { IfErr result (λ fault. (unread : Unread) → unread_of fault ≡ Some unread
        → GivesBoth I.gives file.now stimulus.now (I.state inputs.old) (I.state inputs.new) (Err unread)) }
{
    if file == "@" && stimulus == "@" {
        return Ok(Main::Together(read_one(alloc, file, inputs)?));
    }
    let source = read_one(alloc, file, inputs)?;
    let stimulus = read_one(alloc, stimulus, inputs)?;
    Ok(Main::Apart { source, stimulus })
}

/// Reads a file, if one is named.
fn read_maybe<'a, I: Inputs>(
    alloc: Global,
    name: Option<&'a str>,
    inputs: &mut I,
) -> Result<Option<Vec<u8>>, ReadFault<'a>>
    ensures given { IfOk result (λ text.
        GivesMaybe I.gives (option_map (λ name. name.now) name.entry) (I.state inputs.old) (I.state inputs.new)
        (Ok (option_map (λ text. text.items) text))) }
    ensures failed { IfErr result (λ fault. (unread : Unread) → unread_of fault ≡ Some unread
        → GivesMaybe I.gives (option_map (λ name. name.now) name.entry) (I.state inputs.old) (I.state inputs.new)
        (Err unread)) }
{
    match name {
        None => Ok(None),
        Some(name) => Ok(Some(read_one(alloc, name, inputs)?)),
    }
}
