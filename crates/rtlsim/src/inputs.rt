//! The files that the words of the command line name.

ghost use Rattle.std.specs.Prelude.{◌≡◌, ◌≤◌, ◌⊎◌, ℕ, List, Ok, Err, IfOk, IfErr, length};
ghost use Rattle.byte_streams.specs.Read.{ReaderState};
ghost use Rattle.rtlsim.specs.Inputs.{Answer, GivesWhole, GivesFile, GivesNamed, GivesStandardAlone, greatest_input};
ghost use Rattle.rtlsim.specs.declared.problem.InputProblem.{InputProblem};
ghost use Rattle.rtlsim.specs.declared.inputs.InputFault.TheVariants.{Failed, NoMemory};

use crate::problem::InputProblem;
use byte_streams::{In, Reader};
use std::alloc::{AllocError, Global};
use std::fs;
use std::io::ErrorKind;
use std::rt::Files;

/// The most bytes of one input, and the most reads until its end is met.
pub const MAX_INPUT: usize = 33_554_432;

/// The bytes that one read asks for.
const PART: usize = 8192;

/// Why an input is refused.
#[derive(Clone, Copy)]
pub enum InputFault {
    /// It isn't there, a read failed, or its end did not come within the limit.
    Failed(InputProblem),
    /// Memory was refused.
    NoMemory,
}

impl InputFault {
    /// The fault of a file of this name; a folder that can't be read is told as one.
    fn of_name<F: Files>(self, files: &F, name: &str) -> InputFault
        ensures { (result ≡ self) ⊎ (result ≡ Failed InputProblem.Folder) }
    {
        match self {
            InputFault::Failed(InputProblem::ReadFailed) if is_folder(files, name) => {
                InputFault::Failed(InputProblem::Folder)
            }
            _ => self,
        }
    }
}

impl From<AllocError> for InputFault {
    ghost from_gives = { λ _ fault. fault ≡ NoMemory };

    fn from(_refused: AllocError) -> InputFault {
        InputFault::NoMemory
    }
}

/// Gives the bytes of a file; `@` names the standard input.
pub trait Inputs {
    // The standard input.
    ghost state: { Self → ReaderState };
    // What a read of the file of a name may give, between two states of the standard input: its
    // bytes, or why it isn't read.
    ghost gives: { ReaderState → ReaderState → List ℕ → Answer → Type 0 };

    /// The whole file of this name, at most `MAX_INPUT` bytes: `Failed` where it isn't there, can't
    /// be read or is longer, and `NoMemory` where memory was refused.
    fn read(&mut self, alloc: Global, name: &str) -> Result<Vec<u8>, InputFault>
        ensures whole { IfOk result (λ all. gives (state self.old) (state self.new) name.now (Ok all.items)) }
        ensures short { IfOk result (λ all. length all.items ≤ greatest_input) }
        ensures failed { IfErr result (λ fault. (problem : InputProblem) → fault ≡ Failed problem
            → gives (state self.old) (state self.new) name.now (Err problem)) };
}

/// The standard input alone.
#[derive(Drop)]
pub struct Standard<R: Reader> {
    pub reader: R,
}

impl<R: Reader> Inputs for Standard<R> {
    ghost state = { λ s. R.state s.reader };

    ghost gives = { GivesStandardAlone };

    fn read(&mut self, alloc: Global, name: &str) -> Result<Vec<u8>, InputFault> {
        if name != "@" {
            return Err(InputFault::Failed(InputProblem::Missing));
        }
        read_input(alloc, &mut self.reader)
    }
}

/// The standard input and the files of the system.
#[derive(Drop)]
pub struct Named<'a, F: Files, R: Reader> {
    pub files: &'a F,
    pub reader: R,
}

impl<F: Files, R: Reader> Inputs for Named<'_, F, R> {
    ghost state = { λ s. R.state s.reader };

    ghost gives = { GivesNamed F.File.remaining };

    fn read(&mut self, alloc: Global, name: &str) -> Result<Vec<u8>, InputFault> {
        if name == "@" {
            return read_input(alloc, &mut self.reader);
        }
        read_file(alloc, self.files, name)
    }
}

/// Reads a file of the system to its end.
fn read_file<F: Files>(alloc: Global, files: &F, name: &str) -> Result<Vec<u8>, InputFault>
    ensures whole { IfOk result (λ all. GivesFile F.File.remaining (Ok all.items)) }
    ensures short { IfOk result (λ all. length all.items ≤ greatest_input) }
    ensures failed { IfErr result (λ fault. (problem : InputProblem) → fault ≡ Failed problem
        → GivesFile F.File.remaining (Err problem)) }
{
    match fs::open(files, name) {
        Ok(file) => read_opened(alloc, files, name, file),
        Err(error) if error.kind() == ErrorKind::OutOfMemory => Err(InputFault::NoMemory),
        Err(error) => Err(InputFault::Failed(InputProblem::of_opening(error.kind()))),
    }
}

/// Reads an open file to its end. A folder is told as one: the system opens it, and refuses to read
/// it.
fn read_opened<F: Files>(
    alloc: Global,
    files: &F,
    name: &str,
    file: F::File,
) -> Result<Vec<u8>, InputFault>
    ensures whole { IfOk result (λ all. GivesFile F.File.remaining (Ok all.items)) }
    ensures short { IfOk result (λ all. length all.items ≤ greatest_input) }
    ensures failed { IfErr result (λ fault. (problem : InputProblem) → fault ≡ Failed problem
        → GivesFile F.File.remaining (Err problem)) }
{
    match read_input(alloc, &mut In::new(file)) {
        Ok(all) => Ok(all),
        Err(fault) => Err(fault.of_name(files, name)),
    }
}

/// Whether a folder has this name.
fn is_folder<F: Files>(files: &F, name: &str) -> bool {
    match fs::metadata(files, name) {
        Ok(metadata) => metadata.is_dir(),
        Err(_) => false,
    }
}

/// Reads to the end, which has to come within `MAX_INPUT` bytes and within as many reads: `Failed`
/// where the reader fails or the end doesn't come, with which of these it is, and `NoMemory` where
/// memory was refused.
pub fn read_input<R: Reader>(alloc: Global, reader: &mut R) -> Result<Vec<u8>, InputFault>
    ensures whole { IfOk result (λ all. GivesWhole (R.state reader.old) (R.state reader.new) (Ok all.items)) }
    ensures short { IfOk result (λ all. length all.items ≤ greatest_input) }
    ensures failed { IfErr result (λ fault. (problem : InputProblem) → fault ≡ Failed problem
        → GivesWhole (R.state reader.old) (R.state reader.new) (Err problem)) }
{
    let mut all = Vec::new(alloc);
    let mut part = [0u8; PART];
    for _ in 0..MAX_INPUT {
        let count = reader.get(&mut part);
        if reader.failed() {
            return Err(InputFault::Failed(InputProblem::ReadFailed));
        }
        if count == 0 {
            return Ok(all);
        }
        if count > MAX_INPUT - all.len() {
            return Err(InputFault::Failed(InputProblem::TooLong));
        }
        all.extend_from_slice(&part[..count])?;
    }
    Err(InputFault::Failed(InputProblem::Endless))
}
