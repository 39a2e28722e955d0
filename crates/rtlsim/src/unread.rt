//! Inputs that aren't read, by their names.

ghost use Rattle.std.specs.Prelude.{◌≡◌};
ghost use Rattle.rtlsim.specs.Unread as unread;
ghost use Rattle.rtlsim.specs.declared.unread.ReadFault.TheVariants.{NoMemory};

use crate::inputs::InputFault;
use crate::problem::InputProblem;
use rtlsim_commands::Status;
use std::alloc::AllocFailed;

/// Why reading the files of a call ends early.
#[derive(Clone, Copy)]
pub(crate) enum ReadFault<'a> {
    /// The input of this name, as it was given, isn't read.
    Unread {
        name: &'a str,
        problem: InputProblem,
    },
    /// Memory was refused.
    NoMemory,
}

impl<T: Drop> From<AllocFailed<T>> for ReadFault<'_> {
    ghost from_gives = { λ _ fault. fault ≡ NoMemory };

    fn from(_refused: AllocFailed<T>) -> Self {
        ReadFault::NoMemory
    }
}

impl<'a> ReadFault<'a> {
    /// The fault of the input of this name.
    pub(crate) fn of(name: &'a str, fault: InputFault) -> ReadFault<'a>
        ensures { unread.unread_of result ≡ unread.unread_by name.now fault }
    {
        match fault {
            InputFault::Failed(problem) => ReadFault::Unread { name, problem },
            InputFault::NoMemory => ReadFault::NoMemory,
        }
    }

    /// The status that the program ends with.
    pub(crate) fn status(self) -> Status
        ensures { result ≡ unread.fault_status (unread.unread_of self.entry) }
    {
        match self {
            ReadFault::Unread { .. } => Status::Failed,
            ReadFault::NoMemory => Status::Memory,
        }
    }
}
