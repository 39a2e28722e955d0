//! Why an input isn't read.

ghost use Rattle.std.specs.Prelude.{◌≡◌, ◌≢◌};
ghost use Rattle.rtlsim.specs.Unread as unread;

use std::io::ErrorKind;

/// Why an input isn't read.
#[derive(Clone, Copy)]
pub enum InputProblem {
    /// There is no file of its name.
    Missing,
    /// This user may not read it.
    Denied,
    /// It is a folder.
    Folder,
    /// It isn't opened, for another reason.
    NotOpened,
    /// A read of it failed.
    ReadFailed,
    /// It has more than `MAX_INPUT` bytes.
    TooLong,
    /// Its end didn't come within as many reads as that.
    Endless,
    /// It names no file, or one in other bytes than UTF-8, where it should be a list of files.
    NoList,
}

impl InputProblem {
    /// Why a file isn't opened, by what the system says.
    pub(crate) fn of_opening(kind: ErrorKind) -> InputProblem
        ensures missing { kind ≡ ErrorKind.NotFound → result ≡ InputProblem.Missing }
        ensures denied { kind ≡ ErrorKind.PermissionDenied → result ≡ InputProblem.Denied }
        ensures folder { kind ≡ ErrorKind.IsADirectory → result ≡ InputProblem.Folder }
        ensures other { kind ≢ ErrorKind.NotFound → kind ≢ ErrorKind.PermissionDenied → kind ≢ ErrorKind.IsADirectory
            → result ≡ InputProblem.NotOpened }
    {
        match kind {
            ErrorKind::NotFound => InputProblem::Missing,
            ErrorKind::PermissionDenied => InputProblem::Denied,
            ErrorKind::IsADirectory => InputProblem::Folder,
            _ => InputProblem::NotOpened,
        }
    }

    /// What is said of it, behind the input's name.
    pub(crate) fn reason(self) -> &'static str
        ensures { result.now ≡ (unread.said_of self).0 }
    {
        match self {
            InputProblem::Missing => "there is no file of this name",
            InputProblem::Denied => "it isn't readable for this user",
            InputProblem::Folder => "it is a folder",
            InputProblem::NotOpened => "it can't be opened",
            InputProblem::ReadFailed => "reading it failed",
            InputProblem::TooLong => "it has more than 33554432 bytes",
            InputProblem::Endless => "33554432 reads of it came to no end",
            InputProblem::NoList => "it isn't a list of files",
        }
    }

    /// What is to be done about it.
    pub(crate) fn help(self) -> &'static str
        ensures { result.now ≡ (unread.said_of self).1 }
    {
        match self {
            InputProblem::Missing =>
                "see the spelling, and the folder that the program runs in; @ names the standard input",
            InputProblem::Denied => "let this user read it, and enter each folder on the way to it",
            InputProblem::Folder => "name a file in it",
            InputProblem::NotOpened => "see that each part of its name but the last is a folder",
            InputProblem::ReadFailed =>
                "copy it by another program: that shows whether its disk or the other end of its pipe is at fault",
            InputProblem::TooLong => "split it; of a source no more than 4194304 bytes are read",
            InputProblem::Endless => "write what it gives into a file, and name that",
            InputProblem::NoList =>
                "write a file's name a line, in UTF-8, as it is from the list's folder; # begins a comment",
        }
    }
}
