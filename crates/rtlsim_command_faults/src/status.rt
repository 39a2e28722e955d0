//! What the program ends with.

ghost use Rattle.std.specs.Prelude.{◌≡◌};
ghost use Rattle.rtlsim_command_faults.specs.Status.{code_of};

/// How the program ended.
#[derive(Clone, Copy)]
pub enum Status {
    /// All went well.
    Done,
    /// The words of the command line are refused, or help is asked for.
    Words,
    /// The source is refused: by the lexer, the parser, names or elaboration.
    Source,
    /// The checker says no.
    Rejected,
    /// The stimulus is refused, or it has a race; or the expected values, or a name to be traced,
    /// are refused.
    Stimulus,
    /// The simulation does not settle.
    Unsettled,
    /// Memory was refused.
    Memory,
    /// An input or an output failed.
    Failed,
    /// A value isn't the expected one.
    Differs,
}

impl Status {
    /// The exit status.
    pub fn code(self) -> u8
        ensures { result ≡ code_of self }
    {
        match self {
            Status::Done => 0,
            Status::Words => 2,
            Status::Source => 3,
            Status::Rejected => 4,
            Status::Stimulus => 5,
            Status::Unsettled => 6,
            Status::Memory => 7,
            Status::Failed => 8,
            Status::Differs => 9,
        }
    }
}
