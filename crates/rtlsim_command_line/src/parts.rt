//! What the commands take. By this one table words are read, and of it clap has the help and what
//! it tells of mistakes.

ghost use Rattle.std.specs.Prelude.{◌≡◌, map};
ghost use Rattle.rtlsim_command_line.specs.Words as words;
ghost use Rattle.rtlsim_command_line.specs.Words.{row_of};

/// How an operand or an option is given.
#[derive(Clone, Copy)]
pub enum Form {
    /// An operand that has to be there.
    Operand,
    /// Any number of operands.
    Operands,
    /// An option that is given or not.
    Flag,
    /// An option that names a file.
    File,
    /// The same, any number of times.
    Files,
    /// An option that names a list of files.
    List,
    /// An option that names a signal or an instance, any number of times.
    Names,
    /// An option that names an order.
    Order,
    /// An option that sets a generic, any number of times.
    Setting,
}

/// An operand or an option.
#[derive(Clone, Copy)]
pub struct Part<T: Copy> {
    /// The command that takes it, or "" where each does.
    pub command: T,
    pub form: Form,
    pub name: T,
    pub help: T,
    /// The option that excludes it, or "".
    pub without: T,
}

/// A row of the table: the command, or "" for each; how it is given; its name, and the option that
/// excludes it; and its help.
macro_rules! part {
    ($command:literal $form:ident $name:literal $(without $without:literal)?: $help:literal) => {
        Part {
            command: $command,
            form: Form::$form,
            name: $name,
            help: $help,
            without: concat!($($without)?),
        }
    };
}

/// What each command takes, in the order of the help.
pub const PARTS: [Part<&str>; 18] = [
    part! { "" Operand "FILE": "The source, or @ for the standard input" },
    part! { "" Operand "TOP": "The entity at the top" },
    part! { "" Files "with": "A file whose text stands before the source's; any number" },
    part! { "" List "files" without "with": "A list of the source's files, in place of FILE: a name a line" },
    part! { "" Setting "generic": "An integer for a generic of the top, also as -gNAME=VALUE; any number" },
    part! { "" Flag "explain": "Explains each fault: its place, the line, and what to do" },
    part! { "" Flag "wide": "Reads more of VHDL; see docs/WIDE.md" },
    part! { "eval" Operands "NAME=VALUE": "An input's value, of the characters U X 0 1 Z W L H -" },
    part! { "check" Flag "dot": "Draws the levels of one that is, as a graph of Graphviz" },
    part! { "check" Flag "json" without "dot": "Prints the verdict as an object of JSON, for tools" },
    part! { "run" Operand "STIM": "The stimulus, or @ for the standard input" },
    part! { "run" Flag "event" without "levels": "Simulates by events alone, without the checker" },
    part! { "run" Order "order" without "levels": "The order in which resumed processes run" },
    part! { "run" Flag "levels": "Computes the same without delta cycles, level by level" },
    part! { "run" Names "trace": "Shows this signal, or all below this instance; any number" },
    part! { "run" Flag "no-trace" without "trace": "Writes no trace" },
    part! { "run" File "expect": "Compares with the values that FILE expects" },
    part! { "run" Flag "progress": "Shows how far the run is" },
];

impl Form {
    /// Whether an option takes a value; `None` of operands.
    pub(crate) fn takes_value(self) -> Option<bool>
        ensures { result ≡ words.takes_value self }
    {
        match self {
            Form::Operand | Form::Operands => None,
            Form::Flag => Some(false),
            _ => Some(true),
        }
    }

    /// Whether an option may be given again.
    pub(crate) fn repeats(self) -> bool
        ensures { result ≡ words.repeats self }
    {
        match self {
            Form::Files | Form::Names | Form::Setting => true,
            _ => false,
        }
    }
}

/// The table.
pub(crate) fn table() -> &'static [Part<&'static str>]
    ensures { map row_of result.now ≡ PARTS }
{
    PARTS.as_slice()
}

/// Whether the option of this name takes a value; `None` where there is no such option.
pub(crate) fn is_valued(parts: &[Part<&str>], name: &str) -> Option<bool>
    ensures { result ≡ words.is_valued (map row_of parts.now) name.now }
{
    for part in parts {
        if part.name == name {
            return part.form.takes_value();
        }
    }
    None
}
