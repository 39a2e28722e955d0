//! Remarks.

ghost use Rattle.std.specs.Prelude.{◌≡◌};
ghost use Rattle.rtl_remarks.specs.Remarks as spec;

/// What a remark on a netlist, or on a stimulus of it, tells of its net.
#[derive(Clone, Copy)]
pub enum RemarkKind {
    /// It is an element of a signal, no port, and nothing drives it. The process is the first that
    /// reads it.
    Undriven,
    /// It is an out port of the top that nothing drives.
    Unassigned,
    /// An out port of an instance drives it, and nothing inside drives the port.
    IdlePort,
    /// The process drives it at a clock's edge, and the branch of its asynchronous reset doesn't
    /// assign it.
    NotReset,
    /// The combinational process reads it, and it is the clock of another.
    ClockRead,
    /// The process drives it at a clock's edge, from `U` on, and no assignment that may run while
    /// it is undefined makes it anything else, while some would keep it so.
    NeverKnown,
    /// No process reads it, and it is an element of an in port of the top of which others are read.
    UnreadElement,
    /// No line of a stimulus names its port, and it is a clock.
    ClockWithoutLine,
    /// The same of another input.
    InputWithoutLine,
    /// It is a digit of an integer, to which the process may give a number outside its range, where
    /// no condition round that looks at what the number is made of.
    OutsideRange,
}

/// A remark, by the numbers of what it names.
#[derive(Clone, Copy)]
pub struct Remark {
    pub kind: RemarkKind,
    pub process: Option<usize>,
    pub net: usize,
}

impl Remark {
    /// One that names a net alone.
    pub fn at_net(kind: RemarkKind, net: usize) -> Remark
        ensures { result ≡ spec.at_net kind net }
    {
        Remark {
            kind,
            process: None,
            net,
        }
    }

    /// One that names a process too.
    pub fn at_process(kind: RemarkKind, process: usize, net: usize) -> Remark
        ensures { result ≡ spec.at_process kind process net }
    {
        Remark {
            kind,
            process: Some(process),
            net,
        }
    }
}
