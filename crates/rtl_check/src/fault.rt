//! Faults of a netlist.

use fault_rules::CheckRule;
use rtl_net::Source;
use std::fmt;
use thiserror::Error;

/// A fault, by the numbers of what it names.
#[derive(Drop, Error)]
pub enum CheckFault {
    /// The net has two sources or more: these are the first two, drivers before idle ports.
    #[error("{rule}, of net {net}", rule = CheckRule::TwoDrivers.words())]
    TwoDrivers {
        net: usize,
        first: Source,
        second: Source,
    },
    /// The process is neither clocked nor combinational; or, in the wider language, its reset may
    /// come and go within a moment.
    #[error("{rule}, of process {process}", rule = CheckRule::Mixed.words())]
    Mixed {
        process: usize,
    },
    /// Its clock is no in port of the top.
    #[error("{rule}, of process {process} and net {net}", rule = CheckRule::ClockNotInput.words())]
    ClockNotInput {
        process: usize,
        net: usize,
    },
    /// It isn't sensitive to its clock or its reset.
    #[error("{rule}, of process {process} and net {net}", rule = CheckRule::EdgeNotSensitive.words())]
    EdgeNotSensitive {
        process: usize,
        net: usize,
    },
    /// The branch under its edge reads a clock, or its reset is one.
    #[error("{rule}, of process {process} and net {net}", rule = CheckRule::ClockAsData.words())]
    ClockAsData {
        process: usize,
        net: usize,
    },
    /// It is combinational and reads a net that it isn't sensitive to.
    #[error("{rule}, of process {process} and net {net}", rule = CheckRule::MissingSensitivity.words())]
    MissingSensitivity {
        process: usize,
        net: usize,
    },
    /// It is combinational, and drives a net that it doesn't assign on every syntactic path.
    #[error("{rule}, of process {process} and net {net}", rule = CheckRule::Latch.words())]
    Latch {
        process: usize,
        net: usize,
    },
    /// Each process is sensitive to a net that the next drives, and the last to one that the first
    /// drives.
    #[error("{rule}", rule = CheckRule::Loop.words())]
    Loop {
        processes: Vec<usize>,
    },
    /// In the wider language: each net looks at the next, and the last at the first.
    #[error("{rule}", rule = CheckRule::Loop.words())]
    NetLoop {
        nets: Vec<usize>,
    },
    /// The process reads the element at this place of this variable where it hasn't assigned it on
    /// every syntactic path.
    #[error("{rule}, of process {process}, variable {variable}, place {place}", rule = CheckRule::StoredVariable.words())]
    StoredVariable {
        process: usize,
        variable: usize,
        place: usize,
    },
}

impl fmt::Debug for CheckFault {
    fn fmt<W: fmt::Write>(&self, f: &mut fmt::Formatter<W>) -> fmt::Result {
        fmt::Display::fmt(self, f)
    }
}
