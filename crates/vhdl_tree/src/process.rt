//! Processes and selected assignments (IEEE 1076-2008 clauses 11.3, 10.2 and 11.6).

use crate::declaration::ProcessDeclaration;
use crate::expression::{Choice, Expr, Identifier, Name, Value};
use crate::sequential::Sequential;
use drops::take_apart;

/// The names whose events resume a process.
pub enum Sensitivity {
    /// There is no sensitivity list.
    Absent,
    /// `( all )`: each name that the process reads.
    All,
    Names(Vec<Name>),
}

impl Drop for Sensitivity {
    fn drop(self) {
        take_apart!(self: Absent | All | Names(_));
    }
}

/// What a process waits for before its statements (10.2): `wait until condition;`, and the byte at
/// which `wait` starts.
pub struct Wait {
    pub at: usize,
    pub condition: Expr,
}

impl Drop for Wait {
    fn drop(self) {
        take_apart!(self: { at, condition });
    }
}

/// A process behind its label, and the byte at which it starts. `is_word` says whether `is`
/// stands before its declarations and statements.
pub struct Process {
    pub at: usize,
    pub sensitivity: Sensitivity,
    pub is_word: bool,
    pub declarations: Vec<ProcessDeclaration>,
    pub wait: Option<Wait>,
    pub statements: Vec<Sequential>,
    pub end_label: Option<Identifier>,
}

impl Drop for Process {
    fn drop(self) {
        take_apart!(self: { at, sensitivity, is_word, declarations, wait, statements, end_label });
    }
}

/// `value when choices`.
pub struct Waveform {
    pub value: Value,
    pub choices: Vec<Choice>,
}

impl Drop for Waveform {
    fn drop(self) {
        take_apart!(self: { value, choices });
    }
}

/// A selected assignment behind its label, and the byte at which it starts.
pub struct SelectedAssignment {
    pub at: usize,
    pub selector: Expr,
    pub target: Name,
    pub waveforms: Vec<Waveform>,
}

impl Drop for SelectedAssignment {
    fn drop(self) {
        take_apart!(self: { at, selector, target, waveforms });
    }
}
