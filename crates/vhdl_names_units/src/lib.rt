//! The units of a file as they are analysed (IEEE 1076-2008, clauses 3, 6, 10, 11 and 13):
//! declarations, statements, entities and architectures. `specs/views` says what contracts see of
//! them: the units of vhdl_names_rules. Beside them stands what statements, instances and files
//! share of these rules: labels and end names, names that stand once, and which of several faults
//! is told first.
#![tactic(auto)]

mod actuals;
mod answers;
mod concurrent;
mod declaration;
mod faults;
mod labels;
mod sequential;
mod unit;

pub use actuals::{Actual, Actuals};
pub use answers::{
    Assigned, Choice, Fixed, Form, Given, Object, Selector, SignalName, Subtype, Target, part_range,
};
pub use concurrent::{Concurrent, Generate, Instance, Process, Scheme, Sensitivity};
pub use declaration::{Declaration, GenericType, Generics, Objects, Ports};
pub use faults::{earlier, earlier_in};
pub use labels::{copied, copied_label, ended, ends, is_text, label_ends};
pub use sequential::{Alternative, Branch, Case, If, Loop, Statement};
pub use unit::{Architecture, Entity, Units};
