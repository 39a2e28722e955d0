//! The elaborated netlist of a design (IEEE 1076-2008, 14.2 to 14.4): `Net`, its processes with
//! their bodies, its signals and scopes, and the sources of each net.
//!
//! Contracts see a `Net` by `specs/Nets.antt`: `flat` of it is the flat netlist of rtl_model, of
//! which all laws of simulation speak. What holds of every `Net` is in `specs/Elaborated.antt`.
//! Bodies are seen by `specs/Bodies.antt`.
#![tactic(auto)]

mod body;
mod building;
mod indices;
mod laws;
mod names;
mod net;
mod process;
mod shown;
mod signal;
mod values;
mod walk;

pub use body::{
    Alternative, Branch, Choice, Expr, Link, Operator, RowsOf, Spacing, Statement, Test, TestLink,
    Value,
};
pub use building::{IdlePort, Parts};
pub use indices::Indices;
pub use laws::nets_meet_the_laws;
pub use net::{Net, NetKind, NoMemory, Source};
pub use process::{Driver, Process, Variable};
pub use shown::Shown;
pub use signal::{Scope, Signal, SignalKind};
pub use values::{ValueText, value_text};
pub use walk::{Leaf, Visit, walk_body, walk_expr, walk_test, walk_value};
