//! The syntax tree of a file. `specs/grammar` says which tokens a tree spells, and which trees are
//! well formed.
#![tactic(auto)]

mod concurrent;
mod declaration;
mod expression;
mod instance;
mod laws;
mod levels;
mod operator;
mod process;
mod sequential;
mod unit;
mod values;

pub use concurrent::{Assertion, Assignment, Concurrent, Generate, Scheme};
pub use declaration::{
    Component, Constants, Constraint, Declaration, Enumeration, Generic, Mode, Port,
    ProcessDeclaration, Signals, Subtype, SubtypeDeclaration, Variables,
};
pub use expression::{
    Actual, Association, Attribute, Chain, Choice, DiscreteRange, Element, Expr, Identifier, Link,
    Literal, Name, Power, Range, Suffix, Value,
};
pub use instance::{Instance, Instantiated};
pub use laws::{file_height_is_bounded, height_is_bounded, narrow_files_are_wide};
pub use levels::MAX_OPEN;
pub use operator::{Direction, Operator, Sign};
pub use process::{Process, SelectedAssignment, Sensitivity, Wait, Waveform};
pub use sequential::{Alternative, Branch, Case, Conditional, For, If, Sequential, Statement};
pub use unit::{Architecture, ContextItem, DesignUnit, Entity, File, LibraryUnit, Selected};
