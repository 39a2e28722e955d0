//! From a body to instructions.

mod assignments;
mod elements;
mod expressions;
mod jumps;
mod statements;
mod tests;
mod values;

pub(crate) use statements::statements;
