//! Tables of rows, by what stands in them.

use crate::asked::push_answer;
use crate::explained::push_explanation;
use crate::problems::push_problem;
use crate::tokens::{push_integer, push_tokens};
use crate::trees::{push_reading, push_tree};
use rows_calls::{Frame, Teller, Text};
use std::alloc::Global;

/// What the rows of a table are.
pub enum Table {
    /// Calls of the values, with their answers.
    Values,
    /// Sources, with their tokens or fault.
    Tokens,
    /// Texts of integers, with their numbers.
    Integers,
    /// Texts that are read or refused, each in the frame above it.
    Texts,
    /// Sources, with their tree or fault.
    Trees,
    /// Sources that are refused, with the explanation.
    Refused,
    /// Problems at the mark of a text, with the explanation.
    Problems,
}

impl Teller for Table {
    fn told(&self, alloc: Global, frame: Frame<'_>, written: &str, found: &mut Text) {
        match self {
            Table::Values => push_answer(found, written),
            Table::Tokens => push_tokens(found, alloc, written),
            Table::Integers => push_integer(found, written),
            Table::Texts => push_reading(found, alloc, frame, written),
            Table::Trees => push_tree(found, alloc, written),
            Table::Refused => push_explanation(found, alloc, written),
            Table::Problems => push_problem(found, alloc, written),
        }
    }
}
