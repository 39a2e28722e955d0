//! What is told of a refused token.

/// What is wrong, and what a designer does about it.
pub type Said = (&'static str, &'static str);

/// What is told of a refused token, behind it and as help.
#[derive(Clone, Copy)]
pub enum Expected {
    /// Nothing with which the text goes on is known.
    Nothing,
    /// A word is meant or lacks.
    Surely(Said),
    /// Something else stands in the token's place or before it, unless a form is known that isn't
    /// read.
    Perhaps(Said),
}
