//! Calls.

use crate::generics::Setting;

/// In which order the resumed processes of a simulation cycle run.
#[derive(Clone, Copy)]
pub enum Order {
    /// By their numbers.
    Forward,
    /// By their numbers, backwards.
    Reverse,
}

/// What is asked for.
#[derive(Clone, Copy)]
pub enum Request {
    /// Prints the outputs of a design under the inputs that are set.
    Eval,
    /// Prints the nets of a design and what drives each.
    Net,
    /// Says whether a design is sure to settle.
    Check,
    /// Draws the levels of a design that is sure to settle, or tells its faults.
    Dot,
    /// Says as an object of JSON whether a design is sure to settle.
    Json,
    /// Prints the trace of a design under a stimulus; with `is_event` by events alone, without the
    /// checker.
    Run { is_event: bool, order: Order },
    /// Prints the trace of a design under a stimulus, processes run in order of their nets' levels.
    Levels,
}

/// What words say. The name of a file may be `@`, the standard input.
#[derive(Drop)]
pub struct Call<'a> {
    pub request: Request,
    /// The name of the source, which is empty where a list has it.
    pub file: &'a str,
    /// The name of a list of the source's files, if one stands for the source.
    pub list: Option<&'a str>,
    /// The name of the top.
    pub top: &'a str,
    /// The words that set inputs; none beside any request but `Eval`.
    pub sets: Vec<&'a str>,
    /// The name of the stimulus of a run; `None` beside any other request.
    pub stimulus: Option<&'a str>,
    /// The names of files whose texts stand before the source's, in order.
    pub with: Vec<&'a str>,
    /// Whether faults are explained.
    pub explains: bool,
    /// Whether the wider language is read.
    pub is_wide: bool,
    /// The name of the file of what is expected of a run; `None` where nothing is, and beside any
    /// other request.
    pub expected: Option<&'a str>,
    /// Whether a run shows how far it is; `false` beside any other request.
    pub shows_progress: bool,
    /// What is set of the top's generics, each once.
    pub generics: Vec<Setting<'a>>,
    /// The names of what the trace of a run shows; none where it shows all, and beside any other
    /// request.
    pub traced: Vec<&'a str>,
    /// Whether a run writes no trace; `false` beside any other request.
    pub is_untraced: bool,
}
