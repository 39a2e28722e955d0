//! What faults are told with.

use rtl_net::Net;
use std::alloc::Global;
use vhdl_lexer::Language;
use vhdl_slips::Lexed;
use vhdl_source_files::SourceFile;

/// The texts that a command was given, by which its faults are told, and how.
#[derive(Clone, Copy)]
pub struct Telling<'a> {
    /// The files whose texts, joined, are the source.
    pub files: &'a [SourceFile<'a>],
    /// The source with its tokens, by which places are told; without tokens where nothing asks for
    /// these places.
    pub source: Lexed<'a>,
    /// In which language the source is read.
    pub language: Language,
    /// The name of the stimulus, or of what stands in its place.
    pub stimulus: &'a [u8],
    /// Its text, if it has one.
    pub stimulus_text: Option<&'a [u8]>,
    /// The name of the file of expected values; nothing without one.
    pub expected: &'a [u8],
    /// Its text, if there is one.
    pub expected_text: Option<&'a [u8]>,
    /// The names of signals that a trace is to show.
    pub trace: &'a [&'a [u8]],
    /// Whether an explanation stands below the line of a fault.
    pub explains: bool,
}

/// What the faults of a netlist are told with.
#[derive(Clone, Copy)]
pub(crate) struct Site<'a> {
    pub alloc: Global,
    pub telling: &'a Telling<'a>,
    pub net: &'a Net,
}
