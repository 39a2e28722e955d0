//! What is tried with a design.

use rows_calls::{Frame, Teller, Text};
use rows_on_net::push_try;
use std::alloc::Global;
use vhdl_front::{Asked, open};

/// Tries with the design of a row's frame, by the row's words.
#[derive(Clone, Copy)]
pub struct Tries;

impl Teller for Tries {
    /// Adds what comes of a try.
    fn told(&self, alloc: Global, frame: Frame<'_>, written: &str, found: &mut Text) {
        let (source, _) = frame.source_of(alloc, "");
        found.heed(&source);
        match open(alloc, Asked::plain(source.as_bytes(), b"t")) {
            Ok(net) => push_try(alloc, net, written, found),
            Err(fault) => found.push_shown(&fault),
        }
    }
}
