//! The program, as rows call it.

ghost use Rattle.byte_streams.specs.Written.{IsIntact};

use byte_streams::{Reader, Sink};
use std::alloc::Global;
use std::rt::Files;

/// The calls by which a row can be made. Each answers the status; what goes to the outputs goes to
/// `out` and `err`, and what shows how far a run is to `progress`.
pub trait Program {
    /// The call over words and the standard input.
    fn tool<R: Reader + Drop, O: Sink, E: Sink, G: Sink>(
        &self,
        alloc: Global,
        words: &[&str],
        reader: R,
        out: &mut O,
        err: &mut E,
        progress: &mut G,
    ) -> u8
        requires out { IsIntact (O.state out.old) }
        requires err { IsIntact (E.state err.old) };

    /// The call over words, the standard input and files.
    fn tool_with<F: Files, O: Sink, E: Sink, G: Sink>(
        &self,
        alloc: Global,
        words: &[&str],
        inputs: (&F, &[u8]),
        out: &mut O,
        err: &mut E,
        progress: &mut G,
    ) -> u8
        requires out { IsIntact (O.state out.old) }
        requires err { IsIntact (E.state err.old) };

    /// The call without words, over the standard input, whose first line has them, and files.
    fn tool_first_line<F: Files, O: Sink, E: Sink, G: Sink>(
        &self,
        alloc: Global,
        inputs: (&F, &[u8]),
        out: &mut O,
        err: &mut E,
        progress: &mut G,
    ) -> u8
        requires out { IsIntact (O.state out.old) }
        requires err { IsIntact (E.state err.old) };

    /// The library's call for what the words ask, if they ask for something: the status stands for
    /// its fault, if it has one.
    fn library<O: Sink>(
        &self,
        alloc: Global,
        words: &[&str],
        input: &[u8],
        out: &mut O,
    ) -> Option<u8>
        requires { IsIntact (O.state out.old) };

    /// The run that the words ask for, over bodies as trees and an agenda over a map, if they ask
    /// for one by delta cycles: the status, and at `err` what is told where it went on to the stop
    /// or did not settle.
    fn by_trees<O: Sink, E: Sink>(
        &self,
        alloc: Global,
        words: &[&str],
        input: &[u8],
        out: &mut O,
        err: &mut E,
    ) -> Option<u8>
        requires { IsIntact (O.state out.old) };
}
