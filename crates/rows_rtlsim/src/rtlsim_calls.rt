//! The program's calls.

use crate::library::{answer_by_library, answer_by_trees};
use byte_streams::{Reader, Sink};
use rows_calls::Program;
use rtlsim::{Named, Standard, parse_words, tool, tool_first_line, tool_with};
use std::alloc::Global;
use std::rt::Files;
use vhdl_front::Vhdl;

/// The program.
pub struct Rtlsim;

impl Program for Rtlsim {
    fn tool<R: Reader + Drop, O: Sink, E: Sink, G: Sink>(
        &self,
        alloc: Global,
        words: &[&str],
        reader: R,
        out: &mut O,
        err: &mut E,
        progress: &mut G,
    ) -> u8 {
        let mut input = Standard { reader };
        tool::<Vhdl, _, _, _, _>(alloc, words, &mut input, out, err, progress)
    }

    fn tool_with<F: Files, O: Sink, E: Sink, G: Sink>(
        &self,
        alloc: Global,
        words: &[&str],
        inputs: (&F, &[u8]),
        out: &mut O,
        err: &mut E,
        progress: &mut G,
    ) -> u8 {
        let (files, reader) = inputs;
        let mut inputs = Named { files, reader };
        tool_with::<Vhdl, _, _, _, _>(alloc, words, &mut inputs, out, err, progress).code()
    }

    fn tool_first_line<F: Files, O: Sink, E: Sink, G: Sink>(
        &self,
        alloc: Global,
        inputs: (&F, &[u8]),
        out: &mut O,
        err: &mut E,
        progress: &mut G,
    ) -> u8 {
        let (files, mut reader) = inputs;
        tool_first_line::<Vhdl, _, _, _, _, _>(alloc, files, &mut reader, out, err, progress).code()
    }

    fn library<O: Sink>(
        &self,
        alloc: Global,
        words: &[&str],
        input: &[u8],
        out: &mut O,
    ) -> Option<u8> {
        let Ok(call) = parse_words(alloc, words) else {
            return None;
        };
        Some(answer_by_library(alloc, &call, input, out))
    }

    fn by_trees<O: Sink, E: Sink>(
        &self,
        alloc: Global,
        words: &[&str],
        input: &[u8],
        out: &mut O,
        err: &mut E,
    ) -> Option<u8> {
        let Ok(call) = parse_words(alloc, words) else {
            return None;
        };
        answer_by_trees(alloc, &call, input, out, err)
    }
}
