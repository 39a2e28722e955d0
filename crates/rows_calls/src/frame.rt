//! Texts as the tables write them, and the frames in which they stand.

use crate::text::Text;
use std::alloc::Global;

/// What stands before and behind a text to make it a file.
#[derive(Clone, Copy)]
pub struct Frame<'a> {
    pub before: &'a str,
    pub behind: &'a str,
}

impl<'a> Frame<'a> {
    /// The frame of a text that is a file.
    pub const WHOLE: Frame<'static> = Frame {
        before: "",
        behind: "",
    };

    /// The frame of a form with `…` in the place of the text.
    pub fn of(form: &'a str) -> Frame<'a> {
        match form.split_once('…') {
            Some((before, behind)) => Frame { before, behind },
            None => Frame::WHOLE,
        }
    }

    /// The text in this frame, and the place of the fault: the source's length where there is no
    /// mark.
    pub fn source_of(self, alloc: Global, written: &str) -> (Text, usize) {
        let (read, unread) = written.split_once('^').unwrap_or((written, ""));
        let mut source = Text::new(alloc);
        source.push(self.before);
        push_repeated(&mut source, read);
        let place = source.as_bytes().len();
        push_repeated(&mut source, unread);
        source.push(self.behind);
        (source, place)
    }
}

/// Adds a text, in which `{N TEXT}` stands for N times the text.
fn push_repeated(source: &mut Text, written: &str) {
    let mut parts = written.split('{');
    source.push(parts.next().unwrap_or(""));
    for part in parts {
        push_repetition(source, part);
    }
}

/// Adds `N TEXT}REST`: N times the text, and the rest. Where there is no `}`, all is the rest.
fn push_repetition(source: &mut Text, part: &str) {
    let (repetition, rest) = part.split_once('}').unwrap_or(("", part));
    let (count, text) = repetition.split_once(' ').unwrap_or(("", ""));
    for _ in 0..count.parse::<u32>().unwrap_or(0) {
        source.push(text);
    }
    source.push(rest);
}
