//! A row of a table.

use crate::answer::Answer;
use crate::names::named;
use crate::text::Text;
use std::alloc::{AllocError, Global};
use std::fs;
use std::rt::Files;

/// What is told where the standard input can't be read, and an explanation is asked for.
const FAILED_READ_EXPLAINED: &[u8] =
    b"rtlsim: input\n@: input: reading it failed\nhelp: copy it by another program: that shows whether its disk or the other end of its pipe is at fault\n";

/// As many spaces are added to an input at a time.
const BLOCK: usize = 4096;

/// What a line of a row tells.
enum Kind {
    /// A text of the input, and what stands behind it.
    Input(&'static str),
    /// A file of which the input goes on.
    File,
    /// How many spaces the input goes on with.
    Spaces,
    /// A text of the output that is wanted, and what stands behind it.
    Output(&'static str),
    /// A line of the error output that is wanted, with the number of the marked byte in place of
    /// `^`.
    Error,
    /// A line of the error output that is wanted.
    PlainError,
    /// A text that stands in the error output that is wanted.
    Part,
    /// A text that is shown, which replaces its line.
    Progress,
    /// The end of the line that is shown.
    EndOfProgress,
    /// The status that is wanted.
    Status,
    /// The calls by which the row is made.
    Calls,
    /// Lines that come several times.
    Repeated,
    /// Nothing.
    Comment,
}

/// The kinds of lines, by their first words.
static KINDS: [(&str, Kind); 16] = [
    ("<", Kind::Input("\n")),
    ("<-", Kind::Input("")),
    ("<<", Kind::File),
    ("<*", Kind::Spaces),
    (">", Kind::Output("\n")),
    (">-", Kind::Output("")),
    ("!", Kind::Error),
    ("!|", Kind::PlainError),
    ("!~", Kind::Part),
    ("!\\r", Kind::Progress),
    ("!\\n", Kind::EndOfProgress),
    ("=", Kind::Status),
    ("by", Kind::Calls),
    ("*", Kind::Repeated),
    ("#", Kind::Comment),
    ("", Kind::Comment),
];

/// Words and an input, and what a call with them must answer.
#[derive(Drop)]
pub struct Row<'a> {
    /// The words as they stand in the table.
    pub line: &'a str,
    pub words: Vec<&'a str>,
    pub input: Text,
    pub answer: Answer,
    /// Where the error output is the text of the reader of words: texts that stand in it.
    pub parts: Vec<&'a str>,
    /// The names of the calls by which the row is made, with a space between.
    pub calls: &'a str,
    /// The byte of the input that is marked.
    mark: usize,
    /// Whether a line is of no kind, a file isn't there, or memory for words was refused.
    pub is_wrong: bool,
}

impl<'a> Row<'a> {
    /// Reads a row, from its words on.
    pub fn read<R: Files + AllocGlobal>(rt: &R, part: &'a str) -> Row<'a> {
        let (line, rest) = part.split_once('\n').unwrap_or((part, ""));
        let mut row = Row::of_words(rt.alloc(), line);
        for line in rest.split('\n') {
            row.take_line(rt, line);
        }
        if row.calls.is_empty() {
            row.calls = row.usual_calls();
        }
        row
    }

    /// A row with no line but that of its words, which are cut at runs of spaces.
    fn of_words(alloc: Global, line: &'a str) -> Row<'a> {
        let mut row = Row {
            line: line.trim(),
            words: Vec::new(alloc),
            input: Text::new(alloc),
            answer: Answer::new(alloc),
            parts: Vec::new(alloc),
            calls: "",
            mark: 0,
            is_wrong: false,
        };
        for word in line.split(' ') {
            if !word.is_empty() && row.words.push(word).is_err() {
                row.is_wrong = true;
            }
        }
        row
    }

    /// Takes a line, whose first word is its kind.
    fn take_line<R: Files + AllocGlobal>(&mut self, rt: &R, line: &'a str) {
        let (word, text) = line.split_once(' ').unwrap_or((line, ""));
        match named(&KINDS, word) {
            Some(Kind::Calls) => self.calls = text,
            Some(Kind::Part) => {
                if self.parts.push(text).is_err() {
                    self.is_wrong = true;
                }
            }
            Some(Kind::File) => self.push_file(rt, text),
            Some(Kind::Repeated) => self.push_repeated(rt.alloc(), text),
            Some(kind) => self.push_text(kind, text),
            None => self.is_wrong = true,
        }
    }

    /// Adds a file to the input.
    fn push_file<R: Files + AllocGlobal>(&mut self, rt: &R, file: &str) {
        match fs::read(rt, file) {
            Ok(bytes) => self.input.push_bytes(&bytes),
            Err(_) => self.is_wrong = true,
        }
    }

    /// Adds lines as often as a text says, with a number in them: how often, the first number, the
    /// step, and the lines.
    fn push_repeated(&mut self, alloc: Global, text: &str) {
        let (count, text) = cut_number(text);
        let (first, text) = cut_number(text);
        let (step, text) = cut_number(text);
        let (word, text) = text.split_once(' ').unwrap_or((text, ""));
        for turn in 0..count {
            let number = first.saturating_add(turn.saturating_mul(step));
            self.push_lines(word, &with_number(alloc, text, number));
        }
    }

    /// Adds lines of one kind, with ` / ` between them.
    fn push_lines(&mut self, word: &str, lines: &Text) {
        match named(&KINDS, word) {
            Some(kind) => {
                for line in lines.as_str().split(" / ") {
                    self.push_text(kind, line);
                }
            }
            None => self.is_wrong = true,
        }
    }

    /// Takes a text of one of the kinds that keep no part of it.
    fn push_text(&mut self, kind: &Kind, text: &str) {
        match kind {
            Kind::Input(end) => self.push_input(text, end),
            Kind::Output(end) => {
                self.answer.out.push(text);
                self.answer.out.push(end);
            }
            Kind::Spaces => self.push_spaces(text.parse::<usize>().unwrap_or(0)),
            Kind::Status => self.answer.status = text.parse::<u8>().unwrap_or(u8::MAX),
            Kind::Comment => {}
            Kind::Error => self.push_error(text),
            Kind::PlainError => self.answer.err.push_line(text),
            Kind::Progress => {
                self.answer.progress.push("\r");
                self.answer.progress.push(text);
            }
            Kind::EndOfProgress => self.answer.progress.push("\n"),
            _ => self.is_wrong = true,
        }
    }

    /// Adds a text to the input, and marks the byte behind `^`.
    fn push_input(&mut self, text: &str, end: &str) {
        match text.split_once('^') {
            Some((before, after)) => {
                self.input.push(before);
                self.mark = self.input.as_bytes().len();
                self.input.push(after);
            }
            None => self.input.push(text),
        }
        self.input.push(end);
    }

    fn push_spaces(&mut self, count: usize) {
        let block = [b' '; BLOCK];
        for _ in 0..count / BLOCK {
            self.input.push_bytes(&block);
        }
        self.input.push_bytes(&block[..count % BLOCK]);
    }

    /// Adds a line to the error output that is wanted, with the number of the marked byte in place
    /// of `^`.
    fn push_error(&mut self, text: &str) {
        match text.split_once('^') {
            Some((before, after)) => {
                self.answer.err.push(before);
                self.answer.err.push_number(self.mark);
                self.answer.err.push_line(after);
            }
            None => self.answer.err.push_line(text),
        }
    }

    /// The first line that must come, or a text that must stand in one.
    pub fn told(&self) -> &str {
        if let [part, ..] = self.parts.as_slice() {
            return part;
        }
        let text = if self.answer.out.as_bytes().is_empty() {
            &self.answer.err
        } else {
            &self.answer.out
        };
        text.as_str().split('\n').next().unwrap_or("")
    }

    /// Puts `--wide` behind the command, and says whether that is another call over files.
    pub fn widen(&mut self) -> bool {
        self.words.len() > 1
            && self.calls.find("files").is_some()
            && !self.has_option("--wide")
            && self.words.insert(1, "--wide").is_ok()
    }

    /// Whether an option of this name stands among the words.
    fn has_option(&self, name: &str) -> bool {
        self.words.iter().any(|word| word.starts_with(name))
    }

    /// What is told where the standard input can't be read.
    pub fn failed_read(&self) -> &'static [u8] {
        if self.has_option("--explain") {
            FAILED_READ_EXPLAINED
        } else {
            b"rtlsim: input\n"
        }
    }

    /// The calls by which a row is made that names none.
    fn usual_calls(&self) -> &'static str {
        if self.has_option("--with") {
            return "files line";
        }
        if !self.parts.is_empty() || self.has_option("--explain") || self.has_option("--json") {
            return "tool files line";
        }
        if self.has_option("--progress") {
            return "tool stream files line shows";
        }
        if self.words.is_empty() {
            return "tool line reads writes";
        }
        if self.answer.status == 8 {
            return "tool files line writes";
        }
        if self.line.starts_with("eval ") {
            return "tool files line library reads writes";
        }
        if self.line.starts_with("run ") && !self.has_option("--levels") {
            return "tool files line library trees";
        }
        "tool files line library"
    }
}

/// The number that is the first word of a text, and what stands behind it.
fn cut_number(text: &str) -> (usize, &str) {
    let (word, rest) = text.split_once(' ').unwrap_or((text, ""));
    (word.parse::<usize>().unwrap_or(0), rest)
}

/// A text with a number in place of each `%`.
fn with_number(alloc: Global, text: &str, number: usize) -> Text {
    let mut line = Text::new(alloc);
    let mut parts = text.split('%');
    line.push(parts.next().unwrap_or(""));
    for part in parts {
        line.push_number(number);
        line.push(part);
    }
    line
}

/// The bytes of each text.
///
/// # Errors
///
/// Where memory was refused.
pub fn bytes_of<'a>(alloc: Global, texts: &'a [&'a str]) -> Result<Vec<&'a [u8]>, AllocError> {
    let mut all = Vec::with_capacity(alloc, texts.len())?;
    for text in texts {
        all.push(text.as_bytes())?;
    }
    Ok(all)
}
