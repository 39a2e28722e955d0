//! The options and operands behind a command.

ghost use Rattle.std.specs.Prelude.{◌≡◌, ◌∷◌, ◌≤◌, IfOk, IfSome, MatchOption, OnOk, None, drop, length, map, option_map};
ghost use Rattle.rtlsim_command_line.specs.Words as words;
ghost use Rattle.rtlsim_command_line.specs.Words.{parsed_view, nothing, reads, row_of, takes_option, with_use, text_of, use_view};
ghost use Rattle.clap.specs.Lexer.{name_and_value};

use crate::parts::{Part, is_valued};
use std::alloc::{AllocError, Global};

/// An option that is given, and its value, which is empty where it takes none.
#[derive(Clone, Copy)]
pub(crate) struct Use<'a> {
    pub name: &'a str,
    pub value: &'a str,
}

/// The options and operands that are given, each in order.
#[derive(Drop)]
pub(crate) struct Parsed<'a> {
    pub uses: Vec<Use<'a>>,
    pub operands: Vec<&'a str>,
}

/// The options and operands that the words are; `None` where one can't be there. It takes memory in
/// proportion to the words.
pub(crate) fn read_words<'a>(
    alloc: Global,
    parts: &[Part<&str>],
    words: &[&'a str],
) -> Result<Option<Parsed<'a>>, AllocError>
    ensures { IfOk result (λ given.
        option_map parsed_view given ≡ reads (map row_of parts.now) nothing (map text_of words.now)) }
{
    let mut given = Parsed {
        uses: Vec::new(alloc),
        operands: Vec::new(alloc),
    };
    let mut at = 0;
    while at < words.len() {
        match given.take(parts, words[at], &words[at + 1..])? {
            Some(count) => at += 1 + count,
            None => return Ok(None),
        }
    }
    Ok(Some(given))
}

impl<'a> Parsed<'a> {
    /// Takes a word in, and answers how many of the others behind it are taken with it; `None`
    /// where the word can't be there.
    fn take(
        &mut self,
        parts: &[Part<&str>],
        word: &'a str,
        others: &[&'a str],
    ) -> Result<Option<usize>, AllocError>
        ensures read { IfOk result (λ taken. MatchOption taken
            (reads (map row_of parts.now) (parsed_view self.old) (word.now ∷ map text_of others.now) ≡ None)
            (λ count. reads (map row_of parts.now) (parsed_view self.old) (word.now ∷ map text_of others.now)
            ≡ reads (map row_of parts.now) (parsed_view self.new) (map text_of (drop count others.now)))) }
        ensures within { IfOk result (λ taken. IfSome taken (λ count. count ≤ length others.now)) }
    {
        if word == "--" {
            self.operands.extend_from_slice(others)?;
            return Ok(Some(others.len()));
        }
        if let Some(text) = word.strip_prefix("--") {
            let (name, value) = cut_option(text);
            return self.take_option(parts, is_valued(parts, name), name, value, others);
        }
        if word.starts_with("-g") {
            return self.take_option(parts, Some(true), "generic", short_value(word), others);
        }
        if is_option(word) {
            return Ok(None);
        }
        self.operands.push(word)?;
        Ok(Some(0))
    }

    /// Takes in an option, which takes a value or not: one that stands in its word, or else the
    /// first of the others.
    fn take_option(
        &mut self,
        parts: &[Part<&str>],
        is_valued: Option<bool>,
        name: &'a str,
        value: Option<&'a str>,
        others: &[&'a str],
    ) -> Result<Option<usize>, AllocError>
        ensures read { IfOk result (λ taken. MatchOption taken
            (takes_option (map row_of parts.now) is_valued name.now (option_map text_of value.entry)
            (parsed_view self.old) (map text_of others.now) ≡ None)
            (λ count. takes_option (map row_of parts.now) is_valued name.now (option_map text_of value.entry)
            (parsed_view self.old) (map text_of others.now)
            ≡ reads (map row_of parts.now) (parsed_view self.new) (map text_of (drop count others.now)))) }
        ensures within { IfOk result (λ taken. IfSome taken (λ count. count ≤ length others.now)) }
    {
        match (is_valued, value, others) {
            (Some(false), None, _) => {
                self.add(name, "")?;
                Ok(Some(0))
            }
            (Some(true), Some(value), _) => {
                self.add(name, value)?;
                Ok(Some(0))
            }
            (Some(true), None, [value, ..]) if may_be(name, value) => {
                self.add(name, value)?;
                Ok(Some(1))
            }
            _ => Ok(None),
        }
    }

    /// Adds an option.
    fn add(&mut self, name: &'a str, value: &'a str) -> Result<(), AllocError>
        ensures { OnOk result (parsed_view self.new ≡ with_use (parsed_view self.old) name.now value.now) }
    {
        Ok(self.uses.push(Use { name, value })?)
    }

    /// How often the option of this name is given.
    fn count(&self, name: &str) -> usize
        ensures { result ≡ words.count (map use_view self.now.uses.items) name.now }
    {
        self.uses.iter().filter(|given| given.name == name).count()
    }

    /// The value of the option of this name, where it is first given.
    pub(crate) fn value(&self, name: &str) -> Option<&'a str>
        ensures { option_map text_of result ≡ words.value (map use_view self.now.uses.items) name.now }
    {
        for given in &self.uses {
            if given.name == name {
                return Some(given.value);
            }
        }
        None
    }

    /// Its values, in order.
    pub(crate) fn values(&self, alloc: Global, name: &str) -> Result<Vec<&'a str>, AllocError>
        ensures { IfOk result (λ values.
            map text_of values.items ≡ words.values (map use_view self.now.uses.items) name.now) }
    {
        let mut values = Vec::new(alloc);
        for given in &self.uses {
            if given.name == name {
                values.push(given.value)?;
            }
        }
        Ok(values)
    }

    /// Whether the option of this name is given.
    pub(crate) fn has(&self, name: &str) -> bool
        ensures { result ≡ words.has (map use_view self.now.uses.items) name.now }
    {
        self.value(name).is_some()
    }

    /// Whether this command takes each option that is given, as often as it stands, beside the
    /// others.
    pub(crate) fn fits(&self, parts: &[Part<&str>], command: &str) -> bool
        ensures { result ≡ words.fits (map use_view self.now.uses.items) command.now (map row_of parts.now) }
    {
        for part in parts {
            if self.has(part.name) && !self.may_have(part, command) {
                return false;
            }
        }
        true
    }

    /// The same of this option, which is given.
    fn may_have(&self, part: &Part<&str>, command: &str) -> bool
        ensures { result ≡ words.may_have (map use_view self.now.uses.items) command.now (row_of part.now) }
    {
        let is_of = part.command.is_empty() || part.command == command;
        let is_once = part.form.repeats() || self.count(part.name) == 1;
        is_of && is_once && !self.has(part.without)
    }
}

/// Whether a word is an option.
fn is_option(word: &str) -> bool
    ensures { result ≡ words.is_option word.now }
{
    match word.as_bytes() {
        [first, _, ..] => *first == b'-',
        _ => false,
    }
}

/// The value of `-g` in its word.
fn short_value(word: &str) -> Option<&str>
    ensures { option_map text_of result ≡ words.short_value word.now }
{
    if word == "-g" {
        return None;
    }
    word.strip_prefix("-g")
}

/// Whether the word behind an option may be its value: any, but that none with dashes names a
/// signal.
fn may_be(name: &str, value: &str) -> bool
    ensures { result ≡ words.may_be name.now value.now }
{
    name != "trace" || !value.starts_with("--")
}

/// The name of an option, and the value in its word.
pub(crate) fn cut_option(text: &str) -> (&str, Option<&str>)
    ensures { (result.0.now, option_map text_of result.1) ≡ name_and_value text.now }
{
    match text.split_once('=') {
        Some((name, value)) => (name, Some(value)),
        None => (text, None),
    }
}
