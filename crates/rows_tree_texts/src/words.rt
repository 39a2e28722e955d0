//! Identifiers, and words with the byte at which they start.

use rows_calls::Text;
use vhdl_tree::Identifier;

/// What stands in lists.
pub trait Piece {
    /// Adds it to a text.
    fn push(&self, out: &mut Text);
}

impl Piece for Identifier {
    fn push(&self, out: &mut Text) {
        push_identifier(out, self);
    }
}

/// Adds a text and the byte at which it starts.
pub fn push_at(out: &mut Text, text: &[u8], at: usize) {
    out.push_bytes(text);
    out.push("@");
    out.push_number(at);
}

/// Adds a word that may be left out, where it isn't.
pub fn push_if(out: &mut Text, is_there: bool, word: &str) {
    if is_there {
        out.push(word);
    }
}

pub fn push_identifier(out: &mut Text, identifier: &Identifier) {
    push_at(out, &identifier.text, identifier.at);
}

pub fn push_identifiers(out: &mut Text, identifiers: &[Identifier]) {
    push_list(out, ["", ", "], identifiers);
}

/// Adds each of some parts, the first behind one text and every other behind another.
pub fn push_list<P: Piece>(out: &mut Text, delimiters: [&str; 2], parts: &[P]) {
    let [mut before, between] = delimiters;
    for part in parts {
        out.push(before);
        part.push(out);
        before = between;
    }
}

/// Adds a label and a colon, if there is a label.
pub fn push_label(out: &mut Text, label: &Option<Identifier>) {
    if let Some(label) = label {
        push_identifier(out, label);
        out.push(" : ");
    }
}

/// Adds the end of what an optional word and an optional name close.
pub fn push_end(out: &mut Text, words: &str, name: &Option<Identifier>) {
    out.push(words);
    if let Some(name) = name {
        out.push(" ");
        push_identifier(out, name);
    }
    out.push(";");
}
