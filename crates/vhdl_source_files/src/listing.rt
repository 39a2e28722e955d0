//! The files that a list names.

ghost use Rattle.std.specs.Prelude.{◌≡◌, ◌<◌, ◌++◌, ◌∷◌, [], IfOk, IfSome, IsUtf8, MatchOption, length, map, position, string_bytes};
ghost use Rattle.std.specs.List.{before_first, slice_split};
ghost use Rattle.vhdl_source_files.specs.Listed as spec;
ghost use Rattle.vhdl_source_files.specs.Listed.{begins_comment, ends_line};

use std::alloc::{AllocError, Global};

/// The names of the files that a list of this name and text names: those before the last, and the
/// last. `None` where it names none, or one that isn't UTF-8. It takes memory for the names, and
/// for the parts of the text.
pub fn listed(
    alloc: Global,
    list: &[u8],
    text: &[u8],
) -> Result<Option<(Vec<String>, String)>, AllocError>
    ensures { IfOk result (λ found. MatchOption found (¬ (spec.IsList (spec.listed list.now text.now)))
        (λ names. spec.listed list.now text.now ≡ map string_bytes names.0.items ++ string_bytes names.1 ∷ [])) }
{
    let folder = folder_of(list);
    let found = names_in(alloc, text)?;
    let mut names = Vec::new(alloc);
    let mut left = found.as_slice();
    while let [name, others @ ..] = left {
        match told_from(alloc, folder, name)? {
            Some(told) => names.push(told)?,
            None => return Ok(None),
        }
        left = others;
    }
    match names.pop() {
        Some(last) => Ok(Some((names, last))),
        None => Ok(None),
    }
}

/// The names in a text, in order.
fn names_in(alloc: Global, text: &[u8]) -> Result<Vec<&[u8]>, AllocError>
    ensures { IfOk result (λ names. map (λ name. name.now) names.items ≡ spec.names_in text.now) }
{
    let lines = lines_of(alloc, without_mark(text))?;
    let mut names = Vec::new(alloc);
    for line in &lines {
        let name = name_in(line);
        if !name.is_empty() {
            names.push(name)?;
        }
    }
    Ok(names)
}

/// A text without the mark of UTF-8 in front.
fn without_mark(text: &[u8]) -> &[u8]
    ensures { result.now ≡ spec.without_mark text.now }
{
    match text {
        [0xEF, 0xBB, 0xBF, others @ ..] => others,
        _ => text,
    }
}

/// The parts of a text between its line feeds.
fn lines_of(alloc: Global, text: &[u8]) -> Result<Vec<&[u8]>, AllocError>
    ensures { IfOk result (λ lines. map (λ line. line.now) lines.items ≡ slice_split ends_line text.now) }
{
    text.split(|byte| *byte == b'\n').collect(alloc)
}

/// The name in a line, empty where it has none.
fn name_in(line: &[u8]) -> &[u8]
    ensures { result.now ≡ spec.name_in line.now }
{
    before_comment(line).trim_ascii()
}

/// A line up to its comment.
fn before_comment(line: &[u8]) -> &[u8]
    ensures { result.now ≡ before_first begins_comment line.now }
{
    match comment_at(line) {
        Some(at) => &line[..at],
        None => line,
    }
}

/// Where the comment of a line begins.
fn comment_at(line: &[u8]) -> Option<usize>
    ensures at { result ≡ position begins_comment line.now }
    ensures within { IfSome result (λ at. at < length line.now) }
{
    line.iter().position(|byte| *byte == b'#')
}

/// A list's name up to its last slash.
fn folder_of(list: &[u8]) -> &[u8]
    ensures { result.now ≡ spec.folder_of list.now }
{
    let mut end = list.len();
    while end > 0 {
        if list[end - 1] == b'/' {
            return &list[..end];
        }
        end -= 1;
    }
    &[]
}

/// A name as it is told, from this folder; `None` where that isn't UTF-8.
fn told_from(alloc: Global, folder: &[u8], name: &[u8]) -> Result<Option<String>, AllocError>
    ensures { IfOk result (λ told. MatchOption told (¬ (IsUtf8 (spec.told_from folder.now name.now)))
        (λ told. string_bytes told ≡ spec.told_from folder.now name.now)) }
{
    let mut told = Vec::from_slice(alloc, front_of(folder, name))?;
    told.extend_from_slice(name)?;
    match String::from_utf8(told) {
        Ok(text) => Ok(Some(text)),
        Err(_) => Ok(None),
    }
}

/// What stands before a name from this folder.
fn front_of<'a>(folder: &'a [u8], name: &[u8]) -> &'a [u8]
    ensures { result.now ≡ spec.front_of folder.now name.now }
{
    if let [b'/', ..] = name {
        return &[];
    }
    if folder.is_empty() && name == b"@".as_slice() {
        return b"./";
    }
    folder
}
