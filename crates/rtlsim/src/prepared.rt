//! What commands are given of what was read.

ghost use Rattle.std.specs.Prelude.{◌≡◌, IfOk, map};
ghost use Rattle.rtlsim.specs.Served.{setting_of};
ghost use Rattle.rtlsim.specs.Texts.{source_by, texts_view};
ghost use Rattle.rtlsim_command_line.specs.Words as words;
ghost use Rattle.rtlsim_command_line.specs.Words.{call_view};
ghost use Rattle.vhdl_expand_rules.specs.views.Tops.{setting_view};
ghost use Rattle.vhdl_source_files.specs.Files as joining;
ghost use Rattle.vhdl_source_files.specs.Files.{file_view};

use crate::texts::Texts;
use rtlsim_command_line::Call;
use std::alloc::{AllocError, Global};
use vhdl_expand_rules::Setting;
use vhdl_source_files::{SourceFile, joined};

/// The files of a source, what sets generics and inputs, and the names of what a trace shows, as
/// bytes.
#[derive(Drop)]
pub(crate) struct Prepared<'a> {
    /// The files of the source, in order.
    pub files: Vec<SourceFile<'a>>,
    /// Their texts joined, where there are several.
    joined: Vec<u8>,
    pub sets: Vec<&'a [u8]>,
    pub generics: Vec<Setting<'a>>,
    pub traced: Vec<&'a [u8]>,
}

impl Prepared<'_> {
    /// The text of the source.
    pub(crate) fn source(&self) -> &[u8]
        ensures { result.now ≡ source_by self.now.joined.items (map file_view self.now.files.items) }
    {
        match self.files.as_slice() {
            [file] => file.text,
            _ => &self.joined,
        }
    }
}

/// What commands are given. It takes memory for the lists of files and of what is set, and for the
/// text where it is that of several files.
pub(crate) fn prepare<'b>(
    alloc: Global,
    call: &'b Call<'_>,
    texts: &'b Texts<'_>,
) -> Result<Prepared<'b>, AllocError>
    ensures files { IfOk result (λ p. map file_view p.files.items ≡ (texts_view texts.now).files) }
    ensures source { IfOk result (λ p. source_by p.joined.items (map file_view p.files.items) ≡
        joining.joined (texts_view texts.now).files) }
    ensures sets { IfOk result (λ p. map (λ set. set.now) p.sets.items ≡ (call_view call.now).sets) }
    ensures traced { IfOk result (λ p. map (λ name. name.now) p.traced.items ≡ (call_view call.now).traced) }
    ensures generics { IfOk result (λ p. map setting_view p.generics.items ≡
        map setting_of (call_view call.now).generics) }
{
    let files = files_of(alloc, texts)?;
    let joined = joined_where_several(alloc, &files)?;
    let sets = bytes_of(alloc, &call.sets)?;
    let generics = settings_of(alloc, &call.generics)?;
    let traced = bytes_of(alloc, &call.traced)?;
    Ok(Prepared {
        files,
        joined,
        sets,
        generics,
        traced,
    })
}

/// The files of the source, in order.
fn files_of<'b>(alloc: Global, texts: &'b Texts<'_>) -> Result<Vec<SourceFile<'b>>, AllocError>
    ensures { IfOk result (λ files. map file_view files.items ≡ (texts_view texts.now).files) }
{
    let mut files = Vec::new(alloc);
    for file in &texts.before {
        files.push(file.file())?;
    }
    let (text, _stimulus) = texts.main.texts();
    files.push(SourceFile {
        name: texts.file.as_bytes(),
        text,
    })?;
    Ok(files)
}

/// The text of several files; that of one is its own.
fn joined_where_several(alloc: Global, files: &[SourceFile<'_>]) -> Result<Vec<u8>, AllocError>
    ensures { IfOk result (λ text. source_by text.items (map file_view files.now) ≡
        joining.joined (map file_view files.now)) }
{
    match files {
        [_] => Ok(Vec::new(alloc)),
        _ => joined(alloc, files),
    }
}

/// What is set of generics, by the bytes of their names.
fn settings_of<'a>(
    alloc: Global,
    set: &[rtlsim_command_line::Setting<'a>],
) -> Result<Vec<Setting<'a>>, AllocError>
    ensures { IfOk result (λ all. map setting_view all.items ≡ map setting_of (map words.setting_view set.now)) }
{
    let mut all = Vec::with_capacity(alloc, set.len())?;
    for setting in set {
        all.push(Setting {
            name: setting.name.as_bytes(),
            value: setting.value,
        })?;
    }
    Ok(all)
}

/// The bytes of each text.
fn bytes_of<'a>(alloc: Global, texts: &[&'a str]) -> Result<Vec<&'a [u8]>, AllocError>
    ensures { IfOk result (λ all. map (λ bytes. bytes.now) all.items ≡ map (λ text. text.now) texts.now) }
{
    let mut all = Vec::with_capacity(alloc, texts.len())?;
    for text in texts {
        all.push(text.as_bytes())?;
    }
    Ok(all)
}
