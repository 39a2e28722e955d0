//! Texts joined.

ghost use Rattle.std.specs.Prelude.{◌≡◌, ◌++◌, IfOk, OnOk, map};
ghost use Rattle.vhdl_source_files.specs.Files as spec;
ghost use Rattle.vhdl_source_files.specs.Files.{file_view};

use crate::file::SourceFile;
use std::alloc::{AllocError, Global};

/// The texts of the files in order, with a line feed between two. It takes memory for the whole.
pub fn joined(alloc: Global, files: &[SourceFile<'_>]) -> Result<Vec<u8>, AllocError>
    ensures { IfOk result (λ text. text.items ≡ spec.joined (map file_view files.now)) }
{
    let mut text = Vec::new(alloc);
    let mut left = files;
    while let [file, others @ ..] = left {
        text.extend_from_slice(file.text)?;
        if !others.is_empty() {
            text.push(b'\n')?;
        }
        left = others;
    }
    Ok(text)
}
