//! Where a byte of a joined text stands.

ghost use Rattle.std.specs.Prelude.{◌≡◌, map};
ghost use Rattle.vhdl_source_files.specs.Files as spec;
ghost use Rattle.vhdl_source_files.specs.Files.{file_view, spot_in, spot_view};

use crate::file::{FilePlace, SourceFile};

/// The file and its byte at which a byte of the joined text stands, or the end of that text. The
/// line feed between two files is told at the end of the first.
pub fn place_in<'a>(files: &[SourceFile<'a>], at: usize) -> FilePlace<'a>
    ensures { spot_view result ≡ spot_in (map file_view files.now) at }
{
    let mut left = files;
    let mut at = at;
    while let [file, others @ ..] = left {
        if others.is_empty() || at <= file.text.len() {
            return FilePlace { file: *file, at };
        }
        at -= file.text.len() + 1;
        left = others;
    }
    FilePlace {
        file: SourceFile {
            name: &[],
            text: &[],
        },
        at,
    }
}

/// The name by which the source as a whole is told: that of its last file.
pub fn source_name<'a>(files: &[SourceFile<'a>]) -> &'a [u8]
    ensures { result.now ≡ spec.source_name (map file_view files.now) }
{
    let mut name: &[u8] = &[];
    let mut left = files;
    while let [file, others @ ..] = left {
        name = file.name;
        left = others;
    }
    name
}
