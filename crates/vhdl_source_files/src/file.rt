//! Files.

ghost use Rattle.std.specs.Prelude.{◌≡◌, drop, take};
ghost use Rattle.vhdl_source_files.specs.Files as spec;

/// A file of a source.
#[derive(Clone, Copy)]
pub struct SourceFile<'a> {
    /// Its name, as it is told.
    pub name: &'a [u8],
    /// Its bytes.
    pub text: &'a [u8],
}

/// A byte of a file.
#[derive(Clone, Copy)]
pub struct FilePlace<'a> {
    pub file: SourceFile<'a>,
    /// The byte, counted from 0; the end of the text where it is as long as that, or longer.
    pub at: usize,
}

impl<'a> FilePlace<'a> {
    /// What stands in the file before the byte, and what stands from it on.
    pub fn halves(self) -> (&'a [u8], &'a [u8])
        ensures before { result.0.now ≡ spec.before (spec.spot_view self.entry) }
        ensures after { result.1.now ≡ spec.after (spec.spot_view self.entry) }
    {
        halves(self.file.text, self.at)
    }
}

/// What stands before a byte of a text, and what stands from it on; the whole before a byte past
/// its end.
pub fn halves(text: &[u8], at: usize) -> (&[u8], &[u8])
    ensures before { result.0.now ≡ take at text.now }
    ensures after { result.1.now ≡ drop at text.now }
{
    if at <= text.len() {
        text.split_at(at)
    } else {
        (text, &[])
    }
}
