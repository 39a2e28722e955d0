//! The laws of places (`specs/Laws.antt`), the contracts of functions that do nothing.

ghost use Rattle.vhdl_source_files.specs.Laws.{EachByteIsPlacedInItsFile, EachByteIsToldByItsFile};

/// The place that `place_in` gives for a byte of the joined text has that byte in its file; or it
/// is the end of its file, and the byte is the line feed behind it.
pub fn each_byte_is_told_by_its_file()
    ensures { EachByteIsToldByItsFile }
{}

/// The place that `place_in` gives for a byte of the joined text, or for its end, is in a file of
/// these, not behind its end, and as far from its beginning as the byte is from where that file's
/// text stands in the joined text.
pub fn each_byte_is_placed_in_its_file()
    ensures { EachByteIsPlacedInItsFile }
{}
