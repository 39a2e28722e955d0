//! Which part of VHDL is read.

/// Which part of VHDL (IEEE 1076-2008) is read.
#[derive(Clone, Copy)]
pub enum Language {
    /// That of docs/LANGUAGE.md.
    Profile,
    /// With the forms of docs/WIDE.md.
    Wide,
}
