//! The declarations in sight of a place (IEEE 1076-2008, 12.3).

ghost use Rattle.std.specs.Prelude.{◌≡◌, ℕ, List, bytes_eq, map, reverse, option_map, option_copied, IfErr};
ghost use Rattle.indexmap.specs.IndexMap.{IsUnique};
ghost use Rattle.vhdl_names_rules.specs.Visibility as visibility;
ghost use Rattle.vhdl_names_sight.specs.Views.{meaning_view, declared_view, entry_of};
ghost use Rattle.vhdl_names_rules.specs.Gives.{Gives};
ghost use Rattle.vhdl_names_rules.specs.declared.fault.NameFault.TheVariants.{At};
ghost use Rattle.vhdl_names_rules.specs.problems.Broken.{Tells};
ghost use Rattle.vhdl_names_rules.specs.problems.Expressions as broken;
ghost use Rattle.vhdl_names_rules.specs.problems.Missing.{is_named, offered, left_out, problem_of};
ghost use Rattle.vhdl_names_sight.specs.Sights.{found};
ghost use Rattle.vhdl_tree.specs.View.{ident_view};

use crate::meaning::{Declared, Entry, Meaning};
use drops::take_apart;
use indexmap::IndexMap;
use std::alloc::Global;
use std::marker::Model;
use vhdl_lexer::Language;
use vhdl_names_rules::{NameFault, NameProblem};
use vhdl_tree::Identifier;

/// What the names of a region are declared to be, in order of declaration.
pub type Region = IndexMap<Vec<u8>, Entry>;

/// No name stands twice in a map, for a proof that asks it: nothing is computed.
pub fn names_are_apart<T>(names: &IndexMap<Vec<u8>, T>)
    ensures { IsUnique (λ a b. bytes_eq a.items b.items) names.now }
{
    let _count = names.len();
}

/// The declarations in sight of a place. What stands further up hides what stands below it.
pub struct Sight {
    /// The memory that is taken for what is analysed here.
    pub alloc: Global,
    /// The parameters of the loops round the place, the outermost first.
    pub loops: Vec<Declared>,
    /// The variables of the process.
    pub variables: Region,
    /// The parameters of the generates round the place, the outermost first.
    pub generates: Vec<Declared>,
    /// The region of the entity and its architecture, or of a component, up to the place.
    pub region: Region,
    /// The region that a component stands in; else it is empty.
    pub enclosing: Region,
    /// What is in sight of the packages.
    pub packages: Region,
    /// Whether the operators of numeric_std are in sight.
    pub has_numbers: bool,
    /// Which is read.
    pub language: Language,
}

/// Contracts see what the rules call a sight.
impl Model for Sight {
    ghost use Rattle.vhdl_names_rules.specs.Visibility as visibility;

    ghost Value = { visibility.Sight };

    ghost use Rattle.vhdl_names_sight.specs.Seen.{sight_view};

    ghost view = { sight_view };
}

impl Drop for Sight {
    fn drop(self) {
        take_apart!(self: {
            alloc, loops, variables, generates, region, enclosing, packages, has_numbers,
            language
        });
    }
}

/// What a name is declared to be among parameters of which the last is the innermost.
#[tactic(auto, using(crate::proofs::Sights::innermost_more))]
fn innermost<'a>(parameters: &'a [Declared], name: &[u8]) -> Option<&'a Entry>
    ensures { found (reverse (map declared_view parameters.now)) name.now ≡
        option_map (entry_of name.now) (option_copied result) }
{
    let mut last = None;
    for parameter in parameters {
        if name == parameter.name.as_slice() {
            last = Some(&parameter.entry);
        }
    }
    last
}

impl Sight {
    /// What a name, in small letters, is declared to be here.
    #[tactic(auto, using(crate::proofs::Sights::declaration_in_turn, crate::proofs::Sights::found_entries))]
    pub fn declaration(&self, name: &[u8]) -> Option<&Entry>
        ensures { visibility.declaration self.now name.now ≡
            option_map (entry_of name.now) (option_copied result) }
    {
        if let Some(parameter) = innermost(&self.loops, name) {
            return Some(parameter);
        }
        if let Some(variable) = self.variables.get(name) {
            return Some(variable);
        }
        if let Some(parameter) = innermost(&self.generates, name) {
            return Some(parameter);
        }
        if let Some(own) = self.region.get(name) {
            return Some(own);
        }
        if let Some(outer) = self.enclosing.get(name) {
            return Some(outer);
        }
        self.packages.get(name)
    }

    /// What a name, in small letters, means here.
    pub fn meaning(&self, name: &[u8]) -> Option<&Meaning>
        ensures { visibility.meaning self.now name.now ≡ option_map meaning_view (option_copied result) }
    {
        match self.declaration(name) {
            Some(entry) => Some(&entry.meaning),
            None => None,
        }
    }
}

/// What the language has of std_logic_1164 and numeric_std.
const OFFERED: [&[u8]; 11] = [
    b"std_logic",
    b"std_ulogic",
    b"std_logic_vector",
    b"std_ulogic_vector",
    b"rising_edge",
    b"falling_edge",
    b"unsigned",
    b"resize",
    b"shift_left",
    b"shift_right",
    b"to_unsigned",
];

/// What the wider language has besides.
const OFFERED_WIDE: [&[u8]; 1] = [b"to_integer"];

/// What the language leaves out of package standard (16.3), std_logic_1164 (16.7) and numeric_std
/// (16.8).
const LEFT_OUT: [&[u8]; 60] = [
    b"bit",
    b"bit_vector",
    b"boolean",
    b"boolean_vector",
    b"character",
    b"delay_length",
    b"false",
    b"file_open_kind",
    b"file_open_status",
    b"integer_vector",
    b"maximum",
    b"minimum",
    b"now",
    b"real",
    b"real_vector",
    b"severity_level",
    b"string",
    b"time",
    b"time_vector",
    b"to_string",
    b"true",
    b"is_x",
    b"resolved",
    b"to_01",
    b"to_binary_string",
    b"to_bit",
    b"to_bit_vector",
    b"to_bitvector",
    b"to_bstring",
    b"to_bv",
    b"to_hex_string",
    b"to_hstring",
    b"to_octal_string",
    b"to_ostring",
    b"to_slv",
    b"to_std_logic_vector",
    b"to_std_ulogic_vector",
    b"to_stdlogicvector",
    b"to_stdulogic",
    b"to_stdulogicvector",
    b"to_sulv",
    b"to_ux01",
    b"to_x01",
    b"to_x01z",
    b"ux01",
    b"ux01z",
    b"x01",
    b"x01z",
    b"find_leftmost",
    b"find_rightmost",
    b"rotate_left",
    b"rotate_right",
    b"signed",
    b"std_match",
    b"to_integer",
    b"to_signed",
    b"u_signed",
    b"u_unsigned",
    b"unresolved_signed",
    b"unresolved_unsigned",
];

/// Whether a name is one of these.
fn is_among(mut names: &[&[u8]], name: &[u8]) -> bool
    ensures { result ≡ is_named (map {B = List ℕ} (λ d. d.now) names.entry.now) name.now }
{
    while let [first, rest @ ..] = names {
        if name == *first {
            return true;
        }
        names = rest;
    }
    false
}

/// Whether this language has it of std_logic_1164 or numeric_std.
#[tactic(auto, using(crate::proofs::Missing::offered_wide))]
fn is_offered(language: Language, name: &[u8]) -> bool
    ensures { result ≡ is_named (offered language) name.now }
{
    match language {
        Language::Profile => is_among(&OFFERED, name),
        Language::Wide => is_among(&OFFERED, name) || is_among(&OFFERED_WIDE, name),
    }
}

/// Whether a package declares it, and the language leaves it out.
fn is_left_out(name: &[u8]) -> bool
    ensures { result ≡ is_named left_out name.now }
{
    is_among(&LEFT_OUT, name)
}

/// Why a name that no declaration in sight has means nothing.
fn missing(language: Language, name: &[u8]) -> NameProblem
    ensures { result ≡ problem_of language name.now }
{
    if is_offered(language, name) {
        NameProblem::NotVisible
    } else if is_left_out(name) {
        NameProblem::LeftOut
    } else {
        NameProblem::Undeclared
    }
}

/// What a name is declared to be here. Where it means nothing, it is NotVisible if a package
/// declares it that no use clause names, LeftOut if a package declares what the language leaves
/// out, as `boolean`, `signed` and `to_integer` in the narrow one, and else Undeclared.
pub fn declaration_of<'a>(sight: &'a Sight, name: &Identifier) -> Result<&'a Entry, NameFault>
    ensures declared { Gives (λ e. entry_of name.now.text.items e.now)
        (visibility.declaration sight.now name.now.text.items) result }
    ensures fault { IfErr result (λ f. f ≡ At (problem_of sight.now.language name.now.text.items) name.now.at) }
    ensures told { IfErr result (Tells (broken.meaning sight.now (ident_view name.now))) }
{
    match sight.declaration(&name.text) {
        Some(entry) => Ok(entry),
        None => Err(missing(sight.language, &name.text).at(name.at)),
    }
}

/// What a name means here, likewise.
pub fn meaning_of<'a>(sight: &'a Sight, name: &Identifier) -> Result<&'a Meaning, NameFault>
    ensures meant { Gives (λ m. meaning_view m.now) (visibility.meaning sight.now name.now.text.items) result }
    ensures fault { IfErr result (λ f. f ≡ At (problem_of sight.now.language name.now.text.items) name.now.at) }
    ensures told { IfErr result (Tells (broken.meaning sight.now (ident_view name.now))) }
{
    let entry = declaration_of(sight, name)?;
    Ok(&entry.meaning)
}
