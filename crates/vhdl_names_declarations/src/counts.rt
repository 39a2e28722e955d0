//! How many declarations of each class a region has. Objects are numbered from 0 within their
//! class.

ghost use Rattle.std.specs.Prelude.{◌≡◌, ◌≤◌, ◌<◌, ◌+◌, ◌-◌, ◌^◌, ◌++◌, if◌then◌else◌, take};
ghost use Rattle.indexmap.specs.IndexMap.{index_map_len};
ghost use Rattle.vhdl_names_declarations.specs.Counts.{AreCounts, AreSmall, counted, next_of};
ghost use Rattle.vhdl_names_rules.specs.Visibility as visibility;
ghost use Rattle.vhdl_names_sight.specs.Views.{meaning_view, entry_of, region_view};

use crate::class::ObjectClass;
use vhdl_names_sight::{Entry, Meaning, Region};

/// How many declarations of each class there are.
#[derive(Clone, Copy)]
pub struct Counts {
    pub generics: usize,
    pub ports: usize,
    pub integers: usize,
    pub constants: usize,
    pub signals: usize,
    pub variables: usize,
    pub enumerations: usize,
    /// Declared ranges.
    pub ranges: usize,
}

fn is_generic(meaning: &Meaning) -> bool
    ensures { result ≡ visibility.is_generic (meaning_view meaning.now) }
{
    matches!(meaning, Meaning::Generic(_) | Meaning::BooleanGeneric(_))
}

fn is_port(meaning: &Meaning) -> bool
    ensures { result ≡ visibility.is_port (meaning_view meaning.now) }
{
    matches!(meaning, Meaning::Port(..))
}

fn is_integer_constant(meaning: &Meaning) -> bool
    ensures { result ≡ visibility.is_integer_constant (meaning_view meaning.now) }
{
    matches!(
        meaning,
        Meaning::IntegerConstant(_) | Meaning::BooleanConstant(_)
    )
}

fn is_constant(meaning: &Meaning) -> bool
    ensures { result ≡ visibility.is_constant (meaning_view meaning.now) }
{
    matches!(meaning, Meaning::Constant(..))
}

fn is_signal(meaning: &Meaning) -> bool
    ensures { result ≡ visibility.is_signal (meaning_view meaning.now) }
{
    matches!(meaning, Meaning::Signal(..))
}

fn is_variable(meaning: &Meaning) -> bool
    ensures { result ≡ visibility.is_variable (meaning_view meaning.now) }
{
    matches!(meaning, Meaning::Variable(..))
}

fn is_enumeration_type(meaning: &Meaning) -> bool
    ensures { result ≡ visibility.is_enumeration_type (meaning_view meaning.now) }
{
    matches!(meaning, Meaning::EnumerationType { .. })
}

/// A region is small, for a proof that asks it: nothing is computed.
pub fn region_is_small(region: &Region)
    ensures { index_map_len region.now < 2 ^ 63 }
{
    let _count = region.len();
}

/// One more if it counts.
fn with_one(count: usize, counts: bool) -> usize
    requires { count < 2 ^ 64 - 1 }
    ensures { result ≡ count + (if counts then 1 else 0) }
{
    if counts { count + 1 } else { count }
}

impl Counts {
    /// Of no declarations.
    pub const NONE: Counts = Counts {
        generics: 0,
        ports: 0,
        integers: 0,
        constants: 0,
        signals: 0,
        variables: 0,
        enumerations: 0,
        ranges: 0,
    };

    /// With one declaration more.
    fn with(self, entry: &Entry) -> Counts
        requires { AreSmall self (2 ^ 64 - 1) }
        ensures { (n : visibility.Name) → result ≡ counted self (entry_of n entry.now) }
    {
        let meaning = &entry.meaning;
        Counts {
            generics: with_one(self.generics, is_generic(meaning)),
            ports: with_one(self.ports, is_port(meaning)),
            integers: with_one(self.integers, is_integer_constant(meaning)),
            constants: with_one(self.constants, is_constant(meaning)),
            signals: with_one(self.signals, is_signal(meaning)),
            variables: with_one(self.variables, is_variable(meaning)),
            enumerations: with_one(self.enumerations, is_enumeration_type(meaning)),
            ranges: with_one(self.ranges, entry.range.is_some()),
        }
    }

    /// The number that the next object of a class takes.
    pub fn next(&self, class: &ObjectClass) -> usize
        ensures { result ≡ next_of self.now class.now }
    {
        match class {
            ObjectClass::Generic | ObjectClass::BooleanGeneric => self.generics,
            ObjectClass::Port(..) => self.ports,
            ObjectClass::Integer | ObjectClass::Boolean => self.integers,
            ObjectClass::Constant(..) => self.constants,
            ObjectClass::Signal(_) => self.signals,
            ObjectClass::Variable(_) => self.variables,
        }
    }

    /// The counts of a region, from those of what stands before a place in it.
    pub fn of(self, region: &Region, first: usize) -> Counts
        requires place { first ≤ index_map_len region.now }
        requires before { AreCounts self (take first (region_view region.now)) }
        ensures { AreCounts result (region_view region.now) }
    {
        self.between(region, first, region.len())
    }

    /// The counts of a region's declarations and a process's, from those of what stands before a
    /// place among the process's.
    pub fn further(self, region: &Region, variables: &Region, first: usize) -> Counts
        requires place { first ≤ index_map_len variables.now }
        requires before { AreCounts self (region_view region.now ++ take first (region_view variables.now)) }
        ensures { AreCounts result (region_view region.now ++ region_view variables.now) }
    {
        region_is_small(region);
        let mut counts = self;
        for place in first..variables.len() {
            counts = counts.with(&variables[place]);
        }
        counts
    }

    /// The counts of what stands before a place in a region, from those of what stands before an
    /// earlier one.
    pub fn between(self, region: &Region, first: usize, last: usize) -> Counts
        requires places { first ≤ last }
        requires last { last ≤ index_map_len region.now }
        requires before { AreCounts self (take first (region_view region.now)) }
        ensures { AreCounts result (take last (region_view region.now)) }
    {
        region_is_small(region);
        let mut counts = self;
        for place in first..last {
            counts = counts.with(&region[place]);
        }
        counts
    }
}
