//! What is declared beside objects (IEEE 1076-2008, 6.3, 6.4.2.2): constants and ranges.

ghost use Rattle.std.specs.Prelude.{◌≡◌, [], ◌∷◌, ◌++◌, replicate, OnOk};
ghost use Rattle.vhdl_expand_bodies.specs.Sites.{constant_view};
ghost use Rattle.vhdl_expand_rules.specs.Kinds as kinds;
ghost use Rattle.vhdl_expand_rules.specs.views.Kinds.{kind_view};
ghost use Rattle.vhdl_expand_declarations.specs.Regions.{constants_behind, entered, no_region, ranges_behind, region_view};

use std::alloc::{AllocError, Global};
use vhdl_expand_bodies::Constant;
use vhdl_expand_rules::{IntegerRange, ObjectKind};

/// The constants and ranges that are declared so far, each kind by its numbers.
#[derive(Drop)]
pub struct Region {
    /// The values of constants that are integers, and the positions of booleans.
    pub integers: Vec<i32>,
    /// Other constants.
    pub constants: Vec<Constant>,
    /// Ranges of vectors and subtypes.
    pub ranges: Vec<IntegerRange>,
}

/// A constant or a subtype, computed once for so many names.
#[derive(Drop)]
pub(crate) enum Entered {
    Nothing,
    Integers(i32, usize),
    Constants(Constant, usize),
    Range(Option<IntegerRange>),
}

impl Region {
    /// None so far.
    pub(crate) fn new(alloc: Global) -> Region
        ensures { region_view result ≡ no_region }
    {
        Region {
            integers: Vec::new(alloc),
            constants: Vec::new(alloc),
            ranges: Vec::new(alloc),
        }
    }

    /// Puts the range of what is of this kind behind those before it, if it has one.
    pub(crate) fn add_range_of(&mut self, kind: ObjectKind) -> Result<(), AllocError>
        ensures { OnOk result (region_view self.new ≡
            ranges_behind (region_view self.old) (kinds.ranges_of (kind_view kind))) }
    {
        if let Some(range) = kind.range() {
            self.ranges.push(range)?;
        }
        Ok(())
    }

    /// Puts a constant behind those before it.
    pub(crate) fn add_constant(&mut self, constant: Constant) -> Result<(), AllocError>
        ensures { OnOk result (region_view self.new ≡
            constants_behind (region_view self.old) (constant_view constant ∷ [])) }
    {
        self.add_range_of(constant.kind)?;
        self.constants.push(constant)?;
        Ok(())
    }

    /// Puts so many integers behind those before them.
    fn add_integers(&mut self, x: i32, count: usize) -> Result<(), AllocError>
        ensures { OnOk result (region_view self.new ≡ record (region_view self.old)
            { integers = (region_view self.old).integers ++ replicate count x }) }
    {
        for _name in 0..count {
            self.integers.push(x)?;
        }
        Ok(())
    }

    /// Puts so many constants behind those before them.
    fn add_constants(&mut self, constant: &Constant, count: usize) -> Result<(), AllocError>
        ensures { OnOk result (region_view self.new ≡
            constants_behind (region_view self.old) (replicate count (constant_view constant.now))) }
    {
        for _name in 0..count {
            self.add_constant(constant.copied())?;
        }
        Ok(())
    }

    /// Puts what is computed of a declaration behind what is declared before it.
    pub(crate) fn enter(&mut self, made: Entered) -> Result<(), AllocError>
        ensures { OnOk result (region_view self.new ≡ entered (region_view self.old) made) }
    {
        match made {
            Entered::Nothing => Ok(()),
            Entered::Integers(x, count) => self.add_integers(x, count),
            Entered::Constants(constant, count) => self.add_constants(&constant, count),
            Entered::Range(None) => Ok(()),
            Entered::Range(Some(range)) => {
                self.ranges.push(range)?;
                Ok(())
            }
        }
    }
}
