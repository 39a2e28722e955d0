//! What is known where a body stands, and the elements that its names mean (IEEE 1076-2008, 8.1 to
//! 8.5).

ghost use Rattle.std.specs.Prelude.{◌≡◌, ℕ, ◌+◌, ◌^◌, ◌<◌, [], map, option_map, slice_get, Some, IfOk, Ok};
ghost use Rattle.rtl_model.specs.bodies.Fits.{IsWidth};
ghost use Rattle.rtl_net.specs.Indices.{numbers};
ghost use Rattle.vhdl_names_trees.specs.views.Vectors.{part_view, signal_view};
ghost use Rattle.vhdl_expand_rules.specs.Kinds.{size};
ghost use Rattle.vhdl_expand_rules.specs.Site as definition;
ghost use Rattle.vhdl_expand_rules.specs.Site.{elements_count, the_element};
ghost use Rattle.vhdl_expand_rules.specs.views.Integers.{integers_view};
ghost use Rattle.vhdl_expand_rules.specs.views.Kinds.{bounds_view, kind_view, run_view};
ghost use Rattle.vhdl_expand_operands.specs.Results.{Expands};
ghost use Rattle.vhdl_expand_bodies.specs.Sites.{ArePlaced, HasFew, IsSite, IsShort, constant_view, placed_kind, site_view, with_loops};

use crate::constant::Constant;
use rtl_net::Indices;
use vhdl_expand_rules::{Bounds, ElabFault, ElabProblem, Integers, ObjectKind, Run};
use vhdl_names_trees::{Part, Signal};
use vhdl_values::Vec9;

/// A port, a signal or a variable, and the number of its first element among those of its class.
#[derive(Clone, Copy)]
pub struct Placed {
    pub kind: ObjectKind,
    pub first: u32,
}

/// What is known where a body stands.
pub struct Site<'a> {
    pub integers: Integers<'a>,
    pub constants: &'a [Constant],
    /// Of the process, numbered behind those of its instance.
    pub own_constants: &'a [Constant],
    pub ports: &'a [Placed],
    /// How many elements the ports have together.
    pub port_elements: u32,
    pub signals: &'a [Placed],
    /// Of the process.
    pub variables: &'a [Placed],
}

/// Neighbouring elements, as bodies number them.
pub fn elements(run: Run) -> Indices
    requires { IsShort run }
    ensures { numbers result ≡ run_view run }
{
    Indices::Run {
        first: run.first as u32,
        len: run.len as u32,
    }
}

/// The only one of so many elements.
#[tactic(auto, using(crate::proofs::Places::one_element))]
pub(crate) fn element(run: Run) -> u32
    requires { IsShort run }
    ensures { (at : ℕ) → the_element at (Ok (run_view run)) ≡ Ok result }
{
    run.first as u32
}

/// The bounds of a vector; a fault is Index.
fn vector_bounds(kind: ObjectKind, at: usize) -> Result<Bounds, ElabFault>
    requires { IsWidth (size (kind_view kind)) }
    ensures given { Expands bounds_view (definition.bounds_of at (Some (kind_view kind))) result }
    ensures few { IfOk result HasFew }
{
    match kind {
        ObjectKind::Vector(bounds) => Ok(bounds),
        ObjectKind::One
        | ObjectKind::Enumeration(_)
        | ObjectKind::Integer(_)
        | ObjectKind::Boolean => Err(ElabProblem::Index.at(at)),
    }
}

/// What the thing of this number is.
fn kind_of(things: &[Placed], number: usize) -> Option<ObjectKind>
    ensures { option_map kind_view result ≡ slice_get (map placed_kind things.now) number }
{
    match things.get(number) {
        Some(thing) => Some(thing.kind),
        None => None,
    }
}

/// The bounds of the thing of this number, if it is a vector; a fault is Index.
fn bounds_of(things: &[Placed], number: usize, at: usize) -> Result<Bounds, ElabFault>
    requires { ArePlaced things.now }
    ensures given { Expands bounds_view
        (definition.bounds_of at (slice_get (map placed_kind things.now) number)) result }
    ensures few { IfOk result HasFew }
{
    match things.get(number) {
        Some(thing) => vector_bounds(thing.kind, at),
        None => Err(ElabProblem::Index.at(at)),
    }
}

impl Site<'_> {
    /// The elements of a part of the thing of this number, the first of all having the number
    /// `from`; a fault is StaticError or Index.
    fn part_elements(
        &self,
        from: u32,
        things: &[Placed],
        number: usize,
        part: &Part,
        at: usize,
    ) -> Result<Run, ElabFault>
        requires placed { ArePlaced things.now }
        requires few { from + elements_count (map placed_kind things.now) < 2 ^ 32 }
        ensures given { Expands run_view
            (definition.part_elements (integers_view self.now.integers) at from (map placed_kind things.now) number
            (part_view part.now)) result }
        ensures short { IfOk result IsShort }
    {
        let Some(thing) = things.get(number) else {
            return Err(ElabProblem::Index.at(at));
        };
        let places = self.integers.places(thing.kind, part, at)?;
        let first = from as usize + thing.first as usize + places.first;
        Ok(Run {
            first,
            len: places.len,
        })
    }

    /// The elements of a part of a signal or port; a fault is StaticError or Index.
    #[tactic(auto, unfolding(vhdl_expand_rules::specs::Site::signal_elements))]
    pub fn signal_elements(&self, signal: Signal, part: &Part, at: usize) -> Result<Run, ElabFault>
        requires { IsSite self.now }
        ensures given { Expands run_view
            (definition.signal_elements (site_view self.now) at (signal_view signal) (part_view part.now)) result }
        ensures short { IfOk result IsShort }
    {
        match signal {
            Signal::Port(number) => self.part_elements(0, self.ports, number, part, at),
            Signal::Signal(number) => {
                self.part_elements(self.port_elements, self.signals, number, part, at)
            }
        }
    }

    /// The elements of a part of a variable; a fault is StaticError or Index.
    #[tactic(auto, unfolding(vhdl_expand_rules::specs::Site::variable_elements))]
    pub fn variable_elements(&self, number: usize, part: &Part, at: usize) -> Result<Run, ElabFault>
        requires { IsSite self.now }
        ensures given { Expands run_view
            (definition.variable_elements (site_view self.now) at number (part_view part.now)) result }
        ensures short { IfOk result IsShort }
    {
        self.part_elements(0, self.variables, number, part, at)
    }

    /// The constant of this number.
    pub fn constant(&self, number: usize) -> Option<&Constant>
        ensures { option_map (λ c. constant_view c.now) result ≡ slice_get (site_view self.now).constants number }
    {
        match number.checked_sub(self.constants.len()) {
            None => self.constants.get(number),
            Some(number) => self.own_constants.get(number),
        }
    }

    /// The values of a part of a constant; a fault is StaticError or Index.
    #[tactic(auto, unfolding(vhdl_expand_rules::specs::Site::constant_values))]
    pub(crate) fn constant_values(
        &self,
        number: usize,
        part: &Part,
        at: usize,
    ) -> Result<Vec9, ElabFault>
        ensures { Expands (λ values. values)
            (definition.constant_values (site_view self.now) at number (part_view part.now)) result }
    {
        let Some(constant) = self.constant(number) else {
            return Err(ElabProblem::Index.at(at));
        };
        let places = self.integers.places(constant.kind, part, at)?;
        Ok(constant.values.slice(places.first, places.len))
    }

    /// What a signal or port is.
    pub fn signal_kind(&self, signal: Signal) -> Option<ObjectKind>
        ensures { option_map kind_view result ≡ definition.signal_kind (site_view self.now) (signal_view signal) }
    {
        match signal {
            Signal::Port(number) => kind_of(self.ports, number),
            Signal::Signal(number) => kind_of(self.signals, number),
        }
    }

    /// What a variable is.
    pub fn variable_kind(&self, number: usize) -> Option<ObjectKind>
        ensures { option_map kind_view result ≡ slice_get (site_view self.now).variables number }
    {
        kind_of(self.variables, number)
    }

    /// The bounds of a signal or port that is a vector; a fault is Index.
    #[tactic(auto, unfolding(vhdl_expand_rules::specs::Site::signal_bounds))]
    pub fn signal_bounds(&self, signal: Signal, at: usize) -> Result<Bounds, ElabFault>
        requires { IsSite self.now }
        ensures given { Expands bounds_view (definition.signal_bounds (site_view self.now) at (signal_view signal))
            result }
        ensures few { IfOk result HasFew }
    {
        match signal {
            Signal::Port(number) => bounds_of(self.ports, number, at),
            Signal::Signal(number) => bounds_of(self.signals, number, at),
        }
    }

    /// The bounds of a variable that is a vector; a fault is Index.
    pub fn variable_bounds(&self, number: usize, at: usize) -> Result<Bounds, ElabFault>
        requires { IsSite self.now }
        ensures given { Expands bounds_view (definition.variable_bounds (site_view self.now) at number) result }
        ensures few { IfOk result HasFew }
    {
        bounds_of(self.variables, number, at)
    }

    /// The bounds of a constant that is a vector; a fault is Index.
    pub(crate) fn constant_bounds(&self, number: usize, at: usize) -> Result<Bounds, ElabFault>
        ensures given { Expands bounds_view (definition.constant_bounds (site_view self.now) at number) result }
        ensures few { IfOk result HasFew }
    {
        match self.constant(number) {
            Some(constant) => vector_bounds(constant.kind, at),
            None => Err(ElabProblem::Index.at(at)),
        }
    }

    /// This within loops whose parameters have these values.
    pub fn within<'b>(&'b self, loops: &'b [i32]) -> Site<'b>
        requires { IsSite self.now }
        ensures site { IsSite result }
        ensures loops { site_view result ≡ with_loops (site_view self.now) loops.now }
    {
        Site {
            integers: self.integers.within(loops),
            constants: self.constants,
            own_constants: self.own_constants,
            ports: self.ports,
            port_elements: self.port_elements,
            signals: self.signals,
            variables: self.variables,
        }
    }

    /// Lets it go.
    pub fn end(self) {
        let Site {
            integers,
            constants: _,
            own_constants: _,
            ports: _,
            port_elements: _,
            signals: _,
            variables: _,
        } = self;
        integers.end();
    }
}
