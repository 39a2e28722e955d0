//! What is known of an instance, from its generics on (IEEE 1076-2008, 14.3).

ghost use Rattle.std.specs.Prelude.{◌≡◌, OnOk, option_map};
ghost use Rattle.rtl_model.specs.bodies.Fits.{IsWidth};
ghost use Rattle.vhdl_expand_tree.specs.Views.{object_view};
ghost use Rattle.vhdl_expand_rules.specs.Declarations as definition;
ghost use Rattle.vhdl_expand_rules.specs.Kinds.{size};
ghost use Rattle.vhdl_expand_rules.specs.views.Kinds.{kind_view};
ghost use Rattle.vhdl_expand_operands.specs.Results.{Expands};
ghost use Rattle.vhdl_expand_bodies.specs.Sites.{IsSite, site_view};
ghost use Rattle.vhdl_names_units.specs.views.Answers.{fixed_view, form_view};
ghost use Rattle.vhdl_names_units.specs.views.Declarations.{declaration_view};
ghost use Rattle.vhdl_expand_declarations.specs.Objects.{nothing_declared, shape_of, with_object};
ghost use Rattle.vhdl_expand_declarations.specs.Stepwise.{stepwise};
ghost use Rattle.vhdl_expand_declarations.specs.Variables.{IsOuter};
ghost use Rattle.vhdl_expand_declarations.specs.Views.{declared_view, within_generates};

use crate::declared::InstanceObjects;
use crate::entering::entered;
use crate::region::Region;
use crate::shape::Shape;
use std::alloc::{AllocError, Global};
use vhdl_expand_bodies::{Layout, Site};
use vhdl_expand_rules::{ElabFault, Integers};
use vhdl_expand_tree::{Object, Role};
use vhdl_names_units::{Declaration, Objects};

impl InstanceObjects {
    /// Of nothing, where nothing is declared.
    pub fn new(alloc: Global) -> InstanceObjects
        ensures { declared_view result ≡ nothing_declared }
    {
        InstanceObjects {
            generics: Vec::new(alloc),
            region: Region::new(alloc),
            ports: Layout::new(alloc),
            signals: Layout::new(alloc),
            objects: Vec::new(alloc),
        }
    }

    /// What is known in the architecture, within turns of generates whose parameters have these
    /// values.
    pub fn site<'a>(&'a self, generates: &'a [i32]) -> Site<'a>
        ensures placed { IsSite result }
        ensures outer { IsOuter result }
        ensures seen { site_view result ≡ within_generates (declared_view self.now).site generates.now }
    {
        Site {
            integers: Integers {
                generics: &self.generics,
                constants: &self.region.integers,
                own_constants: &[],
                generates,
                loops: &[],
                ranges: &self.region.ranges,
                own_ranges: &[],
            },
            constants: &self.region.constants,
            own_constants: &[],
            ports: &self.ports.things,
            port_elements: self.ports.elements,
            signals: &self.signals.things,
            variables: &[],
        }
    }

    /// Puts a constant or a subtype behind what is declared before it; a fault is GenericRange,
    /// StaticError, Length, Index or TooWide.
    pub(crate) fn enter(
        &mut self,
        alloc: Global,
        declaration: &Declaration,
    ) -> Result<(), ElabFault>
        ensures site { Expands (λ _. (declared_view self.new).site)
            (stepwise definition.declared (declared_view self.old).site (declaration_view declaration.now)) result }
        ensures objects { OnOk result ((declared_view self.new).objects ≡ (declared_view self.old).objects) }
    {
        let site = self.site(&[]);
        let made = entered(alloc, &site, declaration);
        site.end();
        self.region.enter(made?)?;
        Ok(())
    }

    /// What ports or signals of a declaration are and start with; a fault is StaticError, Length,
    /// Index or TooWide. It takes the memory of the list.
    pub(crate) fn shape(
        &self,
        alloc: Global,
        objects: &Objects,
        at: usize,
    ) -> Result<Shape, ElabFault>
        ensures { Expands (λ shape. (kind_view shape.kind, shape.starts.items))
            (shape_of (declared_view self.now).site at (form_view objects.now.form)
            (option_map fixed_view objects.now.default)) result }
    {
        let site = self.site(&[]);
        let shape = Shape::of(alloc, &site, objects, at);
        site.end();
        shape
    }

    /// Puts a port or signal behind those before it. Memory would be refused where the numbers of
    /// their elements don't fit a word.
    pub(crate) fn add_object(&mut self, object: Object) -> Result<(), AllocError>
        requires { IsWidth (size (kind_view object.kind)) }
        ensures { OnOk result (declared_view self.new ≡ with_object (declared_view self.old) (object_view object)) }
    {
        let elements = self.ports.elements as usize + self.signals.elements as usize;
        if elements + object.kind.size() > u32::MAX as usize {
            return Err(AllocError);
        }
        match object.role {
            Role::Input | Role::Output => self.ports.add(object.kind)?,
            Role::Internal => self.signals.add(object.kind)?,
        }
        self.region.add_range_of(object.kind)?;
        self.objects.push(object)?;
        Ok(())
    }
}
