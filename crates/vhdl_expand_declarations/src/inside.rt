//! What is known in a process of an instance.

ghost use Rattle.std.specs.Prelude.{◌≡◌, OnOk};
ghost use Rattle.vhdl_expand_tree.specs.Views.{variable_view};
ghost use Rattle.vhdl_expand_rules.specs.Declarations as definition;
ghost use Rattle.vhdl_expand_rules.specs.Site as sites;
ghost use Rattle.vhdl_expand_bodies.specs.Sites.{IsSite, site_view};
ghost use Rattle.vhdl_expand_declarations.specs.Variables.{HasWidth, IsOuter, variables_view};

use crate::declared::ProcessVariables;
use crate::region::Region;
use std::alloc::{AllocError, Global};
use vhdl_expand_bodies::{Layout, Site};
use vhdl_expand_rules::Integers;
use vhdl_expand_tree::Variable;

impl ProcessVariables {
    /// None so far.
    pub(crate) fn new(alloc: Global) -> ProcessVariables
        ensures { (here : sites.Site) → variables_view here result ≡ definition.no_variables here }
    {
        ProcessVariables {
            region: Region::new(alloc),
            layout: Layout::new(alloc),
            variables: Vec::new(alloc),
        }
    }

    /// What is known in a process that stands at a site.
    pub fn within<'a>(&'a self, outer: &'a Site) -> Site<'a>
        requires site { IsSite outer.now }
        requires outer { IsOuter outer.now }
        ensures placed { IsSite result }
        ensures seen { site_view result ≡ (variables_view (site_view outer.now) self.now).site }
    {
        Site {
            integers: Integers {
                generics: outer.integers.generics,
                constants: outer.integers.constants,
                own_constants: &self.region.integers,
                generates: outer.integers.generates,
                loops: outer.integers.loops,
                ranges: outer.integers.ranges,
                own_ranges: &self.region.ranges,
            },
            constants: outer.constants,
            own_constants: &self.region.constants,
            ports: outer.ports,
            port_elements: outer.port_elements,
            signals: outer.signals,
            variables: &self.layout.things,
        }
    }

    /// Puts a variable behind those before it. Memory would be refused where the numbers of their
    /// elements don't fit a word.
    pub(crate) fn add(&mut self, variable: Variable) -> Result<(), AllocError>
        requires { HasWidth variable }
        ensures { OnOk result ((here : sites.Site) → variables_view here self.new ≡
            definition.with_variable (variables_view here self.old) (variable_view variable)) }
    {
        let elements = self.layout.elements as usize;
        if elements + variable.kind.size() > u32::MAX as usize {
            return Err(AllocError);
        }
        self.layout.add(variable.kind)?;
        self.region.add_range_of(variable.kind)?;
        self.variables.push(variable)?;
        Ok(())
    }
}
