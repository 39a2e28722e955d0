//! What the ports and signals of an instance add to the tables (IEEE 1076-2008, 6.4.2.3), and an
//! instance without what stands in it (14.3).

ghost use Rattle.std.specs.Prelude.{◌≡◌, ◌+◌, ◌≤◌, [], ◌∷◌, map, vec_len, IfOk, OnOk};
ghost use Rattle.vhdl_expand_rules.specs.Kinds.{size};
ghost use Rattle.vhdl_expand_rules.specs.views.Kinds.{kind_view};
ghost use Rattle.vhdl_expand_tree.specs.Views.{instance_view, object_view};
ghost use Rattle.vhdl_elab.specs.Adding.{Declares, elements_count};
ghost use Rattle.vhdl_elab.specs.Placing.{AddsPlaced};

use crate::made::Made;
use crate::nets::{push_own_defaults, push_own_kinds};
use crate::place::InstancePlace;
use rtl_net::Scope;
use std::alloc::AllocError;
use vhdl_connect::uses_in;
use vhdl_expand_tree::{Instance, Object};

impl Made {
    /// Adds an object, whose first element has this number in its instance, and gives the number of
    /// the element after it. Its name is taken out of the tree.
    fn object(
        &mut self,
        place: &InstancePlace,
        first: usize,
        object: &mut Object,
    ) -> Result<usize, AllocError>
        requires { first ≤ vec_len self.old.elements }
        ensures next { IfOk result (λ next. next ≡ first + size (kind_view object.old.kind)) }
        ensures within { IfOk result (λ next. next ≤ vec_len self.new.elements) }
        ensures made { OnOk result (Declares place.now first (object_view object.old ∷ []) self.old self.new) }
    {
        let len = object.kind.size();
        place.push_elements(&mut self.elements, first, object)?;
        push_own_kinds(&mut self.kinds, object)?;
        push_own_defaults(&mut self.defaults, object)?;
        self.signals.push(place.signal(first, object)?)?;
        Ok(first + len)
    }

    /// Adds the objects of an instance, and gives the number of their elements. Their names are
    /// taken out of the tree.
    fn objects(
        &mut self,
        place: &InstancePlace,
        objects: &mut [Object],
    ) -> Result<usize, AllocError>
        ensures count { IfOk result (λ n. n ≡ elements_count (map object_view objects.old)) }
        ensures made { OnOk result (Declares place.now 0 (map object_view objects.old) self.old self.new) }
    {
        let mut first = 0;
        for i in 0..objects.len() {
            first = self.object(place, first, &mut objects[i])?;
        }
        Ok(first)
    }

    /// Adds an instance, without what stands in it, in its place, under this scope (IEEE 1076-2008,
    /// 14.3). The names of its objects are taken out of the tree; its parts stay. It takes the
    /// memory of what the tables get, and for a time of one use for each element, and time to sort
    /// what each process in it reads. After a fault the tables may have a part of it.
    pub fn declare(
        &mut self,
        place: &InstancePlace,
        scope: Scope,
        from: &mut Instance,
    ) -> Result<(), AllocError>
        ensures parts { from.new.parts ≡ from.old.parts }
        ensures made { OnOk result (AddsPlaced place.now scope (instance_view from.old) self.old self.new) }
    {
        let elements = self.objects(place, &mut from.objects)?;
        let uses = uses_in(place.alloc, &from.parts, elements)?;
        self.uses.extend_from_slice(&uses)?;
        self.scopes.push(scope)?;
        Ok(())
    }
}
