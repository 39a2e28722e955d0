//! Where an instance stands among the others, and what an object is there.

ghost use Rattle.std.specs.Prelude.{◌≡◌, ◌+◌, ◌≤◌, ◌++◌, map, slice_index, vec_len, take, drop, IfOk, OnOk};
ghost use Rattle.rtl_net.specs.Nets.{signal_view};
ghost use Rattle.vhdl_expand_rules.specs.Kinds.{size};
ghost use Rattle.vhdl_expand_rules.specs.views.Kinds.{kind_view};
ghost use Rattle.vhdl_elab_rules.specs.Names as names;
ghost use Rattle.vhdl_elab_rules.specs.Shown.{signal_shown};
ghost use Rattle.vhdl_expand_tree.specs.Views.{object_view, role_view};
ghost use Rattle.vhdl_elab.specs.Made.{element_view};
ghost use Rattle.vhdl_elab.specs.Adding.{object_statics};

use crate::made::{Element, ElementRole};
use crate::nets::start_at;
use rtl_net::Signal;
use smallvec::SmallVec;
use std::alloc::{AllocError, Global};
use std::mem;
use vhdl_connect_processes::signal_kind;
use vhdl_expand_rules::byte;
use vhdl_expand_tree::{Object, Role};

/// The place of an instance: its number, whether it is the top, and the nets of its elements, in
/// order of declaration.
#[derive(Clone, Copy)]
pub struct InstancePlace<'a> {
    pub alloc: Global,
    pub scope: usize,
    pub is_top: bool,
    pub nets: &'a [u32],
}

/// The net of an element.
fn net_at(nets: &[u32], element: usize) -> u32
    ensures { result ≡ slice_index nets.now element }
{
    match nets.get(element) {
        Some(net) => *net,
        None => 0,
    }
}

/// Whether a port.
fn is_port(role: Role) -> bool
    ensures { result ≡ names.is_port_role (role_view role) }
{
    match role {
        Role::Input => true,
        Role::Output => true,
        Role::Internal => false,
    }
}

impl InstancePlace<'_> {
    /// Puts the elements of an object behind others, where its first element has this number.
    pub(crate) fn push_elements(
        &self,
        elements: &mut Vec<Element>,
        first: usize,
        object: &Object,
    ) -> Result<(), AllocError>
        requires { first ≤ vec_len elements.old }
        ensures count { OnOk result (vec_len elements.new ≡ vec_len elements.old + size (kind_view object.now.kind)) }
        ensures made { OnOk result (map element_view elements.new.items
            ≡ map element_view elements.old.items
            ++ object_statics self.now.is_top self.now.nets.now first (object_view object.now)) }
    {
        for k in 0..object.kind.size() {
            elements.push(Element {
                role: ElementRole::of(object.role, self.is_top),
                is_resolved: object.is_resolved,
                start: start_at(object.starts.as_slice(), k),
                net: net_at(self.nets, first + k),
                is_own: object.actual.is_none(),
                at: object.at,
            })?;
        }
        Ok(())
    }

    /// The nets of so many elements, from this one on. It takes the memory of the list.
    fn nets_from(&self, first: usize, len: usize) -> Result<SmallVec<usize, 1>, AllocError>
        ensures { IfOk result (λ v. v.items ≡ take len (drop first self.now.nets.now)) }
    {
        let mut found = SmallVec::new(self.alloc);
        let Some(rest) = self.nets.get(first..) else {
            return Ok(found);
        };
        for k in 0..len {
            match rest.get(k) {
                Some(net) => found.push(*net as usize)?,
                None => return Ok(found),
            }
        }
        Ok(found)
    }

    /// The signal that an object is, whose first element has this number. Its name is taken out of
    /// the tree.
    pub(crate) fn signal(&self, first: usize, object: &mut Object) -> Result<Signal, AllocError>
        ensures { IfOk result (λ s. signal_view s ≡
            signal_shown (names.signal_of self.now.scope self.now.nets.now first (object_view object.old))) }
    {
        let kind = signal_kind(object.kind);
        let nets = self.nets_from(first, object.kind.size())?;
        Ok(Signal {
            scope: self.scope,
            name: mem::replace(&mut object.name, Vec::new(self.alloc)),
            port: is_port(object.role),
            kind,
            nets,
            at: byte(object.at),
        })
    }
}
