//! Processes of the flat netlist (IEEE 1076-2008, 14.7.2).

ghost use Rattle.std.specs.Prelude.{◌≡◌, map, slice_index, Contains, IfOk};
ghost use Rattle.rtl_net.specs.Bodies.{statements_of};
ghost use Rattle.rtl_net.specs.Nets.{driver_view};
ghost use Rattle.rtl_net.specs.Names.{generates_prefix};
ghost use Rattle.vhdl_expand_rules.specs.laws.Trees.{Assigns};
ghost use Rattle.vhdl_connect_processes.specs.Connected.{IsRising};
ghost use Rattle.vhdl_expand_tree.specs.Views.{variable_view, process_view};
ghost use Rattle.vhdl_connect_processes.specs.Located.{driver_in, net_variable, of_variable, IsDotted, IsOf};

use crate::connection::Connection;
use crate::kind::signal_kind;
use crate::woken::wakes;
use rtl_net::{Driver, Process, Variable};
use smallvec::SmallVec;
use std::alloc::{AllocError, Global};
use std::mem;
use vhdl_expand_processes::read_of;
use vhdl_expand_rules::byte;

/// Where a process stands: the number of its scope, and of its instance's elements the nets and
/// what they start with.
#[derive(Clone, Copy)]
pub struct Round<'a> {
    pub alloc: Global,
    pub scope: usize,
    pub nets: &'a [u32],
    pub defaults: &'a [u8],
}

/// The net of an element.
pub fn net_at(nets: &[u32], element: usize) -> u32
    ensures { result ≡ slice_index nets.now element }
{
    match nets.get(element) {
        Some(net) => *net,
        None => 0,
    }
}

/// What an element starts with.
pub(crate) fn default_at(defaults: &[u8], element: usize) -> u8
    ensures { result ≡ slice_index defaults.now element }
{
    match defaults.get(element) {
        Some(start) => *start,
        None => 0,
    }
}

/// The labels of generates without the last dot.
fn without_dot(mut prefix: Vec<u8>) -> Vec<u8>
    requires { IsDotted prefix.items }
    ensures { generates_prefix result.items ≡ prefix.items }
{
    let _dot = prefix.pop();
    prefix
}

/// A variable, taken out of the tree.
fn variable(alloc: Global, from: &mut vhdl_expand_tree::Variable) -> Result<Variable, AllocError>
    ensures { IfOk result (λ v. net_variable v ≡ of_variable (variable_view from.old)) }
{
    let kind = signal_kind(from.kind);
    Ok(Variable {
        name: mem::replace(&mut from.name, Vec::new(alloc)),
        kind,
        starts: mem::replace(&mut from.starts, SmallVec::new(alloc)),
    })
}

/// Variables, taken out of the tree. It takes the memory of the list.
fn variables(
    alloc: Global,
    from: &mut [vhdl_expand_tree::Variable],
) -> Result<Vec<Variable>, AllocError>
    ensures { IfOk result (λ v. map net_variable v.items ≡ map of_variable (map variable_view from.old)) }
{
    let mut taken = Vec::new(alloc);
    for i in 0..from.len() {
        let next = variable(alloc, &mut from[i])?;
        taken.push(next)?;
    }
    Ok(taken)
}

impl Round<'_> {
    /// The drivers of elements. It takes the memory of the list.
    fn drivers(&self, elements: &[usize]) -> Result<Vec<Driver>, AllocError>
        ensures { IfOk result (λ v. map driver_view v.items ≡
            map (driver_in self.now.nets.now self.now.defaults.now) elements.now) }
    {
        let mut drivers = Vec::new(self.alloc);
        for element in elements {
            drivers.push(Driver {
                net: net_at(self.nets, *element) as usize,
                start: default_at(self.defaults, *element),
            })?;
        }
        Ok(drivers)
    }

    /// A process, taken out of the tree, with nets in place of elements. It takes the memory of its
    /// drivers, of what it reads and of what resumes it, and time to sort these.
    pub fn process(&self, from: &mut vhdl_expand_tree::Process) -> Result<Process, AllocError>
        requires rising { IsRising from.old.drives.items }
        requires driven { Assigns (Contains from.old.drives.items) (statements_of from.old.body.items) }
        requires dotted { IsDotted from.old.prefix.items }
        ensures { IfOk result (λ p. IsOf self.now.scope self.now.nets.now self.now.defaults.now (process_view from.old)
            p) }
    {
        let connection = Connection {
            alloc: self.alloc,
            nets: self.nets,
            drives: &from.drives,
        };
        connection.connect_body(&mut from.body)?;
        let reads = read_of(self.alloc, &from.body)?;
        let wakes = wakes(&connection, &from.sensitivity, &reads)?;
        let drives = self.drivers(&from.drives)?;
        let variables = variables(self.alloc, &mut from.variables)?;
        let generates = without_dot(mem::replace(&mut from.prefix, Vec::new(self.alloc)));
        Ok(Process {
            drives,
            reads,
            wakes,
            variables,
            body: mem::replace(&mut from.body, Vec::new(self.alloc)),
            scope: self.scope,
            generates,
            label: from.label.take(),
            at: byte(from.at),
        })
    }
}
