//! The walk over the tree of instances, which takes it apart (IEEE 1076-2008, 14.2).

ghost use Rattle.std.specs.Prelude.{◌≡◌, ℕ, ◌+◌, ◌≤◌, List, length, IfOk, OnOk};
ghost use Rattle.rtl_net.specs.Limits.{most_nets};
ghost use Rattle.vhdl_expand_rules.specs.Tree.{no_parts};
ghost use Rattle.vhdl_elab_rules.specs.Numbering.{Numbered, Placed, numbered_design, with_instance, with_parts};
ghost use Rattle.vhdl_expand_tree.specs.Views.{design_view, instance_view, part_before, parts_of};
ghost use Rattle.vhdl_elab.specs.Made.{IsMade};
ghost use Rattle.vhdl_elab.specs.Ready.{InstanceIsReady, PartsAreReady};
ghost use Rattle.vhdl_elab.specs.Walking.{above_at, instance_nets, parts_nets, IsIn};

use crate::made::Made;
use crate::place::InstancePlace;
use rtl_net::Scope;
use std::alloc::{AllocError, Global};
use std::mem;
use vhdl_connect::{defaults_of, element_nets};
use vhdl_connect_processes::Round;
use vhdl_expand_tree::{Design, Instance, InstancePart};

/// What an instance stands in: the number of the instance, and the nets of that one's elements.
#[derive(Clone, Copy)]
struct Above<'a> {
    parent: Option<usize>,
    nets: &'a [u32],
}

/// Adds an instance with this label, and what stands in it, behind what is made already. It is
/// taken apart.
#[cycle(instance)]
fn instance(
    alloc: Global,
    above: &Above,
    label: Vec<u8>,
    from: &mut Instance,
    made: &mut Made,
) -> Result<(), AllocError>
    requires ready { InstanceIsReady (instance_view from.old) }
    requires room { length made.old.kinds.items + instance_nets (instance_view from.old) ≤ most_nets }
    ensures nets { OnOk result (length made.new.kinds.items ≡
        length made.old.kinds.items + instance_nets (instance_view from.old)) }
    ensures made { (d : Numbered) (path : List ℕ) → IsMade d made.old
        → OnOk result
        (IsMade (with_instance (above_at above.now path) label.items (instance_view from.old) d) made.new) }
{
    let nets = element_nets(alloc, above.nets, made.kinds.len(), &from.objects)?;
    let defaults = defaults_of(alloc, &from.objects)?;
    let scope = made.scopes.len();
    let place = InstancePlace {
        alloc,
        scope,
        is_top: above.parent.is_none(),
        nets: &nets,
    };
    let parent = above.parent;
    made.declare(&place, Scope { label, parent }, from)?;
    let round = Round {
        alloc,
        scope,
        nets: &nets,
        defaults: &defaults,
    };
    parts(&round, &mut from.parts, made)
}

/// Adds what stands in an instance, in order of the text, behind what is made already. It is taken
/// apart.
#[cycle(instance)]
fn parts(round: &Round, list: &mut [InstancePart], made: &mut Made) -> Result<(), AllocError>
    requires ready { PartsAreReady (parts_of list.old) }
    requires room { length made.old.kinds.items + parts_nets (parts_of list.old) ≤ most_nets }
    ensures nets { OnOk result (length made.new.kinds.items ≡
        length made.old.kinds.items + parts_nets (parts_of list.old)) }
    ensures made { (d : Numbered) (p : Placed) → IsIn p round.now → IsMade d made.old
        → OnOk result (IsMade (with_parts round.now.scope p (parts_of list.old) d) made.new) }
{
    for i in 0..list.len() {
        part(round, &mut list[i], made)?;
    }
    Ok(())
}

/// Adds a process or an instance that stands in an instance, behind what is made already. It is
/// taken apart.
#[cycle(instance)]
fn part(round: &Round, from: &mut InstancePart, made: &mut Made) -> Result<(), AllocError>
    requires ready { PartsAreReady (part_before no_parts from.old) }
    requires room { length made.old.kinds.items + parts_nets (part_before no_parts from.old) ≤ most_nets }
    ensures nets { OnOk result (length made.new.kinds.items ≡
        length made.old.kinds.items + parts_nets (part_before no_parts from.old)) }
    ensures made { (d : Numbered) (p : Placed) → IsIn p round.now → IsMade d made.old
        → OnOk result (IsMade (with_parts round.now.scope p (part_before no_parts from.old) d) made.new) }
{
    match from {
        InstancePart::Process(process) => {
            made.processes.push(round.process(process)?)?;
            Ok(())
        }
        InstancePart::Instance {
            label,
            instance: inner,
        } => {
            let label = mem::replace(label, Vec::new(round.alloc));
            let above = Above {
                parent: Some(round.scope),
                nets: round.nets,
            };
            instance(round.alloc, &above, label, inner, made)
        }
    }
}

/// Numbers the instances, nets and processes of a design in order of the text, and makes of them
/// the tables of its netlist (IEEE 1076-2008, 14.2). The tree is taken apart. It takes the memory
/// of the tables, and at each level of instances that of the nets and defaults of one.
pub fn number(alloc: Global, mut design: Design) -> Result<Made, AllocError>
    requires ready { InstanceIsReady (design_view design).top }
    requires room { instance_nets (design_view design).top ≤ most_nets }
    ensures { IfOk result (λ m. IsMade (numbered_design (design_view design)) m) }
{
    let mut made = Made::nothing(alloc);
    let name = mem::replace(&mut design.name, Vec::new(alloc));
    let above = Above {
        parent: None,
        nets: &[],
    };
    instance(alloc, &above, name, &mut design.top, &mut made)?;
    Ok(made)
}
