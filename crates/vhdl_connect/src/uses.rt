//! What an instance does with the elements of its ports and signals: how many sources they have in
//! it, and whether they are read (IEEE 1076-2008, 6.4.2.3, 6.5.6.3).

ghost use Rattle.std.specs.Prelude.{◌≡◌, ℕ, List, [], ◌∷◌, ◌++◌, length, map, IfOk, OnOk};
ghost use Rattle.vhdl_expand_rules.specs.Tree.{input, output, no_parts};
ghost use Rattle.vhdl_elab_rules.specs.Numbering.{actuals_of, driven_in, process_reads, read_in};
ghost use Rattle.vhdl_expand_tree.specs.Views.{object_view, part_before, parts_of, process_view, sensitivity_view};
ghost use Rattle.vhdl_connect.specs.Uses.{AreUses, one_more, listed_by};

use std::alloc::{AllocError, Global};
use vhdl_expand_processes::read_of;
use vhdl_expand_tree::{InstancePart, Object, Process, Role, Sensitivity};

/// How many sources an element has of its own.
#[derive(Clone, Copy)]
pub enum Sources {
    Zero,
    One,
    Several,
}

/// What an instance does with an element.
#[derive(Clone, Copy)]
pub struct Use {
    /// Drivers in the instance, and out ports of instances in it.
    pub sources: Sources,
    /// By name, or by the in port of an instance.
    pub is_read: bool,
}

impl Sources {
    /// One more.
    fn and_one(self) -> Sources
        ensures { result ≡ one_more self }
    {
        match self {
            Sources::Zero => Sources::One,
            Sources::One => Sources::Several,
            Sources::Several => Sources::Several,
        }
    }
}

/// Gives each of these elements one more source.
fn mark_driven(uses: &mut [Use], elements: &[usize])
    ensures { (driven read : List ℕ) → AreUses driven read uses.old → AreUses (driven ++ elements.now) read uses.new }
{
    for element in elements {
        add_source(uses, *element);
    }
}

/// Gives an element one more source, where it is there.
fn add_source(uses: &mut [Use], element: usize)
    ensures { (driven read : List ℕ) → AreUses driven read uses.old → AreUses (driven ++ element ∷ []) read uses.new }
{
    if element >= uses.len() {
        return;
    }
    let marked = uses[element];
    uses[element] = Use {
        sources: marked.sources.and_one(),
        is_read: marked.is_read,
    };
}

/// Says that each of these elements is read.
fn mark_read(uses: &mut [Use], elements: &[usize])
    ensures { (driven read : List ℕ) → AreUses driven read uses.old → AreUses driven (read ++ elements.now) uses.new }
{
    for element in elements {
        set_read(uses, *element);
    }
}

/// Says that an element is read, where it is there.
fn set_read(uses: &mut [Use], element: usize)
    ensures { (driven read : List ℕ) → AreUses driven read uses.old → AreUses driven (read ++ element ∷ []) uses.new }
{
    if element >= uses.len() {
        return;
    }
    let marked = uses[element];
    uses[element] = Use {
        sources: marked.sources,
        is_read: true,
    };
}

/// Marks what a process drives and reads. It takes the memory of a list of what its body reads, and
/// time to sort it.
fn mark_process(alloc: Global, uses: &mut [Use], process: &Process) -> Result<(), AllocError>
    ensures { OnOk result ((driven read : List ℕ) → AreUses driven read uses.old
        → AreUses (driven ++ process.now.drives.items) (read ++ process_reads (process_view process.now)) uses.new) }
{
    let found = read_of(alloc, &process.body)?;
    mark_driven(uses, &process.drives);
    mark_read(uses, &found);
    mark_listed(uses, &process.sensitivity);
    Ok(())
}

/// Marks what the list of a process reads.
fn mark_listed(uses: &mut [Use], sensitivity: &Sensitivity)
    ensures { (driven read : List ℕ) → AreUses driven read uses.old
        → AreUses driven (read ++ listed_by (sensitivity_view sensitivity.now)) uses.new }
{
    match sensitivity {
        Sensitivity::Listed(listed) => mark_read(uses, listed),
        Sensitivity::Every(_) => {}
        Sensitivity::AsRead => {}
    }
}

/// Marks what the ports of an instance drive and read in the one round it.
fn mark_ports(uses: &mut [Use], objects: &[Object])
    ensures { (driven read : List ℕ) → AreUses driven read uses.old
        → AreUses (driven ++ actuals_of output (map object_view objects.now))
        (read ++ actuals_of input (map object_view objects.now)) uses.new }
{
    for object in objects {
        mark_port(uses, object);
    }
}

/// Marks what a port of an instance drives or reads in the one round it.
fn mark_port(uses: &mut [Use], object: &Object)
    ensures { (driven read : List ℕ) → AreUses driven read uses.old
        → AreUses (driven ++ actuals_of output (map object_view (object.now ∷ [])))
        (read ++ actuals_of input (map object_view (object.now ∷ []))) uses.new }
{
    match &object.actual {
        None => {}
        Some(actual) => match object.role {
            Role::Input => mark_read(uses, actual),
            Role::Output => mark_driven(uses, actual),
            Role::Internal => {}
        },
    }
}

/// Marks what a part of an instance drives and reads in it. It takes the memory of a list of what a
/// body reads, and time to sort it.
fn mark_part(alloc: Global, uses: &mut [Use], part: &InstancePart) -> Result<(), AllocError>
    ensures { OnOk result ((driven read : List ℕ) → AreUses driven read uses.old
        → AreUses (driven ++ driven_in (part_before no_parts part.now))
        (read ++ read_in (part_before no_parts part.now)) uses.new) }
{
    match part {
        InstancePart::Process(process) => mark_process(alloc, uses, process),
        InstancePart::Instance { instance, .. } => {
            mark_ports(uses, &instance.objects);
            Ok(())
        }
    }
}

/// So many elements, of which none is used.
fn unused(alloc: Global, elements: usize) -> Result<Vec<Use>, AllocError>
    ensures length { IfOk result (λ uses. length uses.items ≡ elements) }
    ensures none { IfOk result (λ uses. AreUses [] [] uses.items) }
{
    let mut uses = Vec::new(alloc);
    for _ in 0..elements {
        uses.push(Use {
            sources: Sources::Zero,
            is_read: false,
        })?;
    }
    Ok(uses)
}

/// What the parts of an instance do with its first so many elements. It takes the memory of the
/// list and of lists of what bodies read, and time to sort these.
pub fn uses_in(
    alloc: Global,
    parts: &[InstancePart],
    elements: usize,
) -> Result<Vec<Use>, AllocError>
    ensures length { IfOk result (λ uses. length uses.items ≡ elements) }
    ensures each { IfOk result (λ uses.
        AreUses (driven_in (parts_of parts.now)) (read_in (parts_of parts.now)) uses.items) }
{
    let mut uses = unused(alloc, elements)?;
    for part in parts {
        mark_part(alloc, &mut uses, part)?;
    }
    Ok(uses)
}
