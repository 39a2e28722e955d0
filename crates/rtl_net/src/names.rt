//! Names of nets and processes, as messages and traces print them.

ghost use Rattle.std.specs.Prelude.{◌≡◌, ◌<◌, ◌≤◌, ◌-◌, max, min, ◌++◌, length, map, option_map, slice_get, decimal, IfOk, IfSome, OnOk};
ghost use Rattle.rtl_net.specs.Nets.{scope_view};
ghost use Rattle.rtl_net.specs.Elaborated.{AreScopes, width_of};
ghost use Rattle.rtl_net.specs.Names as spec;

use crate::net::{Net, NoMemory};
use crate::process::Process;
use crate::signal::{Scope, SignalKind};
use itoa::Buffer;

impl Net {
    /// The name of a net, by the signal that it was declared as: `path.name`, `path.name(i)` where
    /// that is a vector, and `path.name[k]` where it is an integer. It takes the memory of the
    /// name.
    pub fn net_name(&self, net: usize) -> Result<Vec<u8>, NoMemory>
        requires there { net < length self.now.types }
        ensures { IfOk result (λ name. name.items ≡ spec.net_name self.now net) }
    {
        let owner = self.owners[net];
        self.element_name(owner.signal, owner.place)
    }

    /// The name of a signal's element, by its place from the left: `path.name`, `path.name(i)`
    /// where the signal is a vector, and `path.name[k]` where it is an integer. It takes the memory
    /// of the name.
    pub fn element_name(&self, signal: usize, place: usize) -> Result<Vec<u8>, NoMemory>
        requires there { signal < length self.now.signals }
        requires within { IfSome (slice_get self.now.signals signal) (λ s. place < width_of s.kind) }
        ensures { IfOk result (λ name. name.items ≡
            spec.signal_name self.now.scopes place (slice_get self.now.signals signal)) }
    {
        self.is_elaborated();
        let signal = &self.signals[signal];
        let mut name = Vec::new(*self.owners.allocator());
        push_path(&self.scopes, signal.scope, &mut name)?;
        name.push(b'.')?;
        name.extend_from_slice(&signal.name)?;
        signal.kind.push_index(place, signal.nets.len(), &mut name)?;
        Ok(name)
    }

    /// The name of a process: `path.label`, or `path.#K` where it has no label, K being its number.
    /// The labels of the generates round it stand between. It takes the memory of the name.
    pub fn process_name(&self, process: usize) -> Result<Vec<u8>, NoMemory>
        requires there { process < length self.now.processes }
        ensures { IfOk result (λ name. name.items ≡ spec.process_name self.now process) }
    {
        let mut name = Vec::new(*self.owners.allocator());
        push_process(&self.scopes, &self.processes[process], process, &mut name)?;
        Ok(name)
    }
}

/// Appends the name of a process, with its scope's path.
fn push_process(
    scopes: &[Scope],
    process: &Process,
    number: usize,
    name: &mut Vec<u8>,
) -> Result<(), NoMemory>
    requires scopes { AreScopes (map scope_view scopes.now) }
    requires there { process.now.scope < length scopes.now }
    ensures { OnOk result (name.new.items ≡ name.old.items
        ++ spec.name_of_process (map scope_view scopes.now) process.now number) }
{
    push_path(scopes, process.scope, name)?;
    name.push(b'.')?;
    push_generates(&process.generates, name)?;
    push_label(&process.label, number, name)?;
    Ok(())
}

/// Appends a scope's path.
fn push_path(scopes: &[Scope], scope: usize, name: &mut Vec<u8>) -> Result<(), NoMemory>
    requires scopes { AreScopes (map scope_view scopes.now) }
    requires there { scope < length scopes.now }
    ensures { OnOk result (name.new.items ≡ name.old.items ++ spec.path (map scope_view scopes.now) scope) }
{
    let found = &scopes[scope];
    if let Some(parent) = found.parent {
        push_path(scopes, parent, name)?;
        name.push(b'.')?;
    }
    name.extend_from_slice(&found.label)?;
    Ok(())
}

impl SignalKind {
    /// Appends what stands behind the name of what has so many elements, for the one at this place:
    /// `(i)` of a vector, where i is its index, and `[k]` of an integer, where it stands for 2^k.
    pub fn push_index(
        self,
        place: usize,
        elements: usize,
        name: &mut Vec<u8>,
    ) -> Result<(), NoMemory>
        requires declared { elements ≡ width_of self }
        requires within { place < elements }
        ensures { OnOk result (name.new.items ≡ name.old.items ++ spec.index_suffix self place) }
    {
        match self {
            SignalKind::One | SignalKind::Enumeration { .. } | SignalKind::Boolean => {}
            SignalKind::Vector { left, right } => {
                name.push(b'(')?;
                push_number(index_at(left, right, place), name)?;
                name.push(b')')?;
            }
            SignalKind::Integer { .. } => {
                name.push(b'[')?;
                push_number(elements - 1 - place, name)?;
                name.push(b']')?;
            }
        }
        Ok(())
    }
}

/// The index of a vector's element at this place from the left.
fn index_at(left: u32, right: u32, place: usize) -> usize
    requires { place ≤ max left right - min left right }
    ensures { result ≡ spec.index_at left right place }
{
    let left = left as usize;
    if left <= right as usize {
        left + place
    } else {
        left - place
    }
}

/// Appends the labels of generates, and a dot, where there are any.
fn push_generates(generates: &[u8], name: &mut Vec<u8>) -> Result<(), NoMemory>
    ensures { OnOk result (name.new.items ≡ name.old.items ++ spec.generates_prefix generates.now) }
{
    if generates.is_empty() {
        return Ok(());
    }
    name.extend_from_slice(generates)?;
    name.push(b'.')?;
    Ok(())
}

/// Appends a process's label, or its number behind `#`.
fn push_label(label: &Option<Vec<u8>>, process: usize, name: &mut Vec<u8>) -> Result<(), NoMemory>
    ensures { OnOk result (name.new.items ≡ name.old.items
        ++ spec.label_or_number process (option_map (λ l. l.items) label.now)) }
{
    match label {
        Some(label) => name.extend_from_slice(label)?,
        None => {
            name.push(b'#')?;
            push_number(process, name)?;
        }
    }
    Ok(())
}

/// Appends a number in decimal digits.
fn push_number(number: usize, name: &mut Vec<u8>) -> Result<(), NoMemory>
    ensures { OnOk result (name.new.items ≡ name.old.items ++ decimal number) }
{
    let mut buffer = Buffer::new();
    name.extend_from_slice(buffer.format(number).as_bytes())?;
    Ok(())
}
