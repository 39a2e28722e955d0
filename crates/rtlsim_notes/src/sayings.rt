//! What notes say.

ghost use Rattle.std.specs.Prelude.{◌≡◌, ◌++◌, IfOk, codes};
ghost use Rattle.rtlsim_notes.specs.Sayings as spec;

use rtl_net::{Net, NoMemory};
use rtlsim_circles::{link_net, name_of_net};
use rtlsim_listing::{net_name, process_name};
use std::alloc::Global;
use vhdl_places::Lack;

/// What is said of an edge that is the condition of no register.
pub(crate) fn inside_text(alloc: Global) -> Result<Vec<u8>, NoMemory>
    ensures { IfOk result (λ text. text.items ≡ spec.inside_text) }
{
    Ok(Vec::from_slice(
        alloc,
        b"this edge or 'event stands inside another statement; a register has one edge, as its if's whole \
          condition, and tests another signal's edge by its last value: s = '1' and last = '0'",
    )?)
}

/// What is said of a loop in which a latch leaves the assignment out.
pub(crate) fn loop_text(alloc: Global) -> Result<Vec<u8>, NoMemory>
    ensures { IfOk result (λ text. text.items ≡ spec.loop_text) }
{
    Ok(Vec::from_slice(
        alloc,
        b"a default inside this loop may undo what an earlier turn assigns: put it before the loop, and before one round it",
    )?)
}

/// What is said of a name that is read and isn't in the list.
pub(crate) fn read_text(alloc: Global, name: &[u8]) -> Result<Vec<u8>, NoMemory>
    ensures { IfOk result (λ text. text.items ≡ spec.read_text name.now) }
{
    behind_name(alloc, name, b" is read here")
}

/// A text behind a name.
fn behind_name(alloc: Global, name: &[u8], words: &[u8]) -> Result<Vec<u8>, NoMemory>
    ensures { IfOk result (λ text. text.items ≡ name.now ++ words.now) }
{
    let mut text = Vec::from_slice(alloc, name)?;
    text.extend_from_slice(words)?;
    Ok(text)
}

/// What is said of a name of the list that isn't read.
pub(crate) fn lack_text(alloc: Global, name: &[u8], lack: Lack) -> Result<Vec<u8>, NoMemory>
    ensures { IfOk result (λ text. text.items ≡ spec.lack_text name.now lack) }
{
    match lack {
        Lack::Nothing => behind_name(
            alloc,
            name,
            b" is in the list, and the process assigns it and never reads it: take it out of the list",
        ),
        Lack::Reading => {
            behind_name(
                alloc,
                name,
                b" is in the list, and the process doesn't read it",
            )
        }
        Lack::EdgeIf => edge_text(alloc, name, b"is if rising_edge(", b") then meant?"),
        Lack::EdgeBranch(_) => {
            edge_text(alloc, name, b"is elsif rising_edge(", b") then meant here?")
        }
    }
}

/// What is said of a clock of the list, with what stands before and behind its name in the
/// question.
fn edge_text(alloc: Global, name: &[u8], before: &[u8], after: &[u8]) -> Result<Vec<u8>, NoMemory>
    ensures { IfOk result (λ text. text.items ≡ name.now
        ++ codes " is in the list, and no edge of it is tested: " ++ before.now ++ name.now ++ after.now) }
{
    let mut text = Vec::from_slice(alloc, name)?;
    text.extend_from_slice(b" is in the list, and no edge of it is tested: ")?;
    text.extend_from_slice(before)?;
    text.extend_from_slice(name)?;
    text.extend_from_slice(after)?;
    Ok(text)
}

/// The name of the net on the way from a process of a circle to the one before it.
fn link_name(alloc: Global, net: &Net, process: usize, next: usize) -> Result<Vec<u8>, NoMemory>
    ensures { IfOk result (λ text. text.items ≡ spec.link_name net.now process next) }
{
    name_of_net(alloc, net, link_net(alloc, net, process, next)?)
}

/// What is said of a process of a circle, by the one before and the next.
pub(crate) fn step_text(
    alloc: Global,
    net: &Net,
    before: usize,
    this: usize,
    next: usize,
) -> Result<Vec<u8>, NoMemory>
    ensures { IfOk result (λ text. text.items ≡ spec.step_text net.now before this next) }
{
    let mut text = process_name(alloc, net, this)?;
    text.extend_from_slice(b" drives ")?;
    text.extend_from_slice(&link_name(alloc, net, before, this)?)?;
    text.extend_from_slice(b", and is sensitive to ")?;
    text.extend_from_slice(&link_name(alloc, net, this, next)?)?;
    Ok(text)
}

/// What is said of a net of a circle, where its process reads the next, by this name.
pub(crate) fn look_text(
    alloc: Global,
    net: &Net,
    number: usize,
    next: usize,
    name: &[u8],
) -> Result<Vec<u8>, NoMemory>
    ensures { IfOk result (λ text. text.items ≡ spec.look_text net.now number next name.now) }
{
    let mut text = net_name(alloc, net, number)?;
    text.extend_from_slice(b" looks at ")?;
    text.extend_from_slice(&net_name(alloc, net, next)?)?;
    text.extend_from_slice(b": its process reads ")?;
    text.extend_from_slice(name)?;
    text.extend_from_slice(b" here")?;
    Ok(text)
}

/// What is said of an instance that connects a net.
pub(crate) fn connection_text(alloc: Global, label: &[u8], port: &[u8]) -> Result<Vec<u8>, NoMemory>
    ensures { IfOk result (λ text. text.items ≡ spec.connection_text label.now port.now) }
{
    let mut text = Vec::from_slice(alloc, b"here ")?;
    text.extend_from_slice(label)?;
    text.extend_from_slice(b" connects its port ")?;
    text.extend_from_slice(port)?;
    text.extend_from_slice(b" to it")?;
    Ok(text)
}
