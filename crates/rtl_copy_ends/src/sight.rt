//! What is seen of a net on a walk down copies.

ghost use Rattle.std.specs.Prelude.{◌≡◌};
ghost use Rattle.rtl_copy_ends.specs.Ends as spec;

use crate::processes::driven_by;
use rtl_body_facts::ProcessKind;
use rtl_net::{Net, Process, Source};
use rtl_process_kinds::{Asked, Copied, copy_of};

/// Where a walk from a reset down copies stands.
#[derive(Clone, Copy)]
pub struct Standing {
    pub net: usize,
    /// The values of this net at which the reset holds.
    pub asked: Asked,
    /// Whether it isn't the reset's net, but one that is copied.
    pub copied: bool,
}

/// What stands where a walk ends.
#[derive(Clone, Copy)]
pub enum End {
    /// A net with other sources than one process; or its process has a fault of its own, or is a
    /// register without a reset.
    Nothing,
    /// The net is copied, and starts with a value at which the reset holds.
    Starts { net: usize },
    /// A combinational process makes the net, and copies none to it that a process drives.
    Made { net: usize },
    /// The net is a register that the second one resets.
    Register { net: usize, reset: usize },
    /// The net depends on itself.
    Circle { net: usize },
}

/// What is seen of a net there.
#[derive(Clone, Copy)]
pub(crate) enum Sight {
    Ends(End),
    /// It copies this one.
    Copies(Standing),
}

/// The process that drives a net alone.
fn sole_driver(net: &Net, number: usize) -> Option<usize>
    ensures { result ≡ spec.sole_driver net.now number }
{
    if number >= net.nets() {
        return None;
    }
    match net.sources(number) {
        [Source::Driven { process, .. }] => Some(*process),
        _ => None,
    }
}

/// The net that a process copies, if a process drives it.
fn driven_copy(net: &Net, process: &Process) -> Option<Copied>
    ensures { result ≡ spec.driven_copy net.now process.now }
{
    let copy = copy_of(&process.body)?;
    driven_by(net, copy.copied.net)?;
    Some(copy.copied)
}

/// Whether a copied net starts with a value at which the reset holds.
fn starts_held(net: &Net, standing: Standing) -> bool
    ensures { result ≡ spec.starts_held net.now standing }
{
    if !standing.copied || standing.net >= net.nets() {
        return false;
    }
    standing.asked.has(net.start(standing.net))
}

/// What is seen of a net that a combinational process drives, by what that copies.
fn sight_of_logic(net: &Net, standing: Standing, copied: Option<Copied>) -> Sight
    ensures { result ≡ spec.sight_of_logic net.now standing copied }
{
    if starts_held(net, standing) {
        return Sight::Ends(End::Starts { net: standing.net });
    }
    match copied {
        Some(copied) => Sight::Copies(Standing {
            net: copied.net,
            asked: standing.asked.through(copied.inverted),
            copied: true,
        }),
        None => Sight::Ends(End::Made { net: standing.net }),
    }
}

/// What stands where a register is that this net resets.
fn end_of_register(net: &Net, standing: Standing, reset: usize) -> End
    ensures { result ≡ spec.end_of_register net.now standing reset }
{
    if driven_by(net, reset).is_none() && starts_held(net, standing) {
        return End::Starts { net: standing.net };
    }
    End::Register {
        net: standing.net,
        reset,
    }
}

/// The same of one whose process has this reset.
fn end_of_clocked(net: &Net, standing: Standing, reset: Option<usize>) -> End
    ensures { result ≡ spec.end_of_clocked net.now standing reset }
{
    match reset {
        Some(reset) => end_of_register(net, standing, reset),
        None => End::Nothing,
    }
}

/// What is seen of a net that this process drives, which is of this kind.
fn sight_of_kind(net: &Net, standing: Standing, process: &Process, kind: ProcessKind) -> Sight
    ensures { result ≡ spec.sight_of_kind net.now standing process.now kind }
{
    match kind {
        ProcessKind::Combinational => sight_of_logic(net, standing, driven_copy(net, process)),
        ProcessKind::Clocked(clocking) => {
            Sight::Ends(end_of_clocked(net, standing, clocking.reset))
        }
        ProcessKind::Mixed => Sight::Ends(End::Nothing),
    }
}

/// What is seen where a walk stands, by the kinds of all processes.
pub(crate) fn look(net: &Net, kinds: &[ProcessKind], standing: Standing) -> Sight
    requires { kinds.now ≡ spec.all_kinds net.now }
    ensures { result ≡ spec.look net.now standing }
{
    let Some(driver) = sole_driver(net, standing.net) else {
        return Sight::Ends(End::Nothing);
    };
    match net.processes().get(driver) {
        Some(process) => sight_of_kind(net, standing, process, kinds[driver]),
        None => Sight::Ends(End::Nothing),
    }
}
