//! What the checker's faults tell, and what is said of them.

ghost use Rattle.std.specs.Prelude.{◌≡◌};
ghost use Rattle.rtl_check.specs.Views.{fault_view};
ghost use Rattle.rtl_net.specs.Nets.{source_view};
ghost use Rattle.fault_rules.specs.Rules.{AreWords};
ghost use Rattle.rtlsim_listing.specs.Reports as spec;
ghost use Rattle.rtlsim_listing.specs.Reports.{circle_view};

use fault_rules::{CheckRule, Place, Report, Rule, Subject, Words};
use rtl_check::CheckFault;
use rtl_net::Source;

/// What is said of a loop of nets, in place of what its rule says.
static NET_LOOP: Words<&str> = Words {
    layer: "fault",
    number: 8,
    name: "Loop",
    opening: "each net looks at the next, and the last at the first: ",
    middle: "",
    closing: "",
    help: "see where each of these nets is assigned whether the right signal is read, as state for next_state; a value \
        that adds up in steps does so in a variable, as v := v + a(i), which is assigned at the end; a value that is \
        to be kept is assigned under rising_edge(clk); registers that reset one another are reset by a net that none of \
        them makes, or under rising_edge(clk)",
};

/// The circle that a fault is told of.
#[derive(Clone, Copy)]
pub enum Circle<'a> {
    /// Of processes, each of which is sensitive to what the next drives.
    Processes(&'a [usize]),
    /// Of nets, each of which looks at the next.
    Nets(&'a [usize]),
}

/// What a fault tells.
pub fn report_of(fault: &CheckFault) -> Report
    ensures { result ≡ spec.report_of (fault_view fault.now) }
{
    match fault {
        CheckFault::TwoDrivers { net, first, second } => of_sources(*net, *first, *second),
        CheckFault::Mixed { process } => {
            let subject = Subject::Process { process: *process };
            told(CheckRule::Mixed, Some(*process), subject)
        }
        CheckFault::ClockNotInput { process, net } => at_net(
            CheckRule::ClockNotInput,
            *process,
            *net,
        ),
        CheckFault::EdgeNotSensitive { process, net } => at_net(
            CheckRule::EdgeNotSensitive,
            *process,
            *net,
        ),
        CheckFault::ClockAsData { process, net } => at_net(CheckRule::ClockAsData, *process, *net),
        CheckFault::MissingSensitivity { process, net } => at_net(
            CheckRule::MissingSensitivity,
            *process,
            *net,
        ),
        CheckFault::Latch { process, net } => at_net(CheckRule::Latch, *process, *net),
        CheckFault::Loop { processes } => of_circle(processes),
        CheckFault::NetLoop { .. } => told(CheckRule::Loop, None, Subject::Circle),
        CheckFault::StoredVariable {
            process,
            variable,
            place,
        } => of_element(*process, *variable, *place),
    }
}

/// What is said of a fault.
pub fn words_for(fault: &CheckFault) -> &'static Words<&'static str>
    ensures { AreWords (spec.words_for (fault_view fault.now)) result.now }
{
    match fault {
        CheckFault::NetLoop { .. } => &NET_LOOP,
        _ => report_of(fault).rule.words(),
    }
}

/// The circle that a fault is told of; another fault is told of none.
pub fn circle_of(fault: &CheckFault) -> Circle<'_>
    ensures { circle_view result ≡ spec.circle_of (fault_view fault.now) }
{
    match fault {
        CheckFault::Loop { processes } => Circle::Processes(processes),
        CheckFault::NetLoop { nets } => Circle::Nets(nets),
        _ => Circle::Processes(&[]),
    }
}

/// What is told of two sources of a net.
fn of_sources(net: usize, first: Source, second: Source) -> Report
    ensures { result ≡ spec.told CheckRule.TwoDrivers (spec.process_of (source_view first))
        (Subject.Sources net (spec.process_of (source_view first)) (spec.process_of (source_view second))) }
{
    let first = process_of(first);
    let second = process_of(second);
    told(
        CheckRule::TwoDrivers,
        first,
        Subject::Sources { net, first, second },
    )
}

/// What is told of a circle of processes.
fn of_circle(processes: &[usize]) -> Report
    ensures { result ≡ spec.told CheckRule.Loop (spec.first_of processes.now) Subject.Circle }
{
    told(CheckRule::Loop, first_of(processes), Subject::Circle)
}

/// The first process of a circle.
fn first_of(processes: &[usize]) -> Option<usize>
    ensures { result ≡ spec.first_of processes.now }
{
    match processes {
        [process, ..] => Some(*process),
        [] => None,
    }
}

/// What is told of an element of a variable.
fn of_element(process: usize, variable: usize, place: usize) -> Report
    ensures { result ≡ spec.told CheckRule.StoredVariable (Some process) (Subject.Element process variable place) }
{
    let subject = Subject::Element {
        process,
        variable,
        place,
    };
    told(CheckRule::StoredVariable, Some(process), subject)
}

/// What is told of a process and a net.
fn at_net(rule: CheckRule, process: usize, net: usize) -> Report
    ensures { result ≡ spec.at_net rule process net }
{
    told(rule, Some(process), Subject::ProcessNet { process, net })
}

/// What is told of something, at the place of its first process.
fn told(rule: CheckRule, first: Option<usize>, subject: Subject) -> Report
    ensures { result ≡ spec.told rule first subject }
{
    Report {
        rule: Rule::Check(rule),
        place: place_of(first),
        subject,
    }
}

/// The place of a process, if there is one.
pub fn place_of(process: Option<usize>) -> Place
    ensures { result ≡ spec.place_of process }
{
    match process {
        Some(process) => Place::Process(process),
        None => Place::Nowhere,
    }
}

/// The process of a driver; an idle port has none.
pub(crate) fn process_of(source: Source) -> Option<usize>
    ensures { result ≡ spec.process_of (source_view source) }
{
    match source {
        Source::Driven { process, .. } => Some(process),
        Source::Idle { .. } => None,
    }
}
