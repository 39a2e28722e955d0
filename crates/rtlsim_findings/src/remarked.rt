//! What is told of remarks.

ghost use Rattle.std.specs.Prelude.{◌≡◌, ◌++◌, map, position, IfOk, OnOk};
ghost use Rattle.std.specs.List.{position_or_len};
ghost use Rattle.rtlsim_findings.specs.Remarked as spec;
ghost use Rattle.rtlsim_findings.specs.Remarked.{remark_view};

use crate::cause::is_same_number;
use crate::mixed::name_of_process;
use crate::naming::range;
use crate::ranges::follows;
use crate::saying::sentence;
use fault_rules::{RemarkRule, Report, Rule, Subject};
use rtl_net::{Net, NoMemory};
use rtl_remarks::{Remark, RemarkKind};
use rtlsim_listing::{net_name, place_of};
use std::alloc::Global;

/// Remarks that are told as one.
#[derive(Drop)]
pub struct RemarkFinding {
    /// The last of them.
    pub remark: Remark,
    /// Their nets, as a range.
    pub nets: Vec<u8>,
}

/// The rule of a kind of remarks.
fn rule_of(kind: RemarkKind) -> RemarkRule
    ensures { result ≡ spec.rule_of kind }
{
    match kind {
        RemarkKind::Undriven => RemarkRule::Undriven,
        RemarkKind::Unassigned => RemarkRule::Unassigned,
        RemarkKind::IdlePort => RemarkRule::IdlePort,
        RemarkKind::NotReset => RemarkRule::NotReset,
        RemarkKind::ClockRead => RemarkRule::ClockRead,
        RemarkKind::NeverKnown => RemarkRule::NeverKnown,
        RemarkKind::UnreadElement => RemarkRule::UnreadElement,
        RemarkKind::ClockWithoutLine => RemarkRule::ClockWithoutLine,
        RemarkKind::InputWithoutLine => RemarkRule::InputWithoutLine,
        RemarkKind::OutsideRange => RemarkRule::OutsideRange,
    }
}

/// What a remark tells.
pub fn remark_report(remark: Remark) -> Report
    ensures { result ≡ spec.report_of remark }
{
    Report {
        rule: Rule::Remark(rule_of(remark.kind)),
        place: place_of(remark.process),
        subject: Subject::Net { net: remark.net },
    }
}

/// The process that a remark is told of, if it names one.
pub fn remark_process(remark: Remark) -> Option<usize>
    ensures { result ≡ spec.process_of remark }
{
    remark.process
}

/// Whether two remarks are of one kind, and of one process where they have one.
fn is_same(before: Remark, remark: Remark) -> bool
    ensures { result ≡ spec.is_same before remark }
{
    let first = remark_report(before).rule.words().number;
    let second = remark_report(remark).rule.words().number;
    first == second && is_same_number(before.process, remark.process)
}

/// The name of a remark's net, or of the integer that it is a digit of.
fn name_of(alloc: Global, net: &Net, remark: Remark) -> Result<Vec<u8>, NoMemory>
    ensures { IfOk result (λ name. name.items ≡ spec.name net.now remark) }
{
    let mut name = net_name(alloc, net, remark.net)?;
    name.truncate(digit_start(&name));
    Ok(name)
}

/// Where the `[` of a digit stands; the length, where there is none.
fn digit_start(name: &[u8]) -> usize
    ensures { result ≡ position_or_len spec.opens_digit name.now }
{
    opening(name).unwrap_or(name.len())
}

/// Where a `[` stands first.
fn opening(name: &[u8]) -> Option<usize>
    ensures { result ≡ position spec.opens_digit name.now }
{
    name.iter().position(|byte| *byte == b'[')
}

/// Whether a remark is told with the one before.
fn goes_on(alloc: Global, net: &Net, before: Remark, remark: Remark) -> Result<bool, NoMemory>
    ensures { IfOk result (λ same. same ≡ spec.goes_on net.now before remark) }
{
    let last = name_of(alloc, net, before)?;
    let next = name_of(alloc, net, remark)?;
    Ok(is_same(before, remark) && (last == next || follows(&last, &next)))
}

/// What is told of these remarks. It takes memory for each.
pub fn remark_findings(
    alloc: Global,
    net: &Net,
    remarks: &[Remark],
) -> Result<Vec<RemarkFinding>, NoMemory>
    ensures { IfOk result (λ found. map remark_view found.items ≡ spec.found net.now remarks.now) }
{
    let mut found = Vec::new(alloc);
    let [first, others @ ..] = remarks else {
        return Ok(found);
    };
    push_found(alloc, net, *first, others, &mut found)?;
    Ok(found)
}

/// Appends what is told of a remark and of those behind it.
fn push_found(
    alloc: Global,
    net: &Net,
    begin: Remark,
    remarks: &[Remark],
    found: &mut Vec<RemarkFinding>,
) -> Result<(), NoMemory>
    ensures { OnOk result (map remark_view found.new.items
        ≡ map remark_view found.old.items ++ spec.found_from net.now (spec.name net.now begin) begin remarks.now) }
{
    let mut first = name_of(alloc, net, begin)?;
    let mut before = begin;
    let mut left = remarks;
    while let [remark, others @ ..] = left {
        push_ended(alloc, net, &mut first, before, *remark, found)?;
        before = *remark;
        left = others;
    }
    found.push(told(alloc, net, &first, before)?)?;
    Ok(())
}

/// Appends what is told that ends before a remark, and takes the name of the first net of those
/// with which the remark is told.
fn push_ended(
    alloc: Global,
    net: &Net,
    first: &mut Vec<u8>,
    before: Remark,
    remark: Remark,
    found: &mut Vec<RemarkFinding>,
) -> Result<(), NoMemory>
    ensures found { OnOk result (map remark_view found.new.items
        ≡ map remark_view found.old.items ++ spec.ended net.now first.old.items before remark) }
    ensures first { OnOk result (first.new.items ≡ spec.begun_by net.now first.old.items before remark) }
{
    if goes_on(alloc, net, before, remark)? {
        return Ok(());
    }
    found.push(told(alloc, net, first.as_slice(), before)?)?;
    *first = name_of(alloc, net, remark)?;
    Ok(())
}

/// What is told of the nets from the one of this name to the remark's.
fn told(alloc: Global, net: &Net, first: &[u8], last: Remark) -> Result<RemarkFinding, NoMemory>
    ensures { IfOk result (λ found. remark_view found ≡ spec.told net.now first.now last) }
{
    let nets = range(alloc, first, &name_of(alloc, net, last)?)?;
    Ok(RemarkFinding { remark: last, nets })
}

/// The sentence of what is told of remarks.
pub fn remark_message(alloc: Global, net: &Net, found: &RemarkFinding) -> Result<Vec<u8>, NoMemory>
    ensures { IfOk result (λ text. text.items ≡ spec.message net.now (remark_view found.now)) }
{
    let process = name_of_process(alloc, net, found.remark.process)?;
    sentence(
        alloc,
        remark_report(found.remark).rule.words(),
        &process,
        &found.nets,
    )
}
