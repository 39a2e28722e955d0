//! The names of what a finding is told of.

ghost use Rattle.std.specs.Prelude.{◌≡◌, if◌then◌else◌, [], ◌∷◌, ◌++◌, bytes_eq, codes, flat_map, map, IfOk, OnOk};
ghost use Rattle.rtl_check.specs.Views.{fault_view};
ghost use Rattle.rtlsim_findings.specs.Findings.{finding_view};
ghost use Rattle.rtlsim_findings.specs.Once.{each_new};
ghost use Rattle.rtlsim_findings.specs.Ranges.{range_text};
ghost use Rattle.rtlsim_findings.specs.Sayings as spec;
ghost use Rattle.rtlsim_listing.specs.CheckText.{source_name};

use crate::cause::is_of;
use crate::finding::Finding;
use crate::ranges::{follows, push_range};
use fault_rules::Subject;
use indexmap::IndexSet;
use rtl_check::CheckFault;
use rtl_net::{Net, NoMemory};
use rtlsim_circles::circle_text;
use rtlsim_listing::{circle_of, element_of, net_name, process_name, report_of, source_name};
use std::alloc::Global;

/// The name of the net or of a variable's element that something is told of, empty where there is
/// none.
fn name_of(alloc: Global, net: &Net, subject: Subject) -> Result<Vec<u8>, NoMemory>
    ensures { IfOk result (λ name. name.items ≡ spec.name_of net.now subject) }
{
    match subject {
        Subject::Sources { net: number, .. }
        | Subject::ProcessNet { net: number, .. }
        | Subject::Net { net: number } => net_name(alloc, net, number),
        Subject::Element {
            process,
            variable,
            place,
        } => element_of(alloc, net, process, variable, place),
        _ => Ok(Vec::new(alloc)),
    }
}

/// The nets or elements of variables that a finding's first fault and those of the same processes
/// are told of, as ranges.
pub fn ranges_of(alloc: Global, net: &Net, finding: &Finding<'_>) -> Result<Vec<Vec<u8>>, NoMemory>
    ensures { IfOk result (λ texts. map (λ t. t.items) texts.items
        ≡ spec.ranges_of net.now (finding_view finding.now)) }
{
    let name = name_of(alloc, net, report_of(finding.first).subject)?;
    let mut others = Vec::new(alloc);
    push_names(alloc, net, finding.first, &finding.others, &mut others)?;
    let mut texts = Vec::new(alloc);
    push_ranges(alloc, &name, &others, &mut texts)?;
    Ok(texts)
}

/// The same of all instances, each once.
pub fn all_ranges_of(
    alloc: Global,
    net: &Net,
    finding: &Finding<'_>,
) -> Result<Vec<Vec<u8>>, NoMemory>
    ensures { IfOk result (λ texts. map (λ t. t.items) texts.items
        ≡ spec.all_ranges_of net.now (finding_view finding.now)) }
{
    let name = name_of(alloc, net, report_of(finding.first).subject)?;
    let others = new_names(alloc, net, &name, &finding.others)?;
    let mut texts = Vec::new(alloc);
    push_ranges(alloc, &name, &others, &mut texts)?;
    Ok(texts)
}

/// The names of what these faults are told of, each once, but for this one.
fn new_names(
    alloc: Global,
    net: &Net,
    first: &[u8],
    faults: &[&CheckFault],
) -> Result<Vec<Vec<u8>>, NoMemory>
    ensures { IfOk result (λ names. map (λ t. t.items) names.items
        ≡ each_new bytes_eq (first.now ∷ []) (map (spec.name net.now) (map (λ f. fault_view f.now) faults.now))) }
{
    let mut told: IndexSet<Vec<u8>> = IndexSet::new(alloc);
    told.insert(Vec::from_slice(alloc, first)?)?;
    let mut names = Vec::new(alloc);
    let mut left = faults;
    while let [fault, rest @ ..] = left {
        let name = name_of(alloc, net, report_of(fault).subject)?;
        let (_, is_new) = told.insert_full(Vec::from_slice(alloc, &name)?)?;
        push_if(is_new, name, &mut names)?;
        left = rest;
    }
    Ok(names)
}

/// Appends a name, if so.
fn push_if(so: bool, name: Vec<u8>, names: &mut Vec<Vec<u8>>) -> Result<(), NoMemory>
    ensures { OnOk result (map (λ t. t.items) names.new.items
        ≡ map (λ t. t.items) names.old.items ++ (if so then name.items ∷ [] else [])) }
{
    if so {
        names.push(name)?;
    }
    Ok(())
}

/// Appends the names of those of these faults that are told of the first one's processes.
fn push_names(
    alloc: Global,
    net: &Net,
    first: &CheckFault,
    faults: &[&CheckFault],
    names: &mut Vec<Vec<u8>>,
) -> Result<(), NoMemory>
    ensures { OnOk result (map (λ t. t.items) names.new.items
        ≡ map (λ t. t.items) names.old.items
        ++ flat_map (spec.own_name net.now (fault_view first.now)) (map (λ f. fault_view f.now) faults.now)) }
{
    for fault in faults {
        push_own(alloc, net, first, fault, names)?;
    }
    Ok(())
}

/// Appends the name of a fault that is told of the first one's processes.
fn push_own(
    alloc: Global,
    net: &Net,
    first: &CheckFault,
    fault: &CheckFault,
    names: &mut Vec<Vec<u8>>,
) -> Result<(), NoMemory>
    ensures { OnOk result (map (λ t. t.items) names.new.items
        ≡ map (λ t. t.items) names.old.items ++ spec.own_name net.now (fault_view first.now) (fault_view fault.now)) }
{
    if !is_of(first, fault) {
        return Ok(());
    }
    names.push(name_of(alloc, net, report_of(fault).subject)?)?;
    Ok(())
}

/// Appends the ranges of a name and those behind it.
fn push_ranges(
    alloc: Global,
    name: &[u8],
    names: &[Vec<u8>],
    texts: &mut Vec<Vec<u8>>,
) -> Result<(), NoMemory>
    ensures { OnOk result (map (λ t. t.items) texts.new.items
        ≡ map (λ t. t.items) texts.old.items ++ spec.ranges_from name.now name.now (map (λ t. t.items) names.now)) }
{
    let mut first = name;
    let mut last = name;
    let mut left = names;
    while let [text, rest @ ..] = left {
        let next: &[u8] = text;
        push_ended(alloc, first, last, next, texts)?;
        first = begun_by(first, last, next);
        last = next;
        left = rest;
    }
    texts.push(range(alloc, first, last)?)?;
    Ok(())
}

/// Appends the range that ends before a name.
fn push_ended(
    alloc: Global,
    first: &[u8],
    last: &[u8],
    name: &[u8],
    texts: &mut Vec<Vec<u8>>,
) -> Result<(), NoMemory>
    ensures { OnOk result (map (λ t. t.items) texts.new.items
        ≡ map (λ t. t.items) texts.old.items ++ spec.ended first.now last.now name.now) }
{
    if is_beside(last, name) {
        return Ok(());
    }
    texts.push(range(alloc, first, last)?)?;
    Ok(())
}

/// With which name the range begins in which a name is.
fn begun_by<'a>(first: &'a [u8], last: &[u8], name: &'a [u8]) -> &'a [u8]
    ensures { result.now ≡ spec.begun_by first.now last.now name.now }
{
    if is_beside(last, name) { first } else { name }
}

/// Whether a name is the one before, or that of the element beside it.
fn is_beside(before: &[u8], name: &[u8]) -> bool
    ensures { result ≡ spec.is_beside before.now name.now }
{
    before == name || follows(before, name)
}

/// The range from a name to another.
pub(crate) fn range(alloc: Global, first: &[u8], last: &[u8]) -> Result<Vec<u8>, NoMemory>
    ensures { IfOk result (λ text. text.items ≡ range_text first.now last.now) }
{
    let mut text = Vec::new(alloc);
    push_range(first, last, &mut text)?;
    Ok(text)
}

/// The processes that a fault is told of, and idle ports by that word; of a circle the nets too, or
/// these alone.
pub fn culprits(alloc: Global, net: &Net, fault: &CheckFault) -> Result<Vec<u8>, NoMemory>
    ensures { IfOk result (λ text. text.items ≡ spec.culprits net.now (fault_view fault.now)) }
{
    match report_of(fault).subject {
        Subject::Sources { first, second, .. } => both_sources(alloc, net, first, second),
        Subject::ProcessNet { process, .. }
        | Subject::Process { process }
        | Subject::Element { process, .. } => process_name(alloc, net, process),
        Subject::Circle => circle_text(alloc, net, circle_of(fault)),
        _ => Ok(Vec::new(alloc)),
    }
}

/// Two sources of a net.
fn both_sources(
    alloc: Global,
    net: &Net,
    first: Option<usize>,
    second: Option<usize>,
) -> Result<Vec<u8>, NoMemory>
    ensures { IfOk result (λ text. text.items
        ≡ source_name net.now first ++ codes " and " ++ source_name net.now second) }
{
    let mut text = source_name(alloc, net, first)?;
    text.extend_from_slice(b" and ")?;
    text.extend_from_slice(&source_name(alloc, net, second)?)?;
    Ok(text)
}
