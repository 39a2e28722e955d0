//! Names that are ready to print: those whose nets stand one behind the other, with the end of
//! their lines.

ghost use Rattle.std.specs.Prelude.{◌≡◌, ℕ, ◌+◌, ◌<◌, ◌≤◌, ◌++◌, [], not, if◌then◌else◌, length, map, take, codes, true, slice_index, IfOk, IfSome, Some};
ghost use Rattle.std.specs.Str.{bytes_eq};
ghost use Rattle.std.specs.List.{range_with_len};
ghost use Rattle.rtl_net.specs.Nets.{SignalView, signal_view};
ghost use Rattle.arrayvec.specs.ArrayVec.{array_vec_len};
ghost use Rattle.rtl_vcd_values.specs.Values.{code};
ghost use Rattle.rtl_vcd.specs.declared.ready.Form.TheVariants as f;
ghost use Rattle.rtl_vcd.specs.Ready as spec;
ghost use Rattle.rtl_vcd.specs.Ready.{LiesAmong, IsReady, AreReady};

use crate::ending::End;
use crate::page::{PAGE, Page};
use crate::positions::push_digits;
use arrayvec::ArrayVec;
use rtl_net::{Shown, Signal, SignalKind};
use rtl_vcd_values::{
    are_same, are_same_lanes, binary_digits, character, is_other_character, is_other_position,
    push_code,
};
use std::alloc::{AllocError, Global};

/// Room for the end of a line: a space, a code of ten characters, and the line's end.
type Ending = ArrayVec<u8, 12>;

/// How a name that is ready prints its elements.
#[derive(Clone, Copy)]
pub(crate) enum Form {
    /// One element, by its character.
    Single,
    /// The elements of a vector, by their characters.
    Several,
    /// The position of an enumeration's value, in so many binary digits.
    Position { digits: u8 },
}

/// A name whose nets stand one behind the other, so many from the first on, how it prints them, and
/// the end of its line. It has no nets where it isn't ready.
#[derive(Clone, Copy)]
pub(crate) struct Run {
    pub(crate) first: u32,
    pub(crate) count: u8,
    pub(crate) form: Form,
    pub(crate) end: End,
}

impl Run {
    /// The run of these nets, of the name with this number.
    fn of(number: usize, nets: &[usize], form: Form) -> Run
        requires number { number < 4294967296 }
        requires some { 0 < length nets.now }
        requires first { slice_index nets.now 0 < 4294967296 }
        requires count { length nets.now < 256 }
        ensures first { result.first ≡ slice_index nets.now 0 }
        ensures count { result.count ≡ length nets.now }
        ensures form { result.form ≡ form }
        ensures end { take result.end.len result.end.bytes ≡ spec.behind form ++ code number ++ codes "\n" }
    {
        Run {
            first: nets[0] as u32,
            count: nets.len() as u8,
            form,
            end: end_of(number, form),
        }
    }

    /// Appends the line that the name prints where the nets have the values `new`, if it is another
    /// than where they have `old`. Answers whether it is.
    pub(crate) fn push_other(&self, page: &mut Page, old: &[u8], new: &[u8]) -> bool
        requires before { LiesAmong (length old.now) self.now }
        requires after { LiesAmong (length new.now) self.now }
        requires short { length (spec.elements self.now new.now) ≤ 64 }
        requires room { length page.old + 77 ≤ PAGE }
        ensures line { page.new ≡ page.old ++ (if result then (spec.line self.now new.now) else []) }
        ensures other { result ≡ not (bytes_eq (spec.elements self.now old.now) (spec.elements self.now new.now)) }
    {
        if self.count == 1 {
            if let Form::Single = self.form {
                return self.push_single(page, old, new);
            }
        }
        match self.form {
            Form::Single => self.push_single(page, old, new),
            Form::Several => {
                let first = self.first as usize;
                let beyond = first + self.count as usize;
                page.push_vector(&old[first..beyond], &new[first..beyond], &self.end)
            }
            Form::Position { digits } => self.push_position(digits, page, old, new),
        }
    }

    /// Whether it has nets, and each has the same value in both.
    pub(crate) fn keeps(&self, old: &[u8], new: &[u8]) -> bool
        requires before { 0 < self.now.count → LiesAmong (length old.now) self.now }
        requires after { 0 < self.now.count → LiesAmong (length new.now) self.now }
        ensures some { result ≡ true → 0 < self.now.count }
        ensures alike { result ≡ true → spec.elements self.now old.now ≡ spec.elements self.now new.now }
    {
        let first = self.first as usize;
        if self.count == 1 {
            return old[first] == new[first];
        }
        if self.count == 8 {
            return are_same_lanes::<8>(&old[first..], &new[first..]);
        }
        if self.count == 0 {
            return false;
        }
        let beyond = first + self.count as usize;
        if self.count > 8 && !are_same_lanes::<8>(&old[beyond - 8..], &new[beyond - 8..]) {
            return false;
        }
        are_same(&old[first..beyond], &new[first..beyond])
    }

    /// Appends the line of one element in the same way.
    #[inline(always)]
    fn push_single(&self, page: &mut Page, old: &[u8], new: &[u8]) -> bool
        requires form { self.now.form ≡ f.Single }
        requires before { LiesAmong (length old.now) self.now }
        requires after { LiesAmong (length new.now) self.now }
        requires room { length page.old + 77 ≤ PAGE }
        ensures line { page.new ≡ page.old ++ (if result then (spec.line self.now new.now) else []) }
        ensures other { result ≡ not (bytes_eq (spec.elements self.now old.now) (spec.elements self.now new.now)) }
    {
        let before = old[self.first as usize];
        let now = new[self.first as usize];
        if !is_other_character(before, now) {
            return false;
        }
        page.push_character(character(now), &self.end);
        true
    }

    /// Appends the line of a position, in so many binary digits, in the same way.
    fn push_position(&self, digits: u8, page: &mut Page, old: &[u8], new: &[u8]) -> bool
        requires form { self.now.form ≡ f.Position digits }
        requires before { LiesAmong (length old.now) self.now }
        requires after { LiesAmong (length new.now) self.now }
        requires short { digits ≤ 64 }
        requires room { length page.old + 77 ≤ PAGE }
        ensures line { page.new ≡ page.old ++ (if result then (spec.line self.now new.now) else []) }
        ensures other { result ≡ not (bytes_eq (spec.elements self.now old.now) (spec.elements self.now new.now)) }
    {
        let now = new[self.first as usize];
        if !is_other_position(digits, old[self.first as usize], now) {
            return false;
        }
        page.push(b'b');
        push_digits(page, digits as u32, now as u64);
        page.push_end(&self.end);
        true
    }
}

/// The names that are shown, as far as they are runs.
pub(crate) fn runs_of(alloc: Global, shown: Shown<'_>) -> Result<Vec<Run>, AllocError>
    ensures { IfOk result (λ rs. AreReady 0 (map signal_view shown.entry.signals.now) rs.items) }
{
    let signals = shown.signals;
    let mut runs = Vec::new(alloc);
    for (number, signal) in signals.iter().enumerate() {
        runs.push(run_of(number, signal))?;
    }
    Ok(runs)
}

/// The name with this number as a run, if it is one.
fn run_of(number: usize, signal: &Signal) -> Run
    requires some { 0 < length signal.now.nets.items }
    requires most { length signal.now.nets.items ≤ 64 }
    ensures { IsReady number (signal_view signal.now) result }
{
    if is_short(number, &signal.nets) && are_neighbours(&signal.nets) {
        if let Some(form) = form_of(signal.kind, signal.nets.len()) {
            return Run::of(number, &signal.nets, form);
        }
    }
    Run {
        first: 0,
        count: 0,
        form: Form::Single,
        end: End::of(b""),
    }
}

/// How a name of this kind that has so many nets prints its elements; an integer prints them in no
/// such form.
fn form_of(kind: SignalKind, nets: usize) -> Option<Form>
    ensures form { IfSome result (λ form. spec.form_of kind ≡ Some form) }
    ensures one { IfSome result (λ form. form ≡ f.Single → nets ≡ 1) }
    ensures few { IfSome result (λ form. (digits : ℕ) → form ≡ f.Position digits → digits ≤ 64) }
{
    match kind {
        SignalKind::One | SignalKind::Boolean if nets == 1 => Some(Form::Single),
        SignalKind::One | SignalKind::Boolean | SignalKind::Integer { .. } => None,
        SignalKind::Vector { .. } => Some(Form::Several),
        SignalKind::Enumeration { count } => Some(Form::Position {
            digits: binary_digits(count.saturating_sub(1)) as u8,
        }),
    }
}

/// Whether the first of the nets, how many they are, and the code of the name with this number have
/// room in a run.
fn is_short(number: usize, nets: &[usize]) -> bool
    requires { 0 < length nets.now }
    ensures number { result ≡ true → number < 4294967296 }
    ensures first { result ≡ true → slice_index nets.now 0 < 4294967296 }
    ensures count { result ≡ true → length nets.now < 256 }
{
    number < 4_294_967_296 && nets[0] < 4_294_967_296 && nets.len() < 256
}

/// Whether the nets stand one behind the other.
fn are_neighbours(nets: &[usize]) -> bool
    requires { 0 < length nets.now }
    ensures { result ≡ true → nets.now ≡ range_with_len (slice_index nets.now 0) (length nets.now) }
{
    let first = nets[0];
    for place in 0..nets.len() {
        if !is_behind(first, nets[place], place) {
            return false;
        }
    }
    true
}

/// Whether the net is so many behind the first.
fn is_behind(first: usize, net: usize, many: usize) -> bool
    ensures { result ≡ true → net ≡ first + many }
{
    first <= net && net - first == many
}

/// The end of the line of the name with this number.
fn end_of(number: usize, form: Form) -> End
    requires { number < 4294967296 }
    ensures { take result.len result.bytes ≡ spec.behind form ++ code number ++ codes "\n" }
{
    let mut ending = Ending::new();
    push_behind(&mut ending, form);
    push_code(&mut ending, number);
    ending.push(b'\n');
    End::of(&ending)
}

/// Appends what stands behind the characters of the elements.
fn push_behind(ending: &mut Ending, form: Form)
    requires room { array_vec_len ending.old + 1 ≤ 12 }
    ensures text { ending.new.items ≡ ending.old.items ++ spec.behind form }
    ensures len { array_vec_len ending.new ≤ array_vec_len ending.old + 1 }
{
    match form {
        Form::Single => {}
        _ => ending.push(b' '),
    }
}
