//! The variables of a process, and what their elements start with (IEEE 1076-2008, 6.4.2.4).

ghost use Rattle.std.specs.Prelude.{◌≡◌, ℕ, [], ◌∷◌, map, option_map, replicate, IfOk, None, Ok};
ghost use Rattle.vhdl_values.specs.Scalar.{code_of};
ghost use Rattle.rtl_model.specs.bodies.Fits.{IsWidth};
ghost use Rattle.vhdl_expand_rules.specs.Declarations as definition;
ghost use Rattle.vhdl_expand_rules.specs.Kinds as kinds;
ghost use Rattle.vhdl_expand_rules.specs.Site as sites;
ghost use Rattle.vhdl_expand_rules.specs.views.Integers.{Makes, integers_view, range_view};
ghost use Rattle.vhdl_expand_rules.specs.views.Kinds.{kind_view};
ghost use Rattle.vhdl_expand_operands.specs.Results.{Expands};
ghost use Rattle.vhdl_expand_bodies.specs.Sites.{IsSite, site_view};
ghost use Rattle.vhdl_names_rules.specs.units.Units as units;
ghost use Rattle.vhdl_names_trees.specs.views.Integers.{subtype_view};
ghost use Rattle.vhdl_names_units.specs.views.Answers.{fixed_view, form_view};
ghost use Rattle.vhdl_expand_processes.specs.Starting.{codes_given};

use crate::fixed_values::fixed;
use smallvec::SmallVec;
use std::alloc::{AllocError, Global};
use vhdl_expand_bodies::Site;
use vhdl_expand_operands::Width;
use vhdl_expand_rules::{
    ElabFault, ElabProblem, IntegerRange, Integers, Numbers, ObjectKind, is_null,
};
use vhdl_names_trees::IntegerSubtype;
use vhdl_names_units::{Fixed, Form};
use vhdl_numbers::digits_of;
use vhdl_values::{Nine, Vec9};

/// An integer of a subtype, whose range has a number; a fault is StaticError or GenericRange.
#[tactic(auto, unfolding(vhdl_expand_rules::specs::Kinds::kind_of), using(vhdl_expand_rules::proofs::Digits::range_width))]
fn number(integers: &Integers, subtype: &IntegerSubtype, at: usize) -> Result<ObjectKind, ElabFault>
    ensures given { Makes kind_view
        (kinds.kind_of (integers_view integers.now) at (units.Form.number (subtype_view subtype.now))) result }
    ensures width { IfOk result (λ kind. IsWidth (kinds.size (kind_view kind))) }
{
    let numbers = integers.numbers_of(subtype, at)?;
    let range = numbers.whole_range();
    if is_null(range.direction, range.left, range.right) {
        return Err(ElabProblem::GenericRange.at(at));
    }
    Ok(ObjectKind::Integer(range))
}

/// What a form is where these integers are known; a fault is StaticError, GenericRange, Index or
/// TooWide.
#[tactic(auto, unfolding(vhdl_expand_rules::specs::Kinds::kind_of))]
pub fn kind(integers: &Integers, form: &Form, at: usize) -> Result<ObjectKind, ElabFault>
    ensures given { Makes kind_view (kinds.kind_of (integers_view integers.now) at (form_view form.now)) result }
    ensures width { IfOk result (λ kind. IsWidth (kinds.size (kind_view kind))) }
{
    match form {
        Form::Element => Ok(ObjectKind::One),
        Form::Vector(range) => {
            let bounds = integers.declared_bounds(range, at)?;
            Ok(ObjectKind::Vector(bounds))
        }
        Form::Enumeration(count) => Ok(ObjectKind::Enumeration(*count)),
        Form::Number(subtype) => number(integers, subtype, at),
        Form::Boolean => Ok(ObjectKind::Boolean),
    }
}

/// So many elements of one code. It takes the memory of the list.
#[tactic(auto, using(crate::proofs::Codes::one_more))]
fn filled(alloc: Global, len: usize, code: u8) -> Result<SmallVec<u8, 8>, AllocError>
    ensures { IfOk result (λ v. v.items ≡ replicate len code) }
{
    let mut codes = SmallVec::new(alloc);
    for _place in 0..len {
        codes.push(code)?;
    }
    Ok(codes)
}

/// The codes of a vector's values. It takes the memory of the list.
fn vector_codes(alloc: Global, values: Vec9) -> Result<SmallVec<u8, 8>, AllocError>
    ensures { IfOk result (λ v. v.items ≡ map code_of values) }
{
    let mut codes = SmallVec::new(alloc);
    for place in 0..values.len() {
        let value = values.get(place);
        codes.push(value.code())?;
    }
    Ok(codes)
}

/// What an integer of a range starts with that starts with this number. It takes the memory of the
/// list.
fn number_start(alloc: Global, range: IntegerRange, n: i32) -> Result<SmallVec<u8, 8>, AllocError>
    ensures { IfOk result (λ v. v.items ≡ definition.number_starts (range_view range) n) }
{
    vector_codes(alloc, digits_of(n, range.size()))
}

/// What elements of this kind start with without a default. It takes the memory of the list.
#[tactic(auto, unfolding(vhdl_expand_rules::specs::Declarations::starts))]
fn undefaulted(alloc: Global, kind: ObjectKind) -> Result<SmallVec<u8, 8>, AllocError>
    ensures { IfOk result (λ v. (here : sites.Site) (at : ℕ)
        → definition.starts here at (kind_view kind) None ≡ Ok v.items) }
{
    match kind {
        ObjectKind::One | ObjectKind::Vector(_) | ObjectKind::Enumeration(_) => {
            filled(alloc, kind.size(), 0)
        }
        ObjectKind::Integer(range) => number_start(alloc, range, range.left),
        ObjectKind::Boolean => filled(alloc, 1, Nine::Zero.code()),
    }
}

/// The codes of a constant's or default's values, of so many elements; a fault is StaticError,
/// Length, Index or TooWide.
fn fixed_codes(
    alloc: Global,
    site: &Site,
    width: Width,
    value: &Fixed,
    at: usize,
) -> Result<SmallVec<u8, 8>, ElabFault>
    requires { IsSite site.now }
    ensures { Expands (λ v. v.items) (codes_given (site_view site.now) at width.len (fixed_view value.now)) result }
{
    let values = fixed(alloc, site, width, value, at)?;
    Ok(vector_codes(alloc, values)?)
}

/// What an enumeration that starts with its literal of this position starts with. It takes the
/// memory of the list.
fn literal_start(alloc: Global, position: u8) -> Result<SmallVec<u8, 8>, ElabFault>
    ensures { Expands (λ v. v.items) (Ok (position ∷ [])) result }
{
    Ok(filled(alloc, 1, position)?)
}

/// What an enumeration with this default starts with; a fault is StaticError, Length, Index or
/// TooWide.
fn enumerated(
    alloc: Global,
    site: &Site,
    count: u16,
    value: &Fixed,
    at: usize,
) -> Result<SmallVec<u8, 8>, ElabFault>
    requires { IsSite site.now }
    ensures { Expands (λ v. v.items)
        (definition.given_starts (site_view site.now) at (kinds.enumeration count) (fixed_view value.now)) result }
{
    match value {
        Fixed::Position(position) => literal_start(alloc, *position),
        Fixed::Given(given) => {
            let selected = site.given(alloc, Width { len: 1 }, given, at)?;
            match selected.position() {
                Some(position) => literal_start(alloc, position),
                None => Err(ElabProblem::Index.at(at)),
            }
        }
        _ => fixed_codes(alloc, site, Width { len: 1 }, value, at),
    }
}

/// What an integer of a range with this default starts with; a fault is StaticError, GenericRange,
/// Length, Index or TooWide.
fn counted(
    alloc: Global,
    site: &Site,
    range: IntegerRange,
    value: &Fixed,
    at: usize,
) -> Result<SmallVec<u8, 8>, ElabFault>
    requires { IsSite site.now }
    ensures { Expands (λ v. v.items)
        (definition.given_starts (site_view site.now) at (kinds.integer (range_view range)) (fixed_view value.now))
        result }
{
    match value {
        Fixed::Integer(number) => {
            let n = site
                .integers
                .integer_among(Numbers::Range(range), number, at)?;
            Ok(number_start(alloc, range, n)?)
        }
        _ => fixed_codes(alloc, site, Width { len: range.size() }, value, at),
    }
}

/// What a boolean with this default starts with; a fault is StaticError, Length, Index or TooWide.
fn decided(
    alloc: Global,
    site: &Site,
    value: &Fixed,
    at: usize,
) -> Result<SmallVec<u8, 8>, ElabFault>
    requires { IsSite site.now }
    ensures { Expands (λ v. v.items)
        (definition.given_starts (site_view site.now) at kinds.boolean (fixed_view value.now)) result }
{
    match value {
        Fixed::Truth(test) => {
            let truth = site.integers.decision(test)?;
            Ok(filled(alloc, 1, Nine::of_truth(truth).code())?)
        }
        _ => fixed_codes(alloc, site, Width { len: 1 }, value, at),
    }
}

/// The codes of a default of this kind; a fault is StaticError, GenericRange, Length, Index or
/// TooWide.
fn given(
    alloc: Global,
    site: &Site,
    kind: ObjectKind,
    value: &Fixed,
    at: usize,
) -> Result<SmallVec<u8, 8>, ElabFault>
    requires site { IsSite site.now }
    requires width { IsWidth (kinds.size (kind_view kind)) }
    ensures { Expands (λ v. v.items)
        (definition.given_starts (site_view site.now) at (kind_view kind) (fixed_view value.now)) result }
{
    match kind {
        ObjectKind::One | ObjectKind::Vector(_) => {
            fixed_codes(alloc, site, Width { len: kind.size() }, value, at)
        }
        ObjectKind::Enumeration(count) => enumerated(alloc, site, count, value, at),
        ObjectKind::Integer(range) => counted(alloc, site, range, value, at),
        ObjectKind::Boolean => decided(alloc, site, value, at),
    }
}

/// What the elements of a variable, port or signal of this kind start with: U, an enumeration's
/// first literal, an integer's left bound, or false without a default; a fault is StaticError,
/// GenericRange, Length, Index or TooWide.
#[tactic(auto, unfolding(vhdl_expand_rules::specs::Declarations::starts))]
pub fn starts(
    alloc: Global,
    site: &Site,
    kind: ObjectKind,
    default: &Option<Fixed>,
    at: usize,
) -> Result<SmallVec<u8, 8>, ElabFault>
    requires site { IsSite site.now }
    requires width { IsWidth (kinds.size (kind_view kind)) }
    ensures { Expands (λ v. v.items)
        (definition.starts (site_view site.now) at (kind_view kind) (option_map fixed_view default.now)) result }
{
    match default {
        None => Ok(undefaulted(alloc, kind)?),
        Some(value) => given(alloc, site, kind, value, at),
    }
}
