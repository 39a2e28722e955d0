//! The values of constants and defaults (IEEE 1076-2008, 6.4.2.2, 9.4).

ghost use Rattle.std.specs.Prelude.{◌≡◌, length, IfOk};
ghost use Rattle.rtl_net.specs.Bodies.{value_view};
ghost use Rattle.vhdl_expand_rules.specs.declared.fault.ElabFault.TheVariants.{At};
ghost use Rattle.vhdl_expand_rules.specs.declared.fault.ElabProblem.TheVariants.{Length};
ghost use Rattle.vhdl_expand_rules.specs.Declarations as definition;
ghost use Rattle.vhdl_expand_rules.specs.views.Integers.{Computes};
ghost use Rattle.vhdl_expand_operands.specs.Results.{Expands};
ghost use Rattle.vhdl_expand_bodies.specs.Sites.{IsSite, site_view};
ghost use Rattle.vhdl_names_trees.specs.views.Integers.{static_view};
ghost use Rattle.vhdl_names_units.specs.views.Answers.{fixed_view};
ghost use Rattle.vhdl_expand_processes.specs.Starting.{encoded_as};

use std::alloc::Global;
use vhdl_expand_bodies::Site;
use vhdl_expand_operands::{Selected, Width};
use vhdl_expand_rules::{ElabFault, ElabProblem};
use vhdl_names_trees::Static;
use vhdl_names_units::Fixed;
use vhdl_values::{Nine, Vec9};

/// The fault where one value stands for so many elements.
fn one_for(needed: usize, at: usize) -> ElabFault
    ensures { result ≡ At (Length 1 needed) at }
{
    ElabProblem::Length { found: 1, needed }.at(at)
}

/// As many values; a fault is Length.
fn literal(width: Width, values: &[Nine], at: usize) -> Result<Vec9, ElabFault>
    ensures given { Computes (definition.as_long_as at width.len values.now) result }
    ensures long { IfOk result (λ values. length values ≡ width.len) }
{
    let found = values.len();
    let needed = width.len;
    if found != needed {
        return Err(ElabProblem::Length { found, needed }.at(at));
    }
    Ok(Vec9::of(values))
}

/// A vector that is as long; a fault is Length.
pub fn as_long(width: Width, values: Vec9, at: usize) -> Result<Vec9, ElabFault>
    ensures given { Computes (definition.as_long_as at width.len values) result }
    ensures long { IfOk result (λ values. length values ≡ width.len) }
{
    let found = values.len();
    let needed = width.len;
    if found != needed {
        return Err(ElabProblem::Length { found, needed }.at(at));
    }
    Ok(values)
}

/// The values of `to_unsigned`, which have to be as many; a fault is StaticError, Length, Index or
/// TooWide.
#[tactic(auto, using(vhdl_expand_bodies::proofs::Places::size_fits))]
fn encoded(
    site: &Site,
    width: Width,
    number: &Static,
    size: &Static,
    at: usize,
) -> Result<Vec9, ElabFault>
    ensures given { Computes
        (encoded_as (site_view site.now) at width.len (static_view number.now) (static_view size.now)) result }
    ensures long { IfOk result (λ values. length values ≡ width.len) }
{
    let number = site.integers.natural(number, at)?;
    let size = site.integers.size_of(size, at)?;
    as_long(width, Vec9::of_nat(u64::from(number), size as usize), at)
}

/// The elements of a value of so many, where nothing is seen; a fault is Length.
fn elements_of(selected: &Selected, width: Width, at: usize) -> Result<Vec9, ElabFault>
    ensures given { Computes (definition.elements_of_value at width.len (value_view selected.now.value)) result }
    ensures long { IfOk result (λ values. length values ≡ width.len) }
{
    match selected.elements() {
        Some(values) => as_long(width, values, at),
        None => Err(one_for(width.len, at)),
    }
}

/// The values of a constant or default of so many elements; a fault is StaticError, Length, Index
/// or TooWide.
#[tactic(auto, unfolding(vhdl_expand_rules::specs::Declarations::fixed_values))]
pub fn fixed(
    alloc: Global,
    site: &Site,
    width: Width,
    value: &Fixed,
    at: usize,
) -> Result<Vec9, ElabFault>
    requires { IsSite site.now }
    ensures given { Expands (λ values. values)
        (definition.fixed_values (site_view site.now) at width.len (fixed_view value.now)) result }
    ensures long { IfOk result (λ values. length values ≡ width.len) }
{
    match value {
        Fixed::Literal(values) => literal(width, values, at),
        Fixed::Constant(number) => {
            let Some(constant) = site.constant(*number) else {
                return Err(ElabProblem::Index.at(at));
            };
            as_long(width, constant.values, at)
        }
        Fixed::Encoded(number, size) => encoded(site, width, number, size, at),
        Fixed::Filled(value) => Ok(Vec9::fill(*value, width.len)),
        Fixed::Given(given) => {
            let selected = site.given(alloc, width, given, at)?;
            elements_of(&selected, width, at)
        }
        Fixed::Position(_) | Fixed::Aggregate(_, _) | Fixed::Integer(_) | Fixed::Truth(_) => {
            Err(one_for(width.len, at))
        }
    }
}
