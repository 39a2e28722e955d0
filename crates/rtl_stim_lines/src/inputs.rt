//! The inputs that a stimulus speaks of.

ghost use Rattle.std.specs.Prelude.{◌≡◌, ◌≢◌, ◌<◌, ◌++◌, ◌∷◌, [], All, IfOk, OnOk, IfSome, length, option_map};
ghost use Rattle.rtl_stim_lines.specs.Inputs as named;
ghost use Rattle.rtl_stim_lines.specs.Inputs.{small, input_at};
ghost use Rattle.rtl_stim_lines.specs.View.{inputs_view, named_input, IsElementsOf};

use indexmap::IndexMap;
use std::alloc::{AllocError, Global};
use vhdl_values::Nine;

/// An element of an in port: its net's number, and the value of its default.
#[derive(Clone, Copy)]
pub struct Element {
    pub net: usize,
    pub start: Nine,
}

/// What the values of an in port are.
#[derive(Clone, Copy)]
pub enum ValueType {
    /// Of the nine, one for each element.
    Nines,
    /// Whole numbers within these bounds, in two's complement.
    Integers { least: i32, greatest: i32 },
    /// `true` and `false`, in one element.
    Truths,
}

/// An in port: whether it is a scalar of the nine values, what its values are, and its elements
/// from the left.
#[derive(Drop)]
pub struct Input {
    pub is_scalar: bool,
    pub values: ValueType,
    pub elements: Vec<Element>,
}

/// The top's in ports by their names in small letters, in order of declaration.
pub type InputTable = IndexMap<Vec<u8>, Input>;

/// Puts an input behind the others under its name, which may have capitals, and which no other has.
pub fn add_input(
    alloc: Global,
    inputs: &mut InputTable,
    name: &[u8],
    input: Input,
) -> Result<(), AllocError>
    requires { All (λ other. other.name ≢ small name.now) (inputs_view inputs.old) }
    ensures { OnOk result (inputs_view inputs.new ≡ inputs_view inputs.old ++ named_input (small name.now) input ∷ []) }
{
    let name = name.to_ascii_lowercase(alloc)?;
    inputs.insert(name, input)?;
    Ok(())
}

/// The input of a name, which may have capitals, and its place.
pub fn input_named<'i>(
    alloc: Global,
    inputs: &'i InputTable,
    name: &[u8],
) -> Result<Option<(usize, &'i Input)>, AllocError>
    ensures place { IfOk result (λ found. option_map (λ p. p.0) found ≡
        named.input_named (inputs_view inputs.now) name.now) }
    ensures within { IfOk result (λ found. IfSome found (λ p. p.0 < length (inputs_view inputs.now))) }
    ensures input { IfOk result (λ found.
        IfSome found (λ p. IsElementsOf p.1.now (input_at (inputs_view inputs.now) p.0))) }
{
    let name = name.to_ascii_lowercase(alloc)?;
    match inputs.get_full(name.as_slice()) {
        None => Ok(None),
        Some((place, _, input)) => Ok(Some((place, input))),
    }
}
