//! The names of the nets of variables: `path.LABEL.NAME`.

ghost use Rattle.std.specs.Prelude.{◌≡◌, ◌++◌, IfOk, OnOk, decimal, option_map};
ghost use Rattle.rtl_net.specs.Names.{generates_prefix, label_or_number};
ghost use Rattle.rtl_keeping.specs.Kept.{kept_name};

use itoa::Buffer;
use rtl_net::{Process, Variable};
use std::alloc::{AllocError, Global};

/// The name of a variable's signal in the scope of its process, which has this number.
pub(crate) fn name_of(
    alloc: Global,
    process: &Process,
    number: usize,
    variable: &Variable,
) -> Result<Vec<u8>, AllocError>
    ensures { IfOk result (λ name. name.items ≡ kept_name process.now number variable.now) }
{
    let mut name = Vec::new(alloc);
    push_generates(&process.generates, &mut name)?;
    push_label(&process.label, number, &mut name)?;
    name.push(b'.')?;
    name.extend_from_slice(&variable.name)?;
    Ok(name)
}

/// Appends the labels of generates, and a dot, where there are any.
fn push_generates(generates: &[u8], name: &mut Vec<u8>) -> Result<(), AllocError>
    ensures { OnOk result (name.new.items ≡ name.old.items ++ generates_prefix generates.now) }
{
    if generates.is_empty() {
        return Ok(());
    }
    name.extend_from_slice(generates)?;
    name.push(b'.')?;
    Ok(())
}

/// Appends a process's label, or its number behind `#`.
fn push_label(label: &Option<Vec<u8>>, number: usize, name: &mut Vec<u8>) -> Result<(), AllocError>
    ensures { OnOk result (name.new.items ≡ name.old.items
        ++ label_or_number number (option_map (λ l. l.items) label.now)) }
{
    match label {
        Some(label) => name.extend_from_slice(label)?,
        None => {
            name.push(b'#')?;
            push_number(number, name)?;
        }
    }
    Ok(())
}

/// Appends a number in decimal digits.
fn push_number(number: usize, name: &mut Vec<u8>) -> Result<(), AllocError>
    ensures { OnOk result (name.new.items ≡ name.old.items ++ decimal number) }
{
    let mut buffer = Buffer::new();
    name.extend_from_slice(buffer.format(number).as_bytes())?;
    Ok(())
}
