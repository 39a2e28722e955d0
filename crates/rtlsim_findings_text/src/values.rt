//! Strings, numbers and arrays of JSON.

ghost use Rattle.std.specs.Prelude.{◌≡◌, ◌++◌, ◌<◌, if◌then◌else◌, flat_map, map, OnOk};
ghost use Rattle.rtlsim_findings_text.specs.Json.{itself, process_text};
ghost use Rattle.rtlsim_findings_text.specs.Values as spec;

use crate::places::Site;
use rtl_net::NoMemory;
use rtlsim_listing::process_name;

/// Appends a string of these bytes.
#[tactic(auto, unfolding(crate::specs::Values::string_text))]
pub(crate) fn push_string(bytes: &[u8], text: &mut Vec<u8>) -> Result<(), NoMemory>
    ensures { OnOk result (text.new.items ≡ text.old.items ++ spec.string_text bytes.now) }
{
    text.extend_from_slice(b"\"")?;
    push_bytes(bytes, text)?;
    text.extend_from_slice(b"\"")?;
    Ok(())
}

/// Appends bytes as they stand in a string.
fn push_bytes(bytes: &[u8], text: &mut Vec<u8>) -> Result<(), NoMemory>
    ensures { OnOk result (text.new.items ≡ text.old.items ++ flat_map spec.byte_text bytes.now) }
{
    for byte in bytes {
        push_byte(*byte, text)?;
    }
    Ok(())
}

/// Appends a byte as it stands in a string.
fn push_byte(byte: u8, text: &mut Vec<u8>) -> Result<(), NoMemory>
    ensures { OnOk result (text.new.items ≡ text.old.items ++ spec.byte_text byte) }
{
    if byte == b'"' {
        text.extend_from_slice(b"\\\"")?;
    } else if byte == b'\\' {
        text.extend_from_slice(b"\\\\")?;
    } else if byte < 32 {
        push_control(byte, text)?;
    } else {
        text.push(byte)?;
    }
    Ok(())
}

/// Appends a control byte by its number.
fn push_control(byte: u8, text: &mut Vec<u8>) -> Result<(), NoMemory>
    requires control { byte < 32 }
    ensures { OnOk result (text.new.items ≡ text.old.items ++ spec.control_text byte) }
{
    if byte < 16 {
        text.extend_from_slice(b"\\u000")?;
        text.push(hex_digit(byte))?;
    } else {
        text.extend_from_slice(b"\\u001")?;
        text.push(hex_digit(byte - 16))?;
    }
    Ok(())
}

/// The digit of a number.
fn hex_digit(n: u8) -> u8
    requires digit { n < 16 }
    ensures { result ≡ spec.hex_digit n }
{
    if n < 10 { 48 + n } else { 87 + n }
}

/// Appends an array: of strings of these bytes, or of values of which these are the texts.
#[tactic(auto, unfolding(crate::specs::Values::array_text))]
pub(crate) fn push_array(
    items: &[Vec<u8>],
    are_strings: bool,
    text: &mut Vec<u8>,
) -> Result<(), NoMemory>
    ensures { OnOk result (text.new.items ≡ text.old.items
        ++ spec.array_text (if are_strings then spec.string_text else itself) (map (λ t. t.items) items.now)) }
{
    match items {
        [first, others @ ..] => {
            text.extend_from_slice(b"[")?;
            push_item(first, are_strings, text)?;
            push_next(others, are_strings, text)?;
            Ok(text.extend_from_slice(b"]")?)
        }
        [] => Ok(text.extend_from_slice(b"[]")?),
    }
}

/// Appends one of these.
fn push_item(item: &[u8], is_string: bool, text: &mut Vec<u8>) -> Result<(), NoMemory>
    ensures { OnOk result (text.new.items
        ≡ text.old.items ++ (if is_string then spec.string_text else itself) item.now) }
{
    if is_string {
        push_string(item, text)
    } else {
        Ok(text.extend_from_slice(item)?)
    }
}

/// Appends those behind the first, each behind a comma.
fn push_next(items: &[Vec<u8>], are_strings: bool, text: &mut Vec<u8>) -> Result<(), NoMemory>
    ensures { OnOk result (text.new.items ≡ text.old.items
        ++ flat_map (spec.next_text (if are_strings then spec.string_text else itself))
        (map (λ t. t.items) items.now)) }
{
    for item in items {
        text.extend_from_slice(b",")?;
        push_item(item, are_strings, text)?;
    }
    Ok(())
}

/// Appends the name of a process; an idle port has none.
pub(crate) fn push_process(
    site: &Site<'_>,
    process: Option<usize>,
    text: &mut Vec<u8>,
) -> Result<(), NoMemory>
    ensures { OnOk result (text.new.items ≡ text.old.items ++ process_text site.now.net.now process) }
{
    match process {
        Some(process) => {
            let name = process_name(site.alloc, site.net, process)?;
            push_string(&name, text)
        }
        None => Ok(text.extend_from_slice(b"null")?),
    }
}

/// Appends an array of the names of processes.
#[tactic(auto, unfolding(crate::specs::Values::array_text))]
pub(crate) fn push_processes(
    site: &Site<'_>,
    items: &[Option<usize>],
    text: &mut Vec<u8>,
) -> Result<(), NoMemory>
    ensures { OnOk result (text.new.items
        ≡ text.old.items ++ spec.array_text (process_text site.now.net.now) items.now) }
{
    match items {
        [first, others @ ..] => {
            text.extend_from_slice(b"[")?;
            push_process(site, *first, text)?;
            push_next_processes(site, others, text)?;
            Ok(text.extend_from_slice(b"]")?)
        }
        [] => Ok(text.extend_from_slice(b"[]")?),
    }
}

/// Appends the names of processes, each behind a comma.
fn push_next_processes(
    site: &Site<'_>,
    items: &[Option<usize>],
    text: &mut Vec<u8>,
) -> Result<(), NoMemory>
    ensures { OnOk result (text.new.items
        ≡ text.old.items ++ flat_map (spec.next_text (process_text site.now.net.now)) items.now) }
{
    for item in items {
        text.extend_from_slice(b",")?;
        push_process(site, *item, text)?;
    }
    Ok(())
}
