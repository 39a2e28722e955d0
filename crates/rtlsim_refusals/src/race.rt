//! Which line of a stimulus makes an input change at a time, and which is the first of two that
//! can't both stand.

ghost use Rattle.std.specs.Prelude.{◌≡◌, IfOk, Option, map, option_map};
ghost use Rattle.rtl_net.specs.Nets.{signal_view};
ghost use Rattle.rtl_stim_lines.specs.Bounded.{IsFormOf};
ghost use Rattle.rtl_stim_lines.specs.Forms as forms;
ghost use Rattle.rtlsim_refusals.specs.Races as spec;

use rtl_net::{Net, Signal};
use rtl_stim_lines::{Form, Time, form_of, line_end, without_return, words_of};
use std::alloc::{AllocError, Global};
use vhdl_slips::is_same_word;

/// The number of the first line of a stimulus, from 1, that sets an input's port at a time in ns,
/// or makes it a clock. `None` where no line does, or where there is no text. It takes the memory
/// of a line's words.
pub(crate) fn race_line(
    alloc: Global,
    net: &Net,
    time: u64,
    input: usize,
    text: Option<&[u8]>,
) -> Result<Option<usize>, AllocError>
    ensures { IfOk result (λ line. line ≡ spec.race_line net.now time input (option_map (λ t. t.now) text.entry)) }
{
    match text {
        None => Ok(None),
        Some(text) => setting_line(alloc, name_with(input, net.signals()), Some(time), text),
    }
}

/// The name of the first signal that has a net, empty where none has it.
fn name_with(net: usize, mut signals: &[Signal]) -> &[u8]
    ensures { result.now ≡ spec.name_with net (map signal_view signals.entry.now) }
{
    while let [signal, others @ ..] = signals {
        if signal.nets.contains(&net) {
            return &signal.name;
        }
        signals = others;
    }
    &[]
}

/// The number of the first line of a text that sets a port at the time that is asked for, at any
/// where none is, or makes it a clock.
fn setting_line(
    alloc: Global,
    port: &[u8],
    asked: Option<u64>,
    text: &[u8],
) -> Result<Option<usize>, AllocError>
    ensures { IfOk result (λ line. line ≡ spec.setting_line port.now asked text.now) }
{
    let mut left = text;
    let mut number = 1;
    while let Some(end) = line_end(left) {
        if line_sets(alloc, port, asked, without_return(&left[..end]))? {
            return Ok(Some(number));
        }
        left = &left[end + 1..];
        number += 1;
    }
    if line_sets(alloc, port, asked, left)? {
        return Ok(Some(number));
    }
    Ok(None)
}

/// Whether a line does.
fn line_sets(
    alloc: Global,
    port: &[u8],
    asked: Option<u64>,
    line: &[u8],
) -> Result<bool, AllocError>
    ensures { IfOk result (λ sets. sets ≡ spec.line_sets port.now asked line.now) }
{
    let words = words_of(alloc, line)?;
    Ok(form_sets(port, asked, form_of(&words)))
}

/// Whether a line of this form does.
fn form_sets(port: &[u8], asked: Option<u64>, form: Option<Form<'_>>) -> bool
    ensures { (said : Option forms.Form) → IsFormOf said form.entry → result ≡ spec.form_sets port.now asked said }
{
    match form {
        Some(
            Form::At {
                time: Time::At(time),
                name,
                ..
            },
        ) => is_at(asked, time) && is_same_word(name, port),
        Some(Form::Clock { name, .. }) => is_same_word(name, port),
        _ => false,
    }
}

/// Whether this is the time that is asked for, or none is.
fn is_at(asked: Option<u64>, time: u64) -> bool
    ensures { result ≡ spec.is_at asked time }
{
    match asked {
        Some(asked) => time == asked,
        None => true,
    }
}

/// The number of the first line of a text that sets at its time what a line sets, or makes it a
/// clock. It takes the memory of a line's words.
pub(crate) fn first_setting(
    alloc: Global,
    line: &[u8],
    text: &[u8],
) -> Result<Option<usize>, AllocError>
    ensures { IfOk result (λ first. first ≡ spec.first_setting line.now text.now) }
{
    let words = words_of(alloc, line)?;
    match setting_of(form_of(&words)) {
        Some((name, asked)) => setting_line(alloc, name, asked, text),
        None => Ok(None),
    }
}

/// What a line of this form sets, and when; a clock at any time.
fn setting_of(form: Option<Form<'_>>) -> Option<(&[u8], Option<u64>)>
    ensures { (said : Option forms.Form) → IsFormOf said form.entry
        → option_map (λ setting. (setting.0.now, setting.1)) result ≡ spec.setting_of said }
{
    match form {
        Some(
            Form::At {
                time: Time::At(time),
                name,
                ..
            },
        ) => Some((name, Some(time))),
        Some(Form::Clock { name, .. }) => Some((name, None)),
        _ => None,
    }
}
