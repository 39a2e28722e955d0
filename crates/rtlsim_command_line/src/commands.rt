//! The commands, as clap tells of them: the texts of help and of what is wrong with words.

use crate::parts::{Form, Part, table};
use clap::{Arg, ArgAction, Command};
use std::alloc::{AllocError, Global};

/// A command: its name, what it does, how it is used, and an example.
type Told = (&'static str, &'static str, &'static str, &'static str);

/// The commands, in the order of the help.
static COMMANDS: [Told; 4] = [
    (
        "eval",
        "Prints the outputs under these inputs",
        "rtlsim eval [--with <FILE>]... [--explain] <FILE> <TOP> [NAME=VALUE]... [--wide]
       rtlsim eval --files <LIST> [OPTIONS] <TOP> [NAME=VALUE]... [--wide]
       and with each of them [--generic <NAME=VALUE>]...",
        "Example: rtlsim eval and2.vhd and2 a=L b=H",
    ),
    (
        "net",
        "Prints the nets and what drives each",
        "rtlsim net [--with <FILE>]... [--explain] <FILE> <TOP> [--wide]
       rtlsim net --files <LIST> [OPTIONS] <TOP> [--wide]
       and with each of them [--generic <NAME=VALUE>]...",
        "Example: rtlsim net counter.vhd counter",
    ),
    (
        "check",
        "Says whether the design is sure to settle",
        "rtlsim check [--dot | --json] [--with <FILE>]... [--explain] <FILE> <TOP> [--wide]
       rtlsim check --files <LIST> [OPTIONS] <TOP> [--wide]
       and with each of them [--generic <NAME=VALUE>]...",
        "Example: rtlsim check counter.vhd counter",
    ),
    (
        "run",
        "Prints the trace under a stimulus",
        "rtlsim run [--event] [--order <ORDER>] [--expect <FILE>] [--progress] [--with <FILE>]... [--explain] <FILE> <TOP> <STIM> [--wide]
       rtlsim run --levels [--expect <FILE>] [--progress] [--with <FILE>]... [--explain] <FILE> <TOP> <STIM> [--wide]
       rtlsim run --files <LIST> [OPTIONS] <TOP> <STIM> [--wide]
       and with each of them [--no-trace | [--trace <NAME>]...] [--generic <NAME=VALUE>]...",
        "Example: rtlsim run counter.vhd counter counter.stim",
    ),
];

/// The orders of a run.
static ORDERS: [&str; 2] = ["forward", "reverse"];

/// What stands below the help of all commands.
static EXAMPLES: &str =
    "A FILE, LIST or STIM may be @, the standard input. Files of --with stand before the source's, in order.

Examples:
  rtlsim eval and2.vhd and2 a=L b=H
  rtlsim net counter.vhd counter
  rtlsim check counter.vhd counter
  rtlsim check --dot counter.vhd counter
  rtlsim check --explain --with alu.vhd --with fetch.vhd cpu.vhd cpu
  rtlsim check --files rtlsim.files cpu
  rtlsim check --generic bits=8 adder.vhd adder
  rtlsim run counter.vhd counter counter.stim
  rtlsim run --levels counter.vhd counter counter.stim
  rtlsim run --trace count counter.vhd counter counter.stim
  rtlsim run --expect counter.expect counter.vhd counter counter.stim
  rtlsim run --event --order reverse counter.vhd counter counter.stim";

/// The commands; without FILE where a list is given.
pub(crate) fn command<'a>(alloc: Global, is_listed: bool) -> Result<Command<'a>, AllocError> {
    let mut commands = Vec::new(alloc);
    for told in &COMMANDS {
        commands.push(told_command(alloc, told, is_listed)?)?;
    }
    Command::new(alloc, "rtlsim")
        .version("0.1.0")
        .about("Simulates the register-transfer subset of VHDL")
        .after_help(EXAMPLES)
        .no_binary_name(true)
        .subcommand_required(true)
        .subcommands(commands)
}

/// A command.
fn told_command<'a>(
    alloc: Global,
    told: &Told,
    is_listed: bool,
) -> Result<Command<'a>, AllocError> {
    let (name, about, usage, example) = *told;
    let mut args = Vec::new(alloc);
    for part in table() {
        let is_there = !(is_listed && part.name == "FILE");
        if is_there && (part.command.is_empty() || part.command == name) {
            args.push(told_part(alloc, part)?)?;
        }
    }
    Command::new(alloc, name)
        .about(about)
        .override_usage(usage)
        .after_help(example)
        .args(args)
}

/// What it takes.
fn told_part<'a>(alloc: Global, part: &Part<&'static str>) -> Result<Arg<'a>, AllocError> {
    let arg = formed(Arg::new(alloc, part.name).help(part.help), part);
    if part.without.is_empty() {
        return Ok(arg);
    }
    arg.conflicts_with(part.without)
}

/// The same as it is given.
fn formed<'a>(arg: Arg<'a>, part: &Part<&'static str>) -> Arg<'a> {
    let arg = match part.form {
        Form::Operand => return arg.required(true),
        Form::Operands => arg.num_args(0..),
        Form::Order => arg.long(part.name).value_parser(ORDERS.as_slice()),
        Form::Setting => arg.long(part.name).short('g'),
        _ => arg.long(part.name),
    };
    let arg = match value_name(part.form) {
        Some(name) => arg.value_name(name),
        None => arg,
    };
    arg.action(action_of(part.form))
}

/// What help calls its value, where that isn't the option's name.
fn value_name(form: Form) -> Option<&'static str> {
    match form {
        Form::File | Form::Files => Some("FILE"),
        Form::List => Some("LIST"),
        Form::Names => Some("NAME"),
        Form::Setting => Some("NAME=VALUE"),
        _ => None,
    }
}

/// What becomes of its values.
fn action_of(form: Form) -> ArgAction {
    match form {
        Form::Flag => ArgAction::SetTrue,
        Form::Operands | Form::Files | Form::Names | Form::Setting => ArgAction::Append,
        _ => ArgAction::Set,
    }
}
