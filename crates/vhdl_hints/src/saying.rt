//! How a hint is told.

ghost use Rattle.std.specs.Prelude.{◌≡◌};
ghost use Rattle.byte_streams.specs.Written.{Goes};
ghost use Rattle.vhdl_slips.specs.Words.{read_of};
ghost use Rattle.vhdl_hints.specs.Hinted.{hint_view};
ghost use Rattle.vhdl_hints.specs.Sayings as spec;

use crate::hint::Hint;
use crate::part::{Part, push_parts};
use byte_streams::Sink;
use vhdl_slips::{Lexed, Listing};

const HELP_FORMAL: &str = "write one of these names before =>, or declare it in the entity";

const HELP_NAME: &str = "write that name, which stands at the beginning, or leave it out";

const HELP_EMPTY: &str =
    "write one of these; a slice goes in the direction in which its name is declared";

const HELP_LENGTH: &str =
    "give both one length, and whole numbers one range; a generic in the bounds of a port is what the generic map of \
     the instance gives, or else its default";

const HELP_TYPE: &str =
    "see how the port is declared, and give a signal of that type: one element, a vector or unsigned, and with --wide \
     a whole number or a boolean";

const HELP_COMPONENT: &str =
    "repeat in it the generics and ports of the entity, in the same order, each with its mode, type, bounds and default";

const HELP_MEANT: &str = "correct its spelling, or declare it above this place";

const HELP_ENTITY: &str =
    "correct its spelling; where it is an entity in another file, give that file by --with";

const HELP_POSITION: &str =
    "give each by its position, in this order and no more than these, or by its name, as y => q, with names alone \
     behind that; an actual of a port names a signal";

/// What a designer does about it: in place of the usual, where a hint has a help of its own.
pub fn help(hint: Hint<'_>, usual: &'static [u8]) -> &'static [u8]
    ensures { result.now ≡ spec.help (hint_view hint.entry) usual.now }
{
    match hint {
        Hint::Form((_, help)) => help.as_bytes(),
        Hint::NoFormal(..) => HELP_FORMAL.as_bytes(),
        Hint::OtherName(_) => HELP_NAME.as_bytes(),
        Hint::Empty(..) => HELP_EMPTY.as_bytes(),
        Hint::Actual(..) => HELP_LENGTH.as_bytes(),
        Hint::OtherType(..) => HELP_TYPE.as_bytes(),
        Hint::Differs(..) => HELP_COMPONENT.as_bytes(),
        Hint::Meant(_) => HELP_MEANT.as_bytes(),
        Hint::NearEntity(_) => HELP_ENTITY.as_bytes(),
        Hint::Measured((_, _, help), _, _) => help.as_bytes(),
        Hint::NoPosition(..) => HELP_POSITION.as_bytes(),
        _ => usual,
    }
}

macro_rules! push {
    ($words:ident $sink:ident: $($kind:ident $(($($value:expr),+))?)*) => {
        push_parts($words, &[$(Part::$kind$(($($value),+))?),*], $sink)
    };
}

/// Writes the sentence of a hint, of the first of these words.
pub fn push_hint<S: Sink>(words: Lexed<'_>, hint: Hint<'_>, sink: &mut S)
    ensures { Goes (S.state sink.old) (S.state sink.new) (spec.sentence (read_of words.entry) (hint_view hint.entry)) }
{
    match hint {
        Hint::Nothing => push_parts(words, &[], sink),
        Hint::Form((said, _)) => push!(words sink: Subject Text(said)),
        Hint::NoFormal(entity, formal, is_port, formals) => push!(words sink:
            Text("entity ") Word(entity) Text(" has no ") Text(formal_word(is_port)) Text(" ") Word(formal) Text("; ")
            Names(listing_of(is_port), formals)),
        Hint::OpenPort(entity, port) => push!(words sink:
            Subject Text("leaves open the in port ") Word(port) Text(" of entity ") Word(entity)
            Text(", which has no default")),
        Hint::OtherName(name) =>
            push!(words sink: Subject Text("stands at the end of ") Word(name)),
        Hint::Outside(name, index, bounds) => push!(words sink:
            Text("`") Word(name) Text("(") Words(index) Text(")` is outside of (") Words(bounds)
            Text("), or against its direction")),
        Hint::Empty(left, right, is_upward) => push!(words sink:
            Subject Text("has a range without elements: (")
            Word(left) Text(direction(is_upward)) Word(right) Text(") is written (")
            Word(right) Text(direction(is_upward)) Word(left) Text(") or (")
            Word(left) Text(direction(!is_upward)) Word(right) Text(")")),
        Hint::Actual(entity, port, bounds, found, needed) => push!(words sink:
            Subject Text("has length ") Number(found) Text(", and the port ") Word(port) Text(" of entity ")
            Word(entity) Text(" has length ") Number(needed) Bounds(bounds)),
        Hint::OtherType(entity, port) => push!(words sink:
            Subject Text("has another type than the port ") Word(port) Text(" of entity ") Word(entity)),
        Hint::Differs(generics, ports) => push!(words sink:
            Subject Text("isn't declared as its entity is: ") Generics(generics) Names(Listing::Ports, ports)),
        Hint::Meant(word) =>
            push!(words sink: Subject Text("isn't declared: did you mean ") Text(word) Text("?")),
        Hint::NearEntity(name) =>
            push!(words sink: Subject Text("isn't declared: did you mean ") Word(name) Text("?")),
        Hint::Measured((first, second, _), found, needed) => push!(words sink:
            Subject Text(first) Number(found) Text(second) Number(needed)),
        Hint::NoPosition(entity, is_port, formals) => push!(words sink:
            Subject Text("can't stand here for a ") Text(formal_word(is_port)) Text(" of entity ") Word(entity) Text("; ") Names(listing_of(is_port), formals)),
    }
}

fn formal_word(is_port: bool) -> &'static str
    ensures { result.now ≡ spec.formal_word is_port }
{
    if is_port { "port" } else { "generic" }
}

fn listing_of(is_port: bool) -> Listing
    ensures { result ≡ spec.listing_of is_port }
{
    if is_port {
        Listing::Ports
    } else {
        Listing::Generics
    }
}

fn direction(is_upward: bool) -> &'static str
    ensures { result.now ≡ spec.direction_text is_upward }
{
    if is_upward { " to " } else { " downto " }
}
