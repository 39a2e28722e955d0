//! Which hint the tokens around a fault give.

ghost use Rattle.std.specs.Prelude.{◌≡◌, Some, option_map};
ghost use Rattle.vhdl_misfits.specs.Lengths.{measure_view};
ghost use Rattle.vhdl_slips.specs.Forms.{said_of};
ghost use Rattle.vhdl_slips.specs.Parts.{first_of};
ghost use Rattle.vhdl_slips.specs.Words.{read_of, with_tokens};
ghost use Rattle.vhdl_hints.specs.Hinted.{hint_view, is_nothing, or_else, told_hint};
ghost use Rattle.vhdl_hints.specs.Hints as spec;

use crate::end_name::{Begun, but_last_two, end_word, last_begun, last_two};
use crate::form::{LITERALS, NO_EDGE, NO_NAME, WORDS};
use crate::misplaced::{actual, assigned, component, misplaced, position, unknown};
use crate::word::{elsewhere, known_of, meant_among, misspelt, no_target, twice};
use fault_rules::{ElabRule, NameRule, Report, Rule, Subject};
use vhdl_lexer::{Token, TokenKind};
use vhdl_misfits::{
    Measure, begins_one_of, bounds_of, crowded, foreign, is_declared, is_empty, measured, misfit,
    overlapping, range_at, strayed, uncomputed,
};
use vhdl_slips::{
    Lexed, Said, associations, begins, entity_of, first_choice, first_of, first_open, first_text,
    formals, has, in_parentheses, interface_of, is_by_name, is_literal, is_same_kind, labelled,
    open_instance, past, text_of, type_of,
};

/// What the tokens around a fault tell of it.
#[derive(Clone, Copy)]
pub enum Hint<'a> {
    /// Nothing more than its rule.
    Nothing,
    /// This of the word.
    Form(Said),
    /// An entity has no port, or generic, of a name; it has these.
    NoFormal(Token, Token, bool, &'a [Token]),
    /// An instance leaves open of its entity this port.
    OpenPort(Token, Token),
    /// What ends there has another name.
    OtherName(Token),
    /// Of a name this index or slice, and the bounds that are declared.
    Outside(Token, &'a [Token], &'a [Token]),
    /// A range has no element: its bounds, and whether it goes upward.
    Empty(Token, Token, bool),
    /// An actual has another length than of its entity this port, which has these bounds: its own
    /// length and that of the port.
    Actual(Token, Token, &'a [Token], usize, usize),
    /// An actual has another type than of its entity this port.
    OtherType(Token, Token),
    /// A component differs from its entity, which has these generics and ports.
    Differs(&'a [Token], &'a [Token]),
    /// A word that is nearly the same may be meant.
    Meant(&'static str),
    /// An entity of nearly the same name may be meant.
    NearEntity(Token),
    /// Two lengths differ, which are measured so.
    Measured(Measure, usize, usize),
    /// What can't stand in a map for a port, or generic, of an entity, which has these.
    NoPosition(Token, bool, &'a [Token]),
}

impl<'a> Hint<'a> {
    /// Whether it tells nothing.
    pub fn is_nothing(self) -> bool
        ensures { result ≡ is_nothing (hint_view self.entry) }
    {
        matches!(self, Hint::Nothing)
    }

    /// This hint, or where it tells nothing the other.
    fn or_else(self, other: Hint<'a>) -> Hint<'a>
        ensures { hint_view result ≡ or_else (hint_view self.entry) (hint_view other.entry) }
    {
        match self {
            Hint::Nothing => other,
            _ => self,
        }
    }
}

/// The hint at a byte of a source, of whose tokens these start before it, and the others from it
/// on.
pub fn hint_at<'a>(
    source: Lexed<'a>,
    before: &'a [Token],
    from: &'a [Token],
    report: Report,
) -> Hint<'a>
    ensures { hint_view result
        ≡ spec.hint_at (read_of source.entry) before.now from.now report.rule report.subject }
{
    match report.rule {
        Rule::Name(NameRule::Undeclared) => undeclared(source, before, from),
        Rule::Name(NameRule::Twice) => twice(source, before, from),
        Rule::Name(NameRule::WrongKind) => wrong_kind(source, before, from),
        Rule::Name(NameRule::TypeMismatch) => mismatch(source, before, from, report.subject),
        Rule::Name(NameRule::LeftOut) => assigned(source, before, from),
        Rule::Name(NameRule::NoOthers) => enumeration(source.text, before, from),
        Rule::Name(NameRule::NoSensitivity) => no_edge(from),
        Rule::Elab(ElabRule::Length) => actual(source, before, from, report.subject).or_else(
            measure_hint(report.subject, measured(source.text, from)),
        ),
        Rule::Elab(ElabRule::Index) => told_hint(overlapping(
            source.text,
            last_two(before),
            from,
        )).or_else(outside(source, before, from)),
        Rule::Elab(ElabRule::Unassociated) => open_port(source, from),
        Rule::Elab(ElabRule::GenericRange) => {
            told_hint(strayed(source.text, last_two(before), from))
        }
        Rule::Elab(ElabRule::StaticError) => told_hint(uncomputed(source.text, from)),
        Rule::Elab(ElabRule::TooMany) => told_hint(crowded(source.text, from)),
        _ => Hint::Nothing,
    }
}

/// Of a process that has no sensitivity list, and waits for something else than an edge alone.
fn no_edge(from: &[Token]) -> Hint<'static>
    ensures { hint_view result ≡ spec.no_edge from.now }
{
    if begins(TokenKind::Wait, from) {
        return Hint::Form(NO_EDGE);
    }
    Hint::Nothing
}

/// What is told of a word, or nothing.
fn told_hint(said: Option<Said>) -> Hint<'static>
    ensures { hint_view result ≡ told_hint (option_map said_of said.entry) }
{
    match said {
        Some(said) => Hint::Form(said),
        None => Hint::Nothing,
    }
}

/// Of a name that isn't declared.
fn undeclared<'a>(source: Lexed<'a>, before: &[Token], from: &[Token]) -> Hint<'a>
    ensures { hint_view result ≡ spec.undeclared (read_of source.entry) before.now from.now }
{
    let text = source.text;
    let is_for_word = has(TokenKind::Colon, last_two(before))
        || begins_one_of(&[TokenKind::LeftParen, TokenKind::Arrow], past(1, from));
    let meant = if is_for_word && no_target(before, from).is_nothing() {
        meant_among(&WORDS, first_text(Lexed { text, tokens: from }))
    } else {
        Hint::Nothing
    };
    no_formal(source, before, from)
        .or_else(assigned(source, before, from))
        .or_else(unknown(text, last_two(before), from))
        .or_else(misspelt(source, last_two(before), from))
        .or_else(elsewhere(text, before, from))
        .or_else(told_hint(foreign(text, from)))
        .or_else(meant)
}

/// Of a value, an operator or a call.
fn mismatch<'a>(source: Lexed<'a>, before: &[Token], from: &[Token], subject: Subject) -> Hint<'a>
    ensures { hint_view result ≡ spec.mismatch (read_of source.entry) before.now from.now subject }
{
    let known = known_of(source, before, from);
    assigned(source, before, from)
        .or_else(actual(source, before, from, subject))
        .or_else(told_hint(misfit(known, source.text, last_two(before), from)))
}

/// Of two lengths.
fn measure_hint(subject: Subject, said: Option<Measure>) -> Hint<'static>
    ensures { hint_view result ≡ spec.measure_hint subject (option_map measure_view said.entry) }
{
    match (subject, said) {
        (Subject::Lengths { found, needed }, Some(said)) => Hint::Measured(said, found, needed),
        _ => Hint::Nothing,
    }
}

/// Of a name of another kind.
fn wrong_kind<'a>(source: Lexed<'a>, before: &[Token], from: &[Token]) -> Hint<'a>
    ensures { hint_view result ≡ spec.wrong_kind (read_of source.entry) before.now from.now }
{
    other_name(before)
        .or_else(no_target(before, from))
        .or_else(component(source, last_two(before), from))
        .or_else(assigned(source, before, from))
        .or_else(misplaced(source.text, before, from))
        .or_else(position(source, before, from))
}

/// Of a name in an instance that is no formal of its entity.
fn no_formal<'a>(source: Lexed<'a>, before: &[Token], from: &[Token]) -> Hint<'a>
    ensures { hint_view result ≡ spec.no_formal (read_of source.entry) before.now from.now }
{
    let instance = open_instance(before);
    match entity_of(instance) {
        Some(entity) => {
            let interface = interface_in(source, entity);
            unknown_formal(
                source.text,
                entity,
                has(TokenKind::Port, instance),
                interface,
                from,
            )
        }
        None => Hint::Nothing,
    }
}

/// The generics and ports of the entity of this name.
pub(crate) fn interface_in<'a>(source: Lexed<'a>, entity: Token) -> &'a [Token]
    ensures { result.now ≡ spec.interface_in (read_of source.entry) entity }
{
    interface_of(source.text, text_of(source.text, entity), source.tokens)
}

/// Of the name at the front, where an arrow follows it and it is no formal of this interface.
fn unknown_formal<'a>(
    text: &[u8],
    entity: Token,
    is_port: bool,
    interface: &'a [Token],
    from: &[Token],
) -> Hint<'a>
    ensures { hint_view result ≡ spec.unknown_formal text.now entity is_port interface.now from.now }
{
    let formals = formals(is_port, interface);
    match from {
        [formal, arrow, ..] => {
            if is_unknown(text, interface, formals, *formal, *arrow) {
                Hint::NoFormal(entity, *formal, is_port, formals)
            } else {
                Hint::Nothing
            }
        }
        _ => Hint::Nothing,
    }
}

/// Whether `NAME =>` names no formal of an interface.
fn is_unknown(
    text: &[u8],
    interface: &[Token],
    formals: &[Token],
    name: Token,
    arrow: Token,
) -> bool
    ensures { result ≡ spec.is_unknown text.now interface.now formals.now name arrow }
{
    is_same_kind(arrow.kind, TokenKind::Arrow)
        && !interface.is_empty()
        && !is_declared(text, text_of(text, name), true, formals)
}

/// Of the instance of which the label stands at the front.
fn open_port<'a>(source: Lexed<'a>, from: &[Token]) -> Hint<'a>
    ensures { hint_view result ≡ spec.open_port (read_of source.entry) from.now }
{
    let instance = labelled(from);
    match entity_of(instance) {
        Some(entity) => open_hint(
            entity,
            open_among(
                source.text,
                associations(instance),
                formals(true, interface_in(source, entity)),
            ),
        ),
        None => Hint::Nothing,
    }
}

/// The first of these ports that is left open, where all associations are by name.
fn open_among(text: &[u8], associations: &[Token], ports: &[Token]) -> Option<Token>
    ensures { result ≡ spec.open_among text.now associations.now ports.now }
{
    if is_by_name(associations) {
        first_open(text, associations, ports)
    } else {
        None
    }
}

fn open_hint(entity: Token, port: Option<Token>) -> Hint<'static>
    ensures { hint_view result ≡ spec.open_hint entity port }
{
    match port {
        Some(port) => Hint::OpenPort(entity, port),
        None => Hint::Nothing,
    }
}

/// Of a name at an end.
fn other_name(before: &[Token]) -> Hint<'static>
    ensures { hint_view result ≡ spec.other_name before.now }
{
    match end_word(last_two(before)) {
        Some(word) => begun_hint(last_begun(word, but_last_two(before))),
        None => Hint::Nothing,
    }
}

fn begun_hint(begun: Begun) -> Hint<'static>
    ensures { hint_view result ≡ spec.begun_hint begun }
{
    match begun {
        Begun::Unknown => Hint::Nothing,
        Begun::Unnamed => Hint::Form(NO_NAME),
        Begun::Named(name) => Hint::OtherName(name),
    }
}

/// Of choices, the first of which is an identifier and a literal of an enumeration.
fn enumeration(text: &[u8], before: &[Token], from: &[Token]) -> Hint<'static>
    ensures { hint_view result ≡ spec.enumeration (with_tokens text.now before.now) from.now }
{
    let before = Lexed {
        text,
        tokens: before,
    };
    match first_choice(from) {
        Some(choice) => choice_hint(before, choice),
        None => Hint::Nothing,
    }
}

fn choice_hint(before: Lexed<'_>, choice: Token) -> Hint<'static>
    ensures { hint_view result ≡ spec.choice_hint (read_of before.entry) (Some choice) }
{
    let literal = text_of(before.text, choice);
    if is_same_kind(choice.kind, TokenKind::Identifier)
        && is_literal(type_of(before, literal), literal)
    {
        Hint::Form(LITERALS)
    } else {
        Hint::Nothing
    }
}

/// Of an index behind the name at the front, or of the range in its declaration.
fn outside<'a>(source: Lexed<'a>, before: &'a [Token], from: &'a [Token]) -> Hint<'a>
    ensures { hint_view result ≡ spec.outside (read_of source.entry) before.now from.now }
{
    let range = range_at(from);
    if is_empty(source.text, range) {
        empty_hint(range)
    } else {
        index_hint(source, before, from)
    }
}

/// Of a range that has no element.
fn empty_hint(range: &[Token]) -> Hint<'static>
    ensures { hint_view result ≡ spec.empty_hint range.now }
{
    match range {
        [left, direction, right] => Hint::Empty(
            *left,
            *right,
            is_same_kind(direction.kind, TokenKind::To),
        ),
        _ => Hint::Nothing,
    }
}

/// Of an index behind the name at the front, where its bounds are known.
fn index_hint<'a>(source: Lexed<'a>, before: &'a [Token], from: &'a [Token]) -> Hint<'a>
    ensures { hint_view result
        ≡ spec.index_hint (read_of source.entry) before.now from.now (first_of from.now) }
{
    match first_of(from) {
        Some(name) => outside_hint(
            name,
            in_parentheses(past(1, from)),
            bounds_of(source, text_of(source.text, name), before),
        ),
        None => Hint::Nothing,
    }
}

fn outside_hint<'a>(name: Token, index: &'a [Token], bounds: &'a [Token]) -> Hint<'a>
    ensures { hint_view result ≡ spec.outside_hint name index.now bounds.now }
{
    if index.is_empty() || bounds.is_empty() {
        Hint::Nothing
    } else {
        Hint::Outside(name, index, bounds)
    }
}
