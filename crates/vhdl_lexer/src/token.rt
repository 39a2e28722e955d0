//! The lexical elements of VHDL (IEEE 1076-2008, clause 15).

/// What a token is: an identifier, a literal, a delimiter or a reserved word.
///
/// Only a basic identifier that is no reserved word is an `Identifier`. A kind without a comment is
/// the reserved word of its name (15.10).
#[derive(Clone, Copy, PartialEq, Eq)]
pub enum TokenKind {
    /// A basic identifier (15.4.2).
    Identifier,
    /// A decimal literal with neither a point nor an exponent (15.5.2).
    Integer,
    /// A character literal, as `'1'` (15.6).
    Character,
    /// A string literal, as `"01"` (15.7).
    String,
    /// A bit string literal, as `X"1F"` (15.8).
    BitString,
    /// `=>`
    Arrow,
    /// `:=`
    Assign,
    /// `<=`
    LessEqual,
    /// `>=`
    GreaterEqual,
    /// `/=`
    NotEqual,
    /// `&`
    Ampersand,
    /// `'` that opens no character literal
    Tick,
    /// `(`
    LeftParen,
    /// `)`
    RightParen,
    /// `*`
    Star,
    /// `+`
    Plus,
    /// `,`
    Comma,
    /// `-`
    Minus,
    /// `.`
    Dot,
    /// `/`
    Slash,
    /// `:`
    Colon,
    /// `;`
    Semicolon,
    /// `<`
    Less,
    /// `=`
    Equal,
    /// `>`
    Greater,
    /// `|`
    Bar,
    Abs,
    Access,
    After,
    Alias,
    All,
    And,
    Architecture,
    Array,
    Assert,
    Attribute,
    Begin,
    Block,
    Body,
    Buffer,
    Bus,
    Case,
    Component,
    Configuration,
    Constant,
    Disconnect,
    Downto,
    Else,
    Elsif,
    End,
    Entity,
    Exit,
    File,
    For,
    Function,
    Generate,
    Generic,
    Group,
    Guarded,
    If,
    Impure,
    In,
    Inertial,
    Inout,
    Is,
    Label,
    Library,
    Linkage,
    Literal,
    Loop,
    Map,
    Mod,
    Nand,
    New,
    Next,
    Nor,
    Not,
    Null,
    Of,
    On,
    Open,
    Or,
    Others,
    Out,
    Package,
    Port,
    Postponed,
    Procedure,
    Process,
    Protected,
    Pure,
    Range,
    Record,
    Register,
    Reject,
    Rem,
    Report,
    Return,
    Rol,
    Ror,
    Select,
    Severity,
    Shared,
    Signal,
    Sla,
    Sll,
    Sra,
    Srl,
    Subtype,
    Then,
    To,
    Transport,
    Type,
    Unaffected,
    Units,
    Until,
    Use,
    Variable,
    Wait,
    When,
    While,
    With,
    Xnor,
    Xor,
}

/// A token, by its kind and the bytes of the source that it takes: from `start` up to `end`,
/// both counted from the source's first byte. A source has 4,194,304 bytes at most, so 32 bits do.
#[derive(Clone, Copy)]
pub struct Token {
    pub kind: TokenKind,
    pub start: u32,
    pub end: u32,
}

/// The reserved words (15.10) in small letters, by their first letter from `a` to `z`.
pub const RESERVED_WORDS: [&[(&[u8], TokenKind)]; 26] = [
    &[
        (b"abs", TokenKind::Abs),
        (b"access", TokenKind::Access),
        (b"after", TokenKind::After),
        (b"alias", TokenKind::Alias),
        (b"all", TokenKind::All),
        (b"and", TokenKind::And),
        (b"architecture", TokenKind::Architecture),
        (b"array", TokenKind::Array),
        (b"assert", TokenKind::Assert),
        (b"attribute", TokenKind::Attribute),
    ],
    &[
        (b"begin", TokenKind::Begin),
        (b"block", TokenKind::Block),
        (b"body", TokenKind::Body),
        (b"buffer", TokenKind::Buffer),
        (b"bus", TokenKind::Bus),
    ],
    &[
        (b"case", TokenKind::Case),
        (b"component", TokenKind::Component),
        (b"configuration", TokenKind::Configuration),
        (b"constant", TokenKind::Constant),
    ],
    &[
        (b"disconnect", TokenKind::Disconnect),
        (b"downto", TokenKind::Downto),
    ],
    &[
        (b"else", TokenKind::Else),
        (b"elsif", TokenKind::Elsif),
        (b"end", TokenKind::End),
        (b"entity", TokenKind::Entity),
        (b"exit", TokenKind::Exit),
    ],
    &[
        (b"file", TokenKind::File),
        (b"for", TokenKind::For),
        (b"function", TokenKind::Function),
    ],
    &[
        (b"generate", TokenKind::Generate),
        (b"generic", TokenKind::Generic),
        (b"group", TokenKind::Group),
        (b"guarded", TokenKind::Guarded),
    ],
    &[],
    &[
        (b"if", TokenKind::If),
        (b"impure", TokenKind::Impure),
        (b"in", TokenKind::In),
        (b"inertial", TokenKind::Inertial),
        (b"inout", TokenKind::Inout),
        (b"is", TokenKind::Is),
    ],
    &[],
    &[],
    &[
        (b"label", TokenKind::Label),
        (b"library", TokenKind::Library),
        (b"linkage", TokenKind::Linkage),
        (b"literal", TokenKind::Literal),
        (b"loop", TokenKind::Loop),
    ],
    &[(b"map", TokenKind::Map), (b"mod", TokenKind::Mod)],
    &[
        (b"nand", TokenKind::Nand),
        (b"new", TokenKind::New),
        (b"next", TokenKind::Next),
        (b"nor", TokenKind::Nor),
        (b"not", TokenKind::Not),
        (b"null", TokenKind::Null),
    ],
    &[
        (b"of", TokenKind::Of),
        (b"on", TokenKind::On),
        (b"open", TokenKind::Open),
        (b"or", TokenKind::Or),
        (b"others", TokenKind::Others),
        (b"out", TokenKind::Out),
    ],
    &[
        (b"package", TokenKind::Package),
        (b"port", TokenKind::Port),
        (b"postponed", TokenKind::Postponed),
        (b"procedure", TokenKind::Procedure),
        (b"process", TokenKind::Process),
        (b"protected", TokenKind::Protected),
        (b"pure", TokenKind::Pure),
    ],
    &[],
    &[
        (b"range", TokenKind::Range),
        (b"record", TokenKind::Record),
        (b"register", TokenKind::Register),
        (b"reject", TokenKind::Reject),
        (b"rem", TokenKind::Rem),
        (b"report", TokenKind::Report),
        (b"return", TokenKind::Return),
        (b"rol", TokenKind::Rol),
        (b"ror", TokenKind::Ror),
    ],
    &[
        (b"select", TokenKind::Select),
        (b"severity", TokenKind::Severity),
        (b"shared", TokenKind::Shared),
        (b"signal", TokenKind::Signal),
        (b"sla", TokenKind::Sla),
        (b"sll", TokenKind::Sll),
        (b"sra", TokenKind::Sra),
        (b"srl", TokenKind::Srl),
        (b"subtype", TokenKind::Subtype),
    ],
    &[
        (b"then", TokenKind::Then),
        (b"to", TokenKind::To),
        (b"transport", TokenKind::Transport),
        (b"type", TokenKind::Type),
    ],
    &[
        (b"unaffected", TokenKind::Unaffected),
        (b"units", TokenKind::Units),
        (b"until", TokenKind::Until),
        (b"use", TokenKind::Use),
    ],
    &[(b"variable", TokenKind::Variable)],
    &[
        (b"wait", TokenKind::Wait),
        (b"when", TokenKind::When),
        (b"while", TokenKind::While),
        (b"with", TokenKind::With),
    ],
    &[(b"xnor", TokenKind::Xnor), (b"xor", TokenKind::Xor)],
    &[],
    &[],
];
