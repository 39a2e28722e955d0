//! Kinds of tokens by their names.

use rows_calls::Text;
use vhdl_lexer::TokenKind;

macro_rules! names {
    ($($kind:ident)+) => {
        [$(stringify!($kind)),+]
    };
}

/// The names of the kinds, in the order of `TokenKind`.
const KIND_NAMES: [&str; 124] = names!(
    Identifier Integer Character String BitString Arrow Assign LessEqual GreaterEqual NotEqual
    Ampersand Tick LeftParen RightParen Star Plus Comma Minus Dot Slash Colon Semicolon Less
    Equal Greater Bar Abs Access After Alias All And Architecture Array Assert Attribute Begin
    Block Body Buffer Bus Case Component Configuration Constant Disconnect Downto Else Elsif End
    Entity Exit File For Function Generate Generic Group Guarded If Impure In Inertial Inout Is
    Label Library Linkage Literal Loop Map Mod Nand New Next Nor Not Null Of On Open Or Others
    Out Package Port Postponed Procedure Process Protected Pure Range Record Register Reject Rem
    Report Return Rol Ror Select Severity Shared Signal Sla Sll Sra Srl Subtype Then To
    Transport Type Unaffected Units Until Use Variable Wait When While With Xnor Xor
);

/// The name of a kind.
pub fn kind_name(kind: TokenKind) -> &'static str {
    match KIND_NAMES.get(kind as usize) {
        Some(name) => *name,
        None => "",
    }
}

/// Adds a word, and the kinds of the tokens behind it, which the tree keeps without their places.
pub fn push_kinds(out: &mut Text, word: &str, kinds: &[TokenKind]) {
    out.push(word);
    for kind in kinds {
        out.push(" ");
        out.push(kind_name(*kind));
    }
    out.push(";");
}
