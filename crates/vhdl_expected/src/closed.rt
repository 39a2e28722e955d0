//! What is closed, ended or placed otherwise than it has to be, with what is told of each.

use crate::help::{
    ALL, CLOSE_LIST, END, END_CASE, END_COMPONENT, END_GENERATE, END_IF, END_LOOP, END_PROCESS,
    END_UNIT, LABEL, OUTSIDE,
};
use crate::reading::MOST_TOKENS;
use crate::row::{Row, before, before_name, here, row};
use crate::texts::{
    ELSE_BEGUN, MODE_IN, MODE_OUT, NO_CASE, NO_DECLARATION, NO_END, NO_IF, NO_PORT, NO_PROCESS,
    OPEN_PROCESS, PARTED, SPARE, SPARE_BEFORE,
};
use vhdl_lexer::TokenKind;

/// What is closed too early, or lacks the word that ends it.
pub static CLOSED: [Row; 14] = [
    row!(SPARE_BEFORE, 1, [Semicolon And] 1, []),
    row!(SPARE_BEFORE, 1, [Semicolon Or] 1, []),
    row!(SPARE_BEFORE, 1, [Semicolon Ampersand] 1, []),
    row!(SPARE_BEFORE, 1, [Semicolon Plus] 1, []),
    row!(PARTED, 1, [Semicolon Character] 1, [Comma]),
    row!(PARTED, 1, [Semicolon String] 1, [Comma]),
    row!(PARTED, 1, [Semicolon BitString] 1, [Comma]),
    row!(SPARE, 1, [RightParen Semicolon Begin] 2, [RightParen]),
    row!(("can't stand here: the `)` before the `;` before it closes the list too early",
        "leave that `)` out, and close the list behind its last declaration"),
        2, [RightParen Semicolon Identifier] 1, []),
    row!(("can't stand here: a list of ports is closed by `);`", "write ); for end port;"), 0, [End Port] 2, [RightParen]),
    before!("`end`", END, [] End),
    row!(NO_END, 1, [If Semicolon] 0, [End]),
    row!(NO_END, 1, [Case Semicolon] 0, [End]),
    before!("`.all`", ALL, [] Dot All),
];

/// What is neither closed nor ended.
pub static UNENDED: [Row; 12] = [
    before!("`end;`", END_UNIT, [] End Semicolon),
    before!("`);`", CLOSE_LIST, [] RightParen Semicolon),
    row!(("can't stand here: `)` is expected before the `;` before it", CLOSE_LIST),
        1, [Semicolon] 0, [RightParen]),
    row!(ELSE_BEGUN, 0, [Elsif] 0, [End If Semicolon]),
    row!(ELSE_BEGUN, 0, [Else] 0, [End If Semicolon]),
    before!("`end if;`", END_IF, [] End If Semicolon),
    before!("`end loop;`", END_LOOP, [] End Loop Semicolon),
    before!("`end case;`", END_CASE, [] End Case Semicolon),
    row!(("can't stand in a process: a selected assignment stands outside of one",
        "end the process before it, or write case s is in place of it"),
        0, [With] 0, [End Process Semicolon]),
    before!("`end process;`", END_PROCESS, [] End Process Semicolon),
    before!("`end generate;`", END_GENERATE, [] End Generate Semicolon),
    before!("`end component;`", END_COMPONENT, [] End Component Semicolon),
];

/// What stands in another place than its own.
pub static PLACES: [Row; 21] = [
    row!(OPEN_PROCESS, 0, [Process] 0, [Null Semicolon End Process Semicolon]),
    row!(OPEN_PROCESS, 0, [Entity] 0, [Null Semicolon End Process Semicolon Identifier Colon]),
    row!(OPEN_PROCESS, 0, [Component] 0, [Null Semicolon End Process Semicolon Identifier Colon]),
    row!(OPEN_PROCESS, 0, [Port] 0, [LessEqual Integer Semicolon End Process Semicolon Identifier Colon Identifier]),
    row!(OPEN_PROCESS, 0, [Generic] 0, [LessEqual Integer Semicolon End Process Semicolon Identifier Colon Identifier]),
    row!(("can't stand in a process: `then` is expected in its place, or `end process;` above it", OUTSIDE),
        0, [Generate] 1, [Then]),
    row!(("can't stand in a process: `loop` is expected in its place, or `end process;` above it", OUTSIDE),
        0, [Generate] 1, [Loop]),
    before!("a label with `:`", LABEL, [For] Identifier Colon),
    before!("a label with `:`", LABEL, [If] Identifier Colon),
    before!("a label with `:`", LABEL, [Entity] Identifier Colon),
    before!("a label with `:`", LABEL, [Component] Identifier Colon),
    before_name!("a label with `:`", LABEL, [Identifier Port] Identifier Colon),
    before_name!("a label with `:`", LABEL, [Identifier Generic] Identifier Colon),
    row!(NO_PROCESS, 0, [If] 0, [Process Begin]),
    row!(NO_PROCESS, 0, [Case] 0, [Process Begin]),
    row!(NO_PROCESS, 0, [For] 0, [Process Begin]),
    row!(NO_PROCESS, 0, [Null] 0, [Process Begin]),
    row!(NO_IF, 0, [Else] 0, [If Identifier Then]),
    row!(NO_IF, 0, [Elsif] 0, [If Identifier Then]),
    row!(NO_CASE, 1, [Begin When] 1, [Begin Case Identifier Is]),
    row!(NO_CASE, 1, [Then When] 1, [Then Case Identifier Is]),
];

/// Modes and declarations in another place than their own.
pub static MODES: [Row; 17] = [
    row!(MODE_IN, 1, [Identifier In] 2, [In Identifier]),
    row!(MODE_OUT, 1, [Identifier Out] 2, [Out Identifier]),
    here!(NO_PORT, 1, [RightParen In] [RightParen Semicolon Type]),
    here!(NO_PORT, 1, [RightParen Out] [RightParen Semicolon Type]),
    row!(MODE_IN, 1, [RightParen In] 2, [RightParen]),
    row!(MODE_OUT, 1, [RightParen Out] 2, [RightParen]),
    row!(NO_PORT, 1, [Colon In] 2, [Colon]),
    row!(NO_PORT, 1, [Colon Out] 2, [Colon]),
    row!(MODE_IN, 0, [In Colon] 2, [Colon In]),
    row!(MODE_OUT, 0, [Out Colon] 2, [Colon Out]),
    // Behind another port: so a declaration isn't taken for one.
    row!(MODE_IN, 0, [In] 1, [Identifier Colon In Identifier Semicolon]),
    row!(MODE_OUT, 0, [Out] 1, [Identifier Colon Out Identifier Semicolon]),
    row!(NO_PORT, 0, [In] 1, [Signal]),
    row!(NO_PORT, 0, [Out] 1, [Signal]),
    here!(NO_DECLARATION, 0, [Constant] [End Entity Semicolon]),
    here!(NO_DECLARATION, 0, [Signal] [End Entity Semicolon]),
    here!(NO_DECLARATION, 0, [Type] [End Entity Semicolon]),
];
