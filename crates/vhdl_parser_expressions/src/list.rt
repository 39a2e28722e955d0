//! Lists of items.

ghost use Rattle.std.specs.Prelude.{length};
ghost use Rattle.std.specs.Fn.{FnReturnsAt};
ghost use Rattle.vhdl_parser_expressions.specs.reader.Lists.{Collects, Separates, FnReturnsAtMut};

use crate::parser::Parser;
use crate::stop::Stop;
use vhdl_lexer::TokenKind;

/// The items found so far, and behind them those that `item` reads while `begins` says that one
/// begins: at most as many as tokens are ahead. Where `item` stops, so does this. It takes the
/// memory of the list.
pub fn many<T, B, I>(
    parser: &mut Parser<'_>,
    begins: B,
    item: I,
    mut found: Vec<T>,
) -> Result<Vec<T>, Stop>
where
    T: Drop,
    B: Fn(&Parser<'_>) -> bool + Drop,
    I: Fn(&mut Parser<'_>) -> Result<T, Stop> + Drop,
    requires begins { B.IsAlwaysCallable begins }
    requires item { I.IsAlwaysCallable item }
    ensures { Collects (FnReturnsAt B.Fn begins) (FnReturnsAtMut I.Fn item) (length parser.old) found.items parser.old
        result parser.new }
{
    for _turn in 0..parser.left() {
        if !begins(parser) {
            return Ok(found);
        }
        found.push(item(parser)?)?;
    }
    Ok(found)
}

/// One item or more that `item` reads, with separators between them. Where `item` stops, so does
/// this. It takes the memory of the list.
pub fn separated<T, I>(
    parser: &mut Parser<'_>,
    separator: TokenKind,
    item: I,
) -> Result<Vec<T>, Stop>
where
    T: Drop,
    I: Fn(&mut Parser<'_>) -> Result<T, Stop> + Drop,
    requires item { I.IsAlwaysCallable item }
    ensures { Separates separator (FnReturnsAtMut I.Fn item) parser.old result parser.new }
{
    let mut found = Vec::new(parser.alloc);
    found.push(item(parser)?)?;
    for _turn in 0..parser.left() {
        if !parser.sees(separator) {
            return Ok(found);
        }
        parser.expect(separator)?;
        found.push(item(parser)?)?;
    }
    Ok(found)
}
