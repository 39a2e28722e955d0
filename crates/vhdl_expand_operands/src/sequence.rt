//! What is expanded one after the other.

ghost use Rattle.std.specs.Prelude.{◌≡◌, IfOk, IfErr, Ok, Err};
ghost use Rattle.vhdl_expand_operands.specs.Results.{Adds};

use vhdl_expand_rules::ElabFault;

/// What is there, and what comes behind it. Where that is refused, it is let go here.
pub fn both<A: Drop, B, E>(first: A, second: Result<B, E>) -> Result<(A, B), E>
    ensures both { IfOk result (λ p. (second ≡ Ok p.1) × (first ≡ p.0)) }
    ensures fault { IfErr result (λ e. second ≡ Err e) }
{
    match second {
        Ok(second) => Ok((first, second)),
        Err(fault) => Err(fault),
    }
}

/// Puts one more thing, where it is made, behind others. It takes the memory of the list.
pub fn add<T: Drop>(list: &mut Vec<T>, made: Result<T, ElabFault>) -> Result<(), ElabFault>
    ensures { Adds list.old.items list.new.items made result }
{
    let next = made?;
    list.push(next)?;
    Ok(())
}
