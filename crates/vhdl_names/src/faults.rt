//! Which of two answers is told.

ghost use Rattle.std.specs.Prelude.{◌≡◌, IfOk, IfErr, Ok, Err};
ghost use Rattle.vhdl_names.specs.Finding as steps;
ghost use Rattle.vhdl_names.specs.Finding.{Finds, HasMemory};
ghost use Rattle.vhdl_names_rules.specs.problems.Broken.{Broken, earlier};

use vhdl_names_rules::NameFault;
use vhdl_names_units::earlier_in;

/// Of two answers in order of the text the first that is refused; want of memory comes before all.
pub fn first_of(told: Result<(), NameFault>, next: Result<(), NameFault>) -> Result<(), NameFault>
    ensures { result ≡ steps.first_of told next }
{
    match (told, next) {
        (Err(NameFault::NoMemory), _) => Err(NameFault::NoMemory),
        (_, Err(NameFault::NoMemory)) => Err(NameFault::NoMemory),
        (Err(fault), _) => Err(fault),
        (Ok(()), next) => next,
    }
}

/// Of two answers that stand among each other in the text the one that is refused at the earlier
/// byte, of two at one byte the first; want of memory comes before all.
pub fn earlier_of<T: Drop>(
    told: Result<(), NameFault>,
    next: Result<T, NameFault>,
) -> Result<T, NameFault>
    ensures told { (a b : Broken) → Finds a told → Finds b next → Finds (earlier a b) result }
    ensures memory { HasMemory result → HasMemory told × HasMemory next }
    ensures both { IfOk result (λ x. (told ≡ Ok tt) × (next ≡ Ok x)) }
{
    match told {
        Ok(()) => next,
        Err(fault) => Err(earlier_in(fault, next)),
    }
}

/// A thing beside an answer; where that is refused the thing is let go.
pub fn beside<T: Drop, U>(thing: T, answer: Result<U, NameFault>) -> Result<(T, U), NameFault>
    ensures both { IfOk result (λ p. (p.0 ≡ thing) × (answer ≡ Ok p.1)) }
    ensures told { IfErr result (λ f. answer ≡ Err f) }
{
    match answer {
        Ok(found) => Ok((thing, found)),
        Err(fault) => Err(fault),
    }
}
