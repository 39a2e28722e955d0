//! Which of several faults is told: the first in order of the text.

ghost use Rattle.std.specs.Prelude.{◌≡◌, ◌≢◌, IfErr, IfOk};
ghost use Rattle.vhdl_names_units.specs.Faults as rules;
ghost use Rattle.vhdl_names_rules.specs.problems.Broken as broken;
ghost use Rattle.vhdl_names_rules.specs.problems.Broken.{Broken, Tells, nothing};
ghost use Rattle.vhdl_names_rules.specs.declared.fault.NameFault.TheVariants.{NoMemory};

use vhdl_names_rules::NameFault;

/// The earlier of two faults, the first of two at one byte; want of memory comes before all.
pub fn earlier(fault: NameFault, other: NameFault) -> NameFault
    ensures first { result ≡ rules.earlier fault other }
    ensures memory { result ≢ NoMemory → (fault ≢ NoMemory) × (other ≢ NoMemory) }
    ensures told { (a b : Broken) → Tells a fault → Tells b other → Tells (broken.earlier a b) result }
{
    match (fault, other) {
        (NameFault::At { at, .. }, NameFault::At { at: place, .. }) => {
            if place < at { other } else { fault }
        }
        _ => NameFault::NoMemory,
    }
}

/// The earlier of a fault and that of an answer, if it is refused.
pub fn earlier_in<T: Drop>(fault: NameFault, answer: Result<T, NameFault>) -> NameFault
    ensures given { result ≢ NoMemory → fault ≢ NoMemory }
    ensures other { IfErr answer (λ other. result ≢ NoMemory → other ≢ NoMemory) }
    ensures told { (a b : Broken) → Tells a fault → IfErr answer (Tells b) → IfOk answer (λ _. b ≡ nothing)
        → Tells (broken.earlier a b) result }
{
    match answer {
        Ok(_) => fault,
        Err(other) => earlier(fault, other),
    }
}
