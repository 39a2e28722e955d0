//! What is left of the limits of elaboration while the tree is made.

ghost use Rattle.std.specs.Prelude.{◌≡◌, IfErr, OnErr};
ghost use Rattle.vhdl_expand_rules.specs.declared.fault.ElabFault.TheVariants.{At};
ghost use Rattle.vhdl_expand_rules.specs.declared.fault.ElabProblem.TheVariants.{TooMany};
ghost use Rattle.vhdl_expand_rules.specs.views.Integers.{Makes};
ghost use Rattle.vhdl_expand_tree.specs.Costs as costs;
ghost use Rattle.vhdl_elab_rules.specs.Limits.{limits};
ghost use Rattle.vhdl_expand_tree.specs.Costs.{spent, a_process, an_instance, a_statement, turns, nets, variable_elements};
ghost use Rattle.vhdl_expand_tree.specs.Views.{budget_view};

use vhdl_expand_rules::{ElabFault, ElabProblem};

/// How many parts of each sort may still be made.
#[derive(Clone, Copy)]
pub struct Budget {
    pub processes: u32,
    pub instances: u32,
    pub nets: u32,
    /// Turns of loops and generates, each turn of an outer one with those inside it.
    pub turns: u32,
    /// Statements of unrolled bodies.
    pub statements: u32,
    pub variable_elements: u32,
}

impl Budget {
    /// What a whole design may have.
    pub fn whole() -> Budget
        ensures { budget_view result ≡ limits }
    {
        Budget {
            processes: 65_536,
            instances: 65_536,
            nets: 1_048_576,
            turns: 4_194_304,
            statements: 1_048_576,
            variable_elements: 1_048_576,
        }
    }

    /// Takes a process, which starts at byte `at`; where none is left, nothing is taken, and the
    /// fault is TooMany there.
    pub fn charge_process(&mut self, at: usize) -> Result<(), ElabFault>
        ensures spent { Makes (λ _. budget_view self.new) (spent at (budget_view self.old) a_process) result }
        ensures fault { IfErr result (λ fault. fault ≡ At TooMany at) }
        ensures kept { OnErr result (self.new ≡ self.old) }
    {
        self.processes = left(self.processes, 1, at)?;
        Ok(())
    }

    /// Takes an instance, whose label starts at byte `at`; where none is left, nothing is taken,
    /// and the fault is TooMany there.
    pub fn charge_instance(&mut self, at: usize) -> Result<(), ElabFault>
        ensures spent { Makes (λ _. budget_view self.new) (spent at (budget_view self.old) an_instance) result }
        ensures fault { IfErr result (λ fault. fault ≡ At TooMany at) }
        ensures kept { OnErr result (self.new ≡ self.old) }
    {
        self.instances = left(self.instances, 1, at)?;
        Ok(())
    }

    /// Takes a statement of an unrolled body; where none is left, nothing is taken, and the fault
    /// is TooMany at this byte.
    pub fn charge_statement(&mut self, at: usize) -> Result<(), ElabFault>
        ensures spent { Makes (λ _. budget_view self.new) (spent at (budget_view self.old) a_statement) result }
        ensures fault { IfErr result (λ fault. fault ≡ At TooMany at) }
        ensures kept { OnErr result (self.new ≡ self.old) }
    {
        self.statements = left(self.statements, 1, at)?;
        Ok(())
    }

    /// Takes so many turns of a loop or generate, whose range starts at byte `at`; where fewer are
    /// left, nothing is taken, and the fault is TooMany there.
    pub fn charge_turns(&mut self, count: usize, at: usize) -> Result<(), ElabFault>
        ensures spent { Makes (λ _. budget_view self.new) (spent at (budget_view self.old) (turns count)) result }
        ensures fault { IfErr result (λ fault. fault ≡ At TooMany at) }
        ensures kept { OnErr result (self.new ≡ self.old) }
    {
        self.turns = left(self.turns, count, at)?;
        Ok(())
    }

    /// Takes so many nets, of an object at byte `at`; where fewer are left, nothing is taken, and
    /// the fault is TooMany there.
    pub fn charge_nets(&mut self, count: usize, at: usize) -> Result<(), ElabFault>
        ensures spent { Makes (λ _. budget_view self.new) (spent at (budget_view self.old) (nets count)) result }
        ensures fault { IfErr result (λ fault. fault ≡ At TooMany at) }
        ensures kept { OnErr result (self.new ≡ self.old) }
    {
        self.nets = left(self.nets, count, at)?;
        Ok(())
    }

    /// Takes so many elements of variables of the process at byte `at`; where fewer are left,
    /// nothing is taken, and the fault is TooMany there.
    pub fn charge_variables(&mut self, count: usize, at: usize) -> Result<(), ElabFault>
        ensures spent { Makes (λ _. budget_view self.new) (spent at (budget_view self.old) (variable_elements count))
            result }
        ensures fault { IfErr result (λ fault. fault ≡ At TooMany at) }
        ensures kept { OnErr result (self.new ≡ self.old) }
    {
        self.variable_elements = left(self.variable_elements, count, at)?;
        Ok(())
    }
}

/// What is left of so many when so many are taken; where there are fewer, the fault is TooMany at
/// this byte.
fn left(of: u32, taken: usize, at: usize) -> Result<u32, ElabFault>
    ensures given { Makes (λ rest. rest) (costs.left at of taken) result }
    ensures fault { IfErr result (λ fault. fault ≡ At TooMany at) }
{
    if taken > of as usize {
        return Err(ElabProblem::TooMany.at(at));
    }
    Ok(of - taken as u32)
}
