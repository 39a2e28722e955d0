//! Bodies in place: nets for elements, and drivers for what is assigned (IEEE 1076-2008, clause 10,
//! 14.7.2).

ghost use Rattle.std.specs.Prelude.{◌≡◌, All, Contains, OnOk};
ghost use Rattle.rtl_net.specs.Bodies.{statement_view, statements_of};
ghost use Rattle.vhdl_expand_rules.specs.laws.Trees.{StmtAssigns, Assigns};
ghost use Rattle.vhdl_elab_rules.specs.Bodies.{connected_body};
ghost use Rattle.vhdl_connect_processes.specs.Connected.{Became, IsRising, statement_in, branch_view, branch_in, alternative_view, alternative_in};

use crate::connection::Connection;
use rtl_net::{Alternative, Branch, Statement};
use std::alloc::AllocError;

impl Connection<'_> {
    /// Puts nets in place of the elements that a body reads, and places of drivers in place of
    /// those that it assigns, which have one each. It takes the memory of lists of them, and time
    /// for each name in the body.
    pub fn connect_body(&self, body: &mut [Statement]) -> Result<(), AllocError>
        requires rising { IsRising self.now.drives.now }
        requires driven { Assigns (Contains self.now.drives.now) (statements_of body.old) }
        ensures { OnOk result (statements_of body.new ≡
            connected_body self.now.nets.now self.now.drives.now (statements_of body.old)) }
    {
        self.connect_statements(body)
    }

    /// The same of each of these statements.
    #[cycle(statement)]
    fn connect_statements(&self, statements: &mut [Statement]) -> Result<(), AllocError>
        requires rising { IsRising self.now.drives.now }
        requires driven { All (λ s. StmtAssigns (Contains self.now.drives.now) (statement_view s)) statements.old }
        ensures { OnOk result (Became statement_view (statement_in self.now) statements.old statements.new) }
    {
        for i in 0..statements.len() {
            self.connect_statement(&mut statements[i])?;
        }
        Ok(())
    }

    /// The same of a statement.
    #[cycle(statement)]
    fn connect_statement(&self, statement: &mut Statement) -> Result<(), AllocError>
        requires rising { IsRising self.now.drives.now }
        requires driven { StmtAssigns (Contains self.now.drives.now) (statement_view statement.old) }
        ensures { OnOk result (statement_view statement.new ≡ statement_in self.now (statement_view statement.old)) }
    {
        match statement {
            Statement::Null => Ok(()),
            Statement::Assign { places, value } => {
                *places = self.places_of(places)?;
                self.connect_value(value)
            }
            Statement::Set { value, .. } => self.connect_value(value),
            Statement::AssignAt {
                index,
                places,
                value,
                ..
            } => {
                *places = self.places_of(places)?;
                self.connect_exprs(index, value)
            }
            Statement::SetAt { index, value, .. } => self.connect_exprs(index, value),
            Statement::If {
                branches,
                otherwise,
                ..
            } => {
                self.connect_branches(branches)?;
                match otherwise {
                    None => Ok(()),
                    Some(last) => self.connect_statements(last),
                }
            }
            Statement::Case {
                selector,
                alternatives,
                others,
                ..
            } => {
                self.connect_value(selector)
                    .and(self.connect_alternatives(alternatives))
                    .and(self.connect_statements(others))
            }
        }
    }

    /// The same of the branches of an if.
    #[cycle(statement)]
    fn connect_branches(&self, branches: &mut [Branch]) -> Result<(), AllocError>
        requires rising { IsRising self.now.drives.now }
        requires driven { All (λ b. Assigns (Contains self.now.drives.now) (statements_of b.statements.items))
            branches.old }
        ensures { OnOk result (Became branch_view (branch_in self.now) branches.old branches.new) }
    {
        for i in 0..branches.len() {
            self.connect_branch(&mut branches[i])?;
        }
        Ok(())
    }

    /// The same of a branch.
    #[cycle(statement)]
    fn connect_branch(&self, branch: &mut Branch) -> Result<(), AllocError>
        requires rising { IsRising self.now.drives.now }
        requires driven { Assigns (Contains self.now.drives.now) (statements_of branch.old.statements.items) }
        ensures { OnOk result (branch_view branch.new ≡ branch_in self.now (branch_view branch.old)) }
    {
        self.connect_test(&mut branch.test)
            .and(self.connect_statements(&mut branch.statements))
    }

    /// The same of the alternatives of a case.
    #[cycle(statement)]
    fn connect_alternatives(&self, alternatives: &mut [Alternative]) -> Result<(), AllocError>
        requires rising { IsRising self.now.drives.now }
        requires driven { All (λ a. Assigns (Contains self.now.drives.now) (statements_of a.statements.items))
            alternatives.old }
        ensures { OnOk result (Became alternative_view (alternative_in self.now) alternatives.old alternatives.new) }
    {
        for i in 0..alternatives.len() {
            self.connect_alternative(&mut alternatives[i])?;
        }
        Ok(())
    }

    /// The same of an alternative.
    #[cycle(statement)]
    fn connect_alternative(&self, alternative: &mut Alternative) -> Result<(), AllocError>
        requires rising { IsRising self.now.drives.now }
        requires driven { Assigns (Contains self.now.drives.now) (statements_of alternative.old.statements.items) }
        ensures { OnOk result (alternative_view alternative.new ≡
            alternative_in self.now (alternative_view alternative.old)) }
    {
        self.connect_statements(&mut alternative.statements)
    }
}
