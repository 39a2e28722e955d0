//! Sums of static multiples of what a run computes (IEEE 1076-2008, 8.5).

ghost use Rattle.std.specs.Prelude.{◌≡◌, map, position, IfOk};
ghost use Rattle.vhdl_expand_operands.specs.Results.{Expands};
ghost use Rattle.rtl_net.specs.Bodies.{expr_view};
ghost use Rattle.vhdl_expand_rules.specs.Linear as definition;
ghost use Rattle.vhdl_expand_rules.specs.SameExpr.{same_expr};
ghost use Rattle.vhdl_expand_numbers.specs.Views.{linear_view, term_view};

use rtl_net::Expr;
use std::alloc::{AllocError, Global};
use vhdl_expand_rules::{ElabFault, ElabProblem, operated};
use vhdl_expand_same::same_expr;
use vhdl_names_rules::Arithmetic;

/// How many terms a sum may have: each is compared with each.
const MOST_TERMS: usize = 64;

/// A computed number, so many times.
#[derive(Drop)]
pub struct Term {
    pub number: Expr,
    pub factor: i32,
}

/// Terms, no two of one number, and a static rest.
#[derive(Drop)]
pub struct Linear {
    pub terms: Vec<Term>,
    pub rest: i32,
}

/// The place of the first term of a number.
fn place_of(terms: &[Term], number: &Expr) -> Option<usize>
    ensures { result ≡ position (λ t. same_expr (expr_view t.number) (expr_view number.now)) terms.now }
{
    terms
        .iter()
        .position(|term| same_expr(&term.number, number))
}

/// A term more, with the operator at byte `at`; a fault is StaticError.
fn add_term(terms: &mut Vec<Term>, term: Term, at: usize) -> Result<(), ElabFault>
    ensures { Expands (λ _. map term_view terms.new.items)
        (definition.with_term at (map term_view terms.old.items) (term_view term)) result }
{
    match place_of(terms, &term.number) {
        Some(place) => {
            let factor = operated(Arithmetic::Add, terms[place].factor, term.factor, at)?;
            terms[place].factor = factor;
            Ok(())
        }
        None => {
            terms.push(term)?;
            Ok(())
        }
    }
}

impl Linear {
    /// A static integer.
    pub fn known(alloc: Global, number: i32) -> Linear
        ensures { linear_view result ≡ definition.static_rest number }
    {
        Linear {
            terms: Vec::new(alloc),
            rest: number,
        }
    }

    /// A computed number. It takes the memory of a list.
    pub fn of(alloc: Global, number: Expr) -> Result<Linear, AllocError>
        ensures { IfOk result (λ x. linear_view x ≡ definition.one_term (expr_view number)) }
    {
        let mut terms = Vec::with_capacity(alloc, 1)?;
        terms.push(Term { number, factor: 1 })?;
        Ok(Linear { terms, rest: 0 })
    }

    /// Whether each term falls out.
    pub fn is_static(&self) -> bool
        ensures { result ≡ definition.is_static (linear_view self.now) }
    {
        for term in &self.terms {
            if term.factor != 0 {
                return false;
            }
        }
        true
    }

    /// So many times this, with the operator at byte `at`; a fault is StaticError.
    #[tactic(auto, unfolding(vhdl_expand_rules::specs::Linear::times))]
    pub fn times(self, factor: i32, at: usize) -> Result<Linear, ElabFault>
        ensures { Expands linear_view (definition.times at factor (linear_view self)) result }
    {
        let rest = operated(Arithmetic::Multiply, factor, self.rest, at)?;
        let mut terms = self.terms;
        for place in 0..terms.len() {
            let product = operated(Arithmetic::Multiply, factor, terms[place].factor, at)?;
            terms[place].factor = product;
        }
        Ok(Linear { terms, rest })
    }

    /// Another added to this, with the operator at byte `at`; a fault is StaticError.
    #[tactic(auto, unfolding(vhdl_expand_rules::specs::Linear::added))]
    pub fn plus(self, other: Linear, at: usize) -> Result<Linear, ElabFault>
        ensures { Expands linear_view (definition.added at (linear_view self) (linear_view other)) result }
    {
        let rest = operated(Arithmetic::Add, self.rest, other.rest, at)?;
        let mut terms = self.terms;
        for term in other.terms {
            add_term(&mut terms, term, at)?;
        }
        if terms.len() > MOST_TERMS {
            drop(terms);
            return Err(ElabProblem::StaticError.at(at));
        }
        Ok(Linear { terms, rest })
    }

    /// The opposite of this, by a sign at byte `at`; a fault is StaticError.
    pub fn opposite(self, at: usize) -> Result<Linear, ElabFault>
        ensures { Expands linear_view (definition.opposite at (linear_view self)) result }
    {
        self.times(-1, at)
    }

    /// This less another, with the operator at byte `at`; a fault is StaticError.
    pub fn less(self, other: Linear, at: usize) -> Result<Linear, ElabFault>
        ensures { Expands linear_view (definition.less at (linear_view self) (linear_view other)) result }
    {
        let opposite = other.opposite(at)?;
        self.plus(opposite, at)
    }
}
