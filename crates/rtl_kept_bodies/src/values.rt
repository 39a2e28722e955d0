//! Constants in the place of what is known in the branch of a reset.

ghost use Rattle.std.specs.Prelude.{◌≡◌, if◌then◌else◌, true, OnOk};
ghost use Rattle.rtl_model.specs.basics.Lists.{is_empty};
ghost use Rattle.rtl_model.specs.bodies.Leaves.{value_leaves};
ghost use Rattle.rtl_model.specs.bodies.Variables.{stmt_variables};
ghost use Rattle.rtl_net.specs.Bodies.{value_view, statement_view, statements_of};
ghost use Rattle.rtl_variable_registers.specs.Known as spec;
ghost use Rattle.rtl_kept_bodies.specs.Steps.{constant_view, CanCompute, CanEvaluate};
ghost use Rattle.rtl_model.specs.bodies.Body.{step, done};

use rtl_drives::Drives;
use rtl_eval::{Evaluated, SeenValues, set, value as elements_of};
use rtl_net::{Expr, Indices, Leaf, Statement, Value, Visit, walk_value};
use std::alloc::{AllocError, Global};
use std::mem;

/// Whether something is looked at.
#[derive(Drop)]
struct Looked {
    some: bool,
}

impl Visit for Looked {
    ghost takes = { λ old leaf new. new.some ≡ true };

    fn leaf(&mut self, _leaf: Leaf<'_>) {
        self.some = true;
    }
}

/// Whether a value looks at no signal and at no variable.
fn looks_at_nothing(value: &Value) -> bool
    ensures { result ≡ is_empty (value_leaves (value_view value.now)) }
{
    let mut looked = Looked { some: false };
    walk_value(value, &mut looked);
    !looked.some
}

/// The constant that a value is, which looks at no signal.
fn evaluated(value: &Value, out: &Drives) -> Evaluated
    requires { CanEvaluate out.now.variables (value_view value.now) }
    ensures { constant_view result ≡ spec.constant_of (spec.at_start out.now.variables) (value_view value.now) }
{
    let seen = SeenValues {
        current: &[],
        previous: &[],
        variables: out.variables(),
    };
    match value {
        Value::Elements(expr) => Evaluated::Elements(elements_of(expr, seen)),
        Value::Position(at) => Evaluated::Position(*at),
        Value::PositionOf(_) => Evaluated::Position(0),
        Value::PositionIn(element) => Evaluated::Position(seen.variables[*element as usize]),
    }
}

/// The constant in the place of a value that looks at something.
fn as_constant(value: Value, constant: Evaluated) -> Value
    ensures { value_view result ≡ (if is_empty (value_leaves (value_view value)) then value_view value
        else constant_view constant) }
{
    if looks_at_nothing(&value) {
        return value;
    }
    match constant {
        Evaluated::Elements(values) => Value::Elements(Expr::Constant(values)),
        Evaluated::Position(at) => Value::Position(at),
    }
}

/// Makes the value of an assignment a constant. What it assigns to variables, `out` has.
fn make_constant(statement: &mut Statement, out: &mut Drives)
    requires { CanCompute out.old.variables (step (statement_view statement.old) done) }
    ensures statement { statement_view statement.new
        ≡ spec.with_constant (spec.at_start out.old.variables) (statement_view statement.old) }
    ensures variables { out.new.variables
        ≡ stmt_variables (spec.at_start out.old.variables) (statement_view statement.old) }
{
    match statement {
        Statement::Assign { places, value } => {
            let places = mem::replace(places, Indices::Run { first: 0, len: 0 });
            let value = mem::replace(value, Value::Position(0));
            let constant = evaluated(&value, out);
            *statement = Statement::Assign {
                places,
                value: as_constant(value, constant),
            };
        }
        Statement::Set { elements, value } => {
            let elements = mem::replace(elements, Indices::Run { first: 0, len: 0 });
            let value = mem::replace(value, Value::Position(0));
            let constant = evaluated(&value, out);
            set(&elements, &constant, out);
            *statement = Statement::Set {
                elements,
                value: as_constant(value, constant),
            };
        }
        Statement::Null => {}
        Statement::AssignAt { .. } => {}
        Statement::SetAt { .. } => {}
        Statement::If { .. } => {}
        Statement::Case { .. } => {}
    }
}

/// Makes the values of assignments constants, where the variables start so.
pub(crate) fn make_constants(
    alloc: Global,
    starts: &[u8],
    statements: &mut [Statement],
) -> Result<(), AllocError>
    requires { CanCompute starts.now (statements_of statements.old) }
    ensures { OnOk result (statements_of statements.new
        ≡ spec.with_constants (spec.at_start starts.now) (statements_of statements.old)) }
{
    let mut out = Drives::new(alloc, 0, starts, 0)?;
    for i in 0..statements.len() {
        make_constant(&mut statements[i], &mut out);
    }
    Ok(())
}
