//! What a body copies that is one assignment of one element of a net, as it is or by `not`.

ghost use Rattle.std.specs.Prelude.{◌≡◌, option_map};
ghost use Rattle.rtl_model.specs.bodies.Copies.{copying};
ghost use Rattle.rtl_net.specs.Bodies.{expr_view, value_view, statements_of};
ghost use Rattle.rtl_net.specs.Indices.{numbers};
ghost use Rattle.rtl_process_kinds.specs.BodyViews as v;

use rtl_net::{Expr, Indices, Statement, Value};

/// A net that is copied, as it is or by `not`.
#[derive(Clone, Copy)]
pub struct Copied {
    pub net: usize,
    pub inverted: bool,
}

/// A copy, and the place of the driver that it is assigned to.
#[derive(Clone, Copy)]
pub struct BodyCopy {
    pub place: usize,
    pub copied: Copied,
}

/// The one number among these.
fn only(indices: &Indices) -> Option<usize>
    ensures { result ≡ v.only (numbers indices.now) }
{
    match indices {
        Indices::Run { first, len } => {
            if *len == 1 {
                return Some(*first as usize);
            }
            None
        }
        Indices::List(listed) => {
            if listed.len() == 1 {
                return Some(listed.as_slice()[0] as usize);
            }
            None
        }
    }
}

/// The net of an expression that is one element of a net.
fn element_net(expr: &Expr) -> Option<usize>
    ensures { result ≡ v.element_net (expr_view expr.now) }
{
    match expr {
        Expr::Signal(nets) => only(nets),
        Expr::Chain { first, rest } => {
            if rest.is_empty() {
                return element_net(first);
            }
            None
        }
        _ => None,
    }
}

/// The net that an expression copies.
fn copied_by(expr: &Expr) -> Option<Copied>
    ensures { result ≡ v.copied_by (expr_view expr.now) }
{
    match expr {
        Expr::Signal(nets) => {
            let net = only(nets)?;
            Some(Copied {
                net,
                inverted: false,
            })
        }
        Expr::Inverse(operand) => {
            let net = element_net(operand)?;
            Some(Copied {
                net,
                inverted: true,
            })
        }
        Expr::Chain { first, rest } => {
            if rest.is_empty() {
                return copied_by(first);
            }
            None
        }
        _ => None,
    }
}

/// The net that a value copies.
fn copied_value(value: &Value) -> Option<Copied>
    ensures { result ≡ v.copied_value (value_view value.now) }
{
    match value {
        Value::Elements(expr) => copied_by(expr),
        _ => None,
    }
}

/// What a body copies.
pub fn copy_of(body: &[Statement]) -> Option<BodyCopy>
    ensures { option_map v.copy_view result ≡ copying (statements_of body.now) }
{
    if body.len() != 1 {
        return None;
    }
    match &body[0] {
        Statement::Assign { places, value } => {
            let place = only(places)?;
            let copied = copied_value(value)?;
            Some(BodyCopy { place, copied })
        }
        _ => None,
    }
}
