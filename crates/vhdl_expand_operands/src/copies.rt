//! Expressions once more.

ghost use Rattle.std.specs.Prelude.{◌≡◌, IfOk};
ghost use Rattle.rtl_model.specs.bodies.Body as bodies;
ghost use Rattle.rtl_net.specs.Bodies.{rows_view, expr_view, links_of};
ghost use Rattle.rtl_net.specs.Indices.{numbers};

use rtl_net::{Expr, Indices, Link, RowsOf};
use smallvec::SmallVec;
use std::alloc::{AllocError, Global};

/// The elements of a name once more. It takes the memory of a list.
fn indices_copied(alloc: Global, indices: &Indices) -> Result<Indices, AllocError>
    ensures { IfOk result (λ i. numbers i ≡ numbers indices.now) }
{
    match indices {
        Indices::Run { first, len } => Ok(Indices::Run {
            first: *first,
            len: *len,
        }),
        Indices::List(listed) => {
            let listed = SmallVec::from_slice(alloc, listed.as_slice())?;
            Ok(Indices::List(listed))
        }
    }
}

/// An expression once more. It takes the memory of boxes and lists.
#[cycle(copied)]
#[tactic(auto, using(rtl_net::proofs::Rows::view_chain))]
pub(crate) fn copied(alloc: Global, expr: &Expr) -> Result<Expr, AllocError>
    ensures { IfOk result (λ e. expr_view e ≡ expr_view expr.now) }
{
    match expr {
        Expr::Signal(nets) => Ok(Expr::Signal(indices_copied(alloc, nets)?)),
        Expr::Variable(elements) => Ok(Expr::Variable(indices_copied(alloc, elements)?)),
        Expr::Constant(values) => Ok(Expr::Constant(*values)),
        Expr::Inverse(operand) => {
            let operand = copied(alloc, operand)?;
            Ok(Expr::Inverse(Box::new(alloc, operand)?))
        }
        Expr::Filled { len, element } => {
            let element = copied(alloc, element)?;
            let element = Box::new(alloc, element)?;
            Ok(Expr::Filled { len: *len, element })
        }
        Expr::Chain { first, rest } => {
            let first = copied(alloc, first)?;
            let first = Box::new(alloc, first)?;
            let rest = links_copied(alloc, rest)?;
            Ok(Expr::Chain { first, rest })
        }
        Expr::Counted {
            operator,
            count,
            operand,
        } => {
            let operand = copied(alloc, operand)?;
            Ok(Expr::Counted {
                operator: *operator,
                count: *count,
                operand: Box::new(alloc, operand)?,
            })
        }
        Expr::Shifted {
            operator,
            count,
            operand,
        } => {
            let count = copied(alloc, count)?;
            let count = Box::new(alloc, count)?;
            let operand = copied(alloc, operand)?;
            Ok(Expr::Shifted {
                operator: *operator,
                count,
                operand: Box::new(alloc, operand)?,
            })
        }
        Expr::Converted {
            conversion,
            operand,
        } => {
            let operand = copied(alloc, operand)?;
            Ok(Expr::Converted {
                conversion: *conversion,
                operand: Box::new(alloc, operand)?,
            })
        }
        Expr::Chosen {
            index,
            spacing,
            rows,
        } => {
            let index = copied(alloc, index)?;
            let index = Box::new(alloc, index)?;
            Ok(Expr::Chosen {
                index,
                spacing: *spacing,
                rows: rows_copied(alloc, rows)?,
            })
        }
    }
}

/// What rows lie in once more. It takes the memory of a list.
fn rows_copied(alloc: Global, rows: &RowsOf) -> Result<RowsOf, AllocError>
    ensures { IfOk result (λ r. rows_view r ≡ rows_view rows.now) }
{
    match rows {
        RowsOf::Signals(nets) => Ok(RowsOf::Signals(indices_copied(alloc, nets)?)),
        RowsOf::Variables(elements) => Ok(RowsOf::Variables(indices_copied(alloc, elements)?)),
        RowsOf::Constants(values) => Ok(RowsOf::Constants(Vec::from_slice(alloc, values)?)),
    }
}

/// Operators with their right operands once more. It takes the memory of the list.
#[cycle(copied)]
fn links_copied(alloc: Global, links: &[Link]) -> Result<Vec<Link>, AllocError>
    ensures { IfOk result (λ v. (left : bodies.Expr) → links_of left v.items ≡ links_of left links.now) }
{
    let mut list = Vec::new(alloc);
    for link in links {
        let operand = copied(alloc, &link.operand)?;
        list.push(Link {
            operator: link.operator,
            operand,
        })?;
    }
    Ok(list)
}
