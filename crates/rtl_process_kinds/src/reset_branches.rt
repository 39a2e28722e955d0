//! What processes do while their resets hold.

ghost use Rattle.std.specs.Prelude.{◌≡◌};
ghost use Rattle.rtl_net.specs.Bodies.{statement_view, statements_of};
ghost use Rattle.rtl_process_kinds.specs.ResetBranches as spec;

use rtl_net::Statement;

/// The first branch of an if.
fn first_branch(statement: &Statement) -> &[Statement]
    ensures { statements_of result.now ≡ spec.first_branch (statement_view statement.now) }
{
    match statement {
        Statement::If { branches, .. } => {
            if branches.is_empty() {
                return &[];
            }
            &branches[0].statements
        }
        _ => &[],
    }
}

/// The branch that a clocked process with this body runs while its reset holds, if it has one.
pub fn reset_branch(body: &[Statement]) -> &[Statement]
    ensures { statements_of result.now ≡ spec.reset_branch (statements_of body.now) }
{
    if body.is_empty() {
        return &[];
    }
    first_branch(&body[body.len() - 1])
}
