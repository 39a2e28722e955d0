//! Names of one declaration.

ghost use Rattle.std.specs.Prelude.{◌≡◌, map, IfOk};
ghost use Rattle.vhdl_tree.specs.View.{ident_view, idents_view};

use std::alloc::{AllocError, Global};
use vhdl_names_units::copied;
use vhdl_tree::Identifier;

/// A copy of the names of one declaration.
pub fn copied_names(alloc: Global, names: &[Identifier]) -> Result<Vec<Identifier>, AllocError>
    ensures { IfOk result (λ v. idents_view v ≡ map ident_view names.now) }
{
    let mut done = Vec::new(alloc);
    for name in names {
        done.push(copied(alloc, name)?)?;
    }
    Ok(done)
}
