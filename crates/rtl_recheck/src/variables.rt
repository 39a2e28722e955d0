//! Whether a process keeps a variable's value from one run to the next, without memory.

ghost use Rattle.std.specs.Prelude.{◌≡◌, ◌↔◌, ◌<◌, ◌≤◌, ℕ, length, false, IsTrue, All};
ghost use Rattle.rtl_net.specs.Bodies.{statements_of};
ghost use Rattle.rtl_model.specs.bodies.Stored.{stores_element};
ghost use Rattle.rtl_net.specs.Core.{core};
ghost use Rattle.rtl_check.specs.Places.{places_from, widths};
ghost use Rattle.rtl_recheck.specs.Kept.{HasFew, StoresNone, StoresNothing};

use rtl_body_facts::body_stores;
use rtl_net::{Net, Statement, Variable};

/// How many elements a variable has: a vector has 64 at most.
fn elements_in(variable: &Variable) -> usize
    requires { HasFew variable.now }
    ensures are { result ≡ length variable.now.starts.items }
    ensures few { result ≤ 64 }
{
    variable.starts.len()
}

/// How many elements some variables have.
fn elements_of(variables: &[Variable]) -> usize
    requires { All HasFew variables.now }
    ensures { result ≡ length (places_from 0 (widths variables.now)) }
{
    let mut elements = 0;
    for variable in variables {
        elements += elements_in(variable);
    }
    elements
}

/// Whether a body stores none of so many variable elements.
fn stores_none(body: &[Statement], elements: usize) -> bool
    ensures { IsTrue result ↔ StoresNone (statements_of body.now) elements }
{
    for element in 0..elements {
        if body_stores(body, element) {
            return false;
        }
    }
    true
}

/// Whether a process stores no variable.
pub fn stores_nothing(net: &Net, process: usize) -> bool
    requires { process < length net.now.processes }
    ensures { IsTrue result ↔ StoresNothing (core net.now) process }
{
    net.is_elaborated();
    let processes = net.processes();
    let each = &processes[process];
    stores_none(&each.body, elements_of(&each.variables))
}
