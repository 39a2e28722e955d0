//! The actuals of an instance's generics or ports (IEEE 1076-2008, 6.5.7).

ghost use Rattle.std.specs.Prelude.{◌≡◌, ◌<◌, ◌+◌, ◌^◌, ◌++◌, ◌∷◌, [], length, map, None, option_map, replicate, IfOk, OnOk};
ghost use Rattle.vhdl_names_units.specs.views.Actuals.{each_actual};

use drops::take_apart;
use std::alloc::{AllocError, Global};

/// An actual, behind so many formals that have none.
pub struct Actual<T> {
    pub open: usize,
    pub value: T,
}

impl<T: Drop> Drop for Actual<T> {
    fn drop(self) {
        take_apart!(self: { open, value });
    }
}

/// The actual of each generic or port of an instance, in their order. A formal whose actual is open
/// or not associated has none. A short source may leave most formals so: they are counted, and take
/// no memory. `open` counts those behind the last actual.
pub struct Actuals<T> {
    pub given: Vec<Actual<T>>,
    pub open: usize,
}

impl<T: Drop> Drop for Actuals<T> {
    fn drop(self) {
        take_apart!(self: { given, open });
    }
}

impl<T: Drop> Actuals<T> {
    /// Of no formals. It takes no memory.
    pub fn none(alloc: Global) -> Actuals<T>
        ensures { each_actual result ≡ [] }
    {
        Actuals {
            given: Vec::new(alloc),
            open: 0,
        }
    }

    /// Puts a formal behind the others, with its actual, if it has one.
    pub fn push(&mut self, actual: Option<T>) -> Result<(), AllocError>
        requires fits { length (each_actual self.old) + 1 < 2 ^ 64 }
        ensures { OnOk result (each_actual self.new ≡ each_actual self.old ++ actual ∷ []) }
    {
        let open = self.open;
        match actual {
            None => {
                self.open = open + 1;
            }
            Some(value) => {
                self.given.push(Actual { open, value })?;
                self.open = 0;
            }
        }
        Ok(())
    }

    /// A list of them. It takes the memory of the list.
    pub fn listed(&self, alloc: Global) -> Result<Vec<Option<&T>>, AllocError>
        ensures { IfOk result (λ list. map (option_map (λ value. value.now)) list.items ≡ each_actual self.now) }
    {
        let mut list = Vec::new(alloc);
        for actual in &self.given {
            push_open(&mut list, actual.open)?;
            list.push(Some(&actual.value))?;
        }
        push_open(&mut list, self.open)?;
        Ok(list)
    }
}

/// Puts so many formals that have no actual behind others.
fn push_open<T>(list: &mut Vec<Option<&T>>, count: usize) -> Result<(), AllocError>
    ensures { OnOk result (list.new.items ≡ list.old.items ++ replicate count None) }
{
    for _ in 0..count {
        list.push(None)?;
    }
    Ok(())
}
