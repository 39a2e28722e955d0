//! A signal's or port's name in a text, and lists of names.

ghost use Rattle.std.specs.Prelude.{◌≡◌, false, [], ◌∷◌, IfOk};
ghost use Rattle.vhdl_names_trees.specs.views.Vectors.{place_view, signal_view};
ghost use Rattle.vhdl_expand_processes.specs.Named.{name_view, named_by, whole_of};
ghost use Rattle.vhdl_expand_processes.specs.Adding.{Adds};

use std::alloc::{AllocError, Global};
use vhdl_names_trees::{Signal, SignalPart};

/// A name as it stands in the text, or the whole of a signal or port.
#[derive(Clone, Copy)]
pub enum Name<'a> {
    Written(&'a SignalPart),
    Whole(Signal),
}

/// Names so far, unless memory was wanting.
#[derive(Drop)]
pub(crate) struct Gathered<'a> {
    pub found: Vec<Name<'a>>,
    pub failed: bool,
}

impl<'a> Gathered<'a> {
    /// None so far.
    pub(crate) fn new(alloc: Global) -> Gathered<'a>
        ensures names { named_by result.found ≡ [] }
        ensures failed { result.failed ≡ false }
    {
        Gathered {
            found: Vec::new(alloc),
            failed: false,
        }
    }

    /// Puts a name behind them.
    fn add(&mut self, name: Name<'a>)
        ensures { Adds self.old self.new (name_view name.entry ∷ []) }
    {
        if !self.failed {
            self.failed = self.found.push(name).is_err();
        }
    }

    /// Puts a name as it stands in the text behind them.
    pub(crate) fn add_place(&mut self, name: &'a SignalPart)
        ensures { Adds self.old self.new (place_view name.now ∷ []) }
    {
        self.add(Name::Written(name));
    }

    /// Puts the whole of a signal or port behind them.
    pub(crate) fn add_whole(&mut self, signal: Signal)
        ensures { Adds self.old self.new (whole_of (signal_view signal) ∷ []) }
    {
        self.add(Name::Whole(signal));
    }

    /// All of them.
    pub(crate) fn whole(self) -> Result<Vec<Name<'a>>, AllocError>
        ensures failed { IfOk result (λ v. self.entry.failed ≡ false) }
        ensures names { IfOk result (λ v. named_by v ≡ named_by self.entry.found) }
    {
        if self.failed {
            return Err(AllocError);
        }
        Ok(self.found)
    }
}
