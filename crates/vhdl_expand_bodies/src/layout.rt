//! Ports or signals one behind another (IEEE 1076-2008, 14.3).

ghost use Rattle.std.specs.Prelude.{◌≡◌, ◌+◌, ◌^◌, ◌<◌, ◌≤◌, ◌++◌, [], ◌∷◌, map, OnErr, OnOk};
ghost use Rattle.rtl_model.specs.bodies.Fits.{IsWidth};
ghost use Rattle.vhdl_expand_rules.specs.Kinds.{size};
ghost use Rattle.vhdl_expand_rules.specs.Site.{elements_count};
ghost use Rattle.vhdl_expand_rules.specs.views.Kinds.{kind_view};
ghost use Rattle.vhdl_expand_bodies.specs.Sites.{ArePlaced, placed_kind};

use crate::site::Placed;
use std::alloc::{AllocError, Global};
use vhdl_expand_rules::ObjectKind;

/// Things whose elements are numbered from 0 on, each behind those before it, and how many elements
/// they have together.
#[derive(Drop)]
pub struct Layout {
    pub things: Vec<Placed>,
    pub elements: u32,
    ghost are_placed: { ArePlaced things.items },
    ghost all_counted: { elements ≡ elements_count (map placed_kind things.items) },
}

impl Layout {
    /// Of nothing.
    pub fn new(alloc: Global) -> Layout
        ensures { map placed_kind result.things.items ≡ [] }
    {
        Layout {
            things: Vec::new(alloc),
            elements: 0,
        }
    }

    /// Puts a thing of this kind behind the others, where the numbers of all elements fit a word.
    /// It takes the memory of the list.
    pub fn add(&mut self, kind: ObjectKind) -> Result<(), AllocError>
        requires width { IsWidth (size (kind_view kind)) }
        requires few { self.old.elements + size (kind_view kind) < 2 ^ 32 }
        ensures grows { self.new.elements ≤ self.old.elements + size (kind_view kind) }
        ensures ok { OnOk result (map placed_kind self.new.things.items ≡ map placed_kind self.old.things.items
            ++ kind_view kind ∷ []) }
        ensures err { OnErr result (map placed_kind self.new.things.items ≡ map placed_kind self.old.things.items) }
    {
        let first = self.elements;
        self.things.push(Placed { kind, first })?;
        self.elements += kind.size() as u32;
        Ok(())
    }
}
