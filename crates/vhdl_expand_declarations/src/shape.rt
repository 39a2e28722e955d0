//! What objects of one declaration are and start with (IEEE 1076-2008, 6.4.2.3, 6.5.2).

ghost use Rattle.std.specs.Prelude.{◌≡◌, option_map, IfOk};
ghost use Rattle.rtl_model.specs.bodies.Fits.{IsWidth};
ghost use Rattle.vhdl_expand_tree.specs.Views.{object_view, role_view};
ghost use Rattle.vhdl_expand_rules.specs.Kinds.{size};
ghost use Rattle.vhdl_expand_rules.specs.views.Kinds.{kind_view};
ghost use Rattle.vhdl_expand_operands.specs.Results.{Expands};
ghost use Rattle.vhdl_expand_bodies.specs.Sites.{IsSite, site_view};
ghost use Rattle.vhdl_tree.specs.View.{ident_view};
ghost use Rattle.vhdl_names_units.specs.views.Answers.{fixed_view, form_view};
ghost use Rattle.vhdl_expand_declarations.specs.Objects.{named_object, shape_of, shaped};

use smallvec::SmallVec;
use std::alloc::{AllocError, Global};
use vhdl_expand_bodies::Site;
use vhdl_expand_processes::{kind, starts};
use vhdl_expand_rules::{ElabFault, ObjectKind};
use vhdl_expand_tree::{Object, Role};
use vhdl_names_units::Objects;
use vhdl_tree::Identifier;

/// What an object is, and what its elements start with, from the left.
#[derive(Drop)]
pub(crate) struct Shape {
    kind: ObjectKind,
    starts: SmallVec<u8, 8>,
    ghost is_some: { IsWidth (size (kind_view kind)) },
}

impl Shape {
    /// Of objects of a declaration; a fault is StaticError, GenericRange, Length, Index or TooWide,
    /// at this byte where no operator is to blame. It takes the memory of the list.
    pub(crate) fn of(
        alloc: Global,
        site: &Site,
        objects: &Objects,
        at: usize,
    ) -> Result<Shape, ElabFault>
        requires { IsSite site.now }
        ensures { Expands (λ shape. (kind_view shape.kind, shape.starts.items))
            (shape_of (site_view site.now) at (form_view objects.now.form) (option_map fixed_view objects.now.default))
            result }
    {
        let kind = kind(&site.integers, &objects.form, at)?;
        let starts = starts(alloc, site, kind, &objects.default, at)?;
        Ok(Shape { kind, starts })
    }

    /// The object of this name among those of a declaration. It takes the memory of copies.
    pub(crate) fn object(
        &self,
        alloc: Global,
        role: Role,
        objects: &Objects,
        name: &Identifier,
    ) -> Result<Object, AllocError>
        ensures given { IfOk result (λ object. object_view object ≡
            shaped (kind_view self.now.kind, self.now.starts.items) (role_view role)
            (named_object objects.now (ident_view name.now))) }
        ensures width { IfOk result (λ object. IsWidth (size (kind_view object.kind))) }
    {
        Ok(Object {
            name: name.text.to_vec(alloc)?,
            role,
            kind: self.kind,
            is_resolved: objects.is_resolved,
            starts: SmallVec::from_slice(alloc, &self.starts)?,
            actual: None,
            at: name.at,
        })
    }
}
