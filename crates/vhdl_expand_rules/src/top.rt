//! The top of a design, and values that are set for its generics (IEEE 1076-2008, 14.2, 14.3.3).

ghost use Rattle.std.specs.Prelude.{◌≡◌, find, map, option_map, IfOk};
ghost use Rattle.vhdl_names_rules.specs.units.Units as units;
ghost use Rattle.vhdl_names_trees.specs.views.Integers.{static_view};
ghost use Rattle.vhdl_expand_rules.specs.Tops as definition;
ghost use Rattle.vhdl_expand_rules.specs.views.Tops.{setting_view};

use std::alloc::{AllocError, Global};
use vhdl_names_trees::Static;

/// A generic of the top, by its name in letters of either case, and its value.
#[derive(Clone, Copy)]
pub struct Setting<'a> {
    pub name: &'a [u8],
    pub value: i32,
}

/// The name of an entity, in letters of either case, and values for its generics.
#[derive(Clone, Copy)]
pub struct Top<'a> {
    pub name: &'a [u8],
    pub generics: &'a [Setting<'a>],
}

impl Setting<'_> {
    /// Whether it is of the generic of this name, in letters of either case.
    pub fn sets(&self, name: &[u8]) -> bool
        ensures { result ≡ definition.sets name.now (setting_view self.now) }
    {
        name.eq_ignore_ascii_case(self.name)
    }
}

/// The value that is set for the generic of this name, if one is.
fn value_of(settings: &[Setting], name: &[u8]) -> Option<i32>
    ensures { option_map (λ (s : definition.Setting). s.value) (find (definition.sets name.now)
        (map setting_view settings.now)) ≡ result }
{
    for setting in settings {
        if setting.sets(name) {
            return Some(setting.value);
        }
    }
    None
}

/// An integer as an expression, of which what is wrong is told at byte `at`. It takes the memory of
/// a box where the integer is below 0.
fn static_of(alloc: Global, value: i32, at: usize) -> Result<Static, AllocError>
    ensures { IfOk result (λ s. static_view s ≡ definition.static_of at value) }
{
    match u32::try_from(value) {
        Ok(number) => Ok(Static::Number(number)),
        Err(_) => Static::negated(alloc, at, Static::Number(value.unsigned_abs())),
    }
}

/// The actual of a generic whose name starts at byte `at`, if its value is set. It takes the memory
/// of a box where that is below 0.
pub fn set_actual(
    alloc: Global,
    settings: &[Setting],
    name: &[u8],
    at: usize,
) -> Result<Option<Static>, AllocError>
    ensures { IfOk result (λ actual. option_map (λ s. units.Fixed.integer (static_view s)) actual ≡
        definition.set_actual (map setting_view settings.now) name.now at) }
{
    match value_of(settings, name) {
        None => Ok(None),
        Some(value) => Ok(Some(static_of(alloc, value, at)?)),
    }
}
