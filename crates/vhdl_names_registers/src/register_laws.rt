//! Laws of registers as they are written (`specs/Laws`), each the contract of a function that does
//! nothing.

ghost use Rattle.vhdl_names_registers.specs.Laws.{WrittenUnitsAreSound, WrittenUnitsAreNamed, WrittenUnitsStand};

/// Sound units are sound with their registers as the checker knows them.
pub fn written_units_are_sound()
    ensures { WrittenUnitsAreSound }
{}

/// Where each name and label has a letter, it has one there too.
pub fn written_units_are_named()
    ensures { WrittenUnitsAreNamed }
{}

/// Each byte that they have is one that the units had.
pub fn written_units_stand()
    ensures { WrittenUnitsStand }
{}
