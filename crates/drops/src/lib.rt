//! How a value is let go.
#![tactic(auto)]

/// Takes a value apart, as the end of its `drop` has to: by the fields of its struct, or by each
/// variant of its enum with its fields.
#[macro_export]
macro_rules! take_apart {
    ($whole:ident: { $($field:ident),+ }) => {
        let Self { $($field: _),+ } = $whole;
    };
    ($whole:ident: $($variant:ident $({ $($field:ident),+ })? $(($($place:tt),+))?)|+) => {
        match $whole {
            $(Self::$variant $({ $($field: _),+ })? $(($($place),+))? => {})+
        }
    };
}
