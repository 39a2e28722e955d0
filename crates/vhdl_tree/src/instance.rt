//! Instances (IEEE 1076-2008 clause 11.7).

use crate::expression::{Association, Identifier};
use drops::take_apart;

/// What is instantiated.
pub enum Instantiated {
    /// `entity library . name ( architecture )`.
    Entity {
        library: Identifier,
        name: Identifier,
        architecture: Option<Identifier>,
    },
    /// `component_word` says whether `component` stands before the name.
    Component {
        component_word: bool,
        name: Identifier,
    },
}

impl Drop for Instantiated {
    fn drop(self) {
        take_apart!(self: Entity { library, name, architecture }
            | Component { component_word, name });
    }
}

/// An instance behind its label.
pub struct Instance {
    pub unit: Instantiated,
    pub generics: Option<Vec<Association>>,
    pub ports: Option<Vec<Association>>,
}

impl Drop for Instance {
    fn drop(self) {
        take_apart!(self: { unit, generics, ports });
    }
}
