//! What is said of a rule.

use std::fmt;

/// What is said of a rule, text by text.
#[derive(Clone, Copy)]
pub struct Words<T: Copy> {
    /// The layer that holds to it.
    pub layer: T,
    /// Its number in that layer, from 1.
    pub number: u8,
    /// Its name.
    pub name: T,
    /// What is said before the processes or the word.
    pub opening: T,
    /// What is said between these and the nets.
    pub middle: T,
    /// What is said behind the nets.
    pub closing: T,
    /// What a designer does about it.
    pub help: T,
}

/// A row of a layer's table: `layer number Name: sentence => help`. In the sentence a word in
/// capitals stands for what is filled in there.
macro_rules! rule {
    (
        $layer:ident $number:literal $name:ident
        [$($opening:literal)?] [$($middle:literal)?] [$($closing:literal)?] [$($help:literal)?]
    ) => {
        Words {
            layer: stringify!($layer),
            number: $number,
            name: stringify!($name),
            opening: concat!($($opening)?),
            middle: concat!($($middle)?),
            closing: concat!($($closing)?),
            help: concat!($($help)?),
        }
    };
    ($layer:ident $number:literal $name:ident) => {
        rule! { $layer $number $name [] [] [] [] }
    };
    ($layer:ident $number:literal $name:ident: $middle:literal $(=> $help:literal)?) => {
        rule! { $layer $number $name [] [$middle] [] [$($help)?] }
    };
    (
        $layer:ident $number:literal $name:ident: $opening:literal $(CIRCLE)? $(NET $($closing:literal)?)?
        $(=> $help:literal)?
    ) => {
        rule! { $layer $number $name [$opening] [] [$($($closing)?)?] [$($help)?] }
    };
    (
        $layer:ident $number:literal $name:ident: $($opening:literal)? $first:ident $middle:literal
        $($second:ident $($closing:literal $($third:ident)?)?)? $(=> $help:literal)?
    ) => {
        rule! { $layer $number $name [$($opening)?] [$middle] [$($($closing)?)?] [$($help)?] }
    };
}

pub(crate) use rule;

impl fmt::Display for Words<&str> {
    fn fmt<W: fmt::Write>(&self, f: &mut fmt::Formatter<W>) -> fmt::Result {
        write!(f, "{} {} {}", self.layer, self.number, self.name)
    }
}
