//! The tokens of a text as words: what is said of one that can't stand where it stands, and of what
//! is left out; and what stands in them: the entity of a name with its generics and ports,
//! instances and what they leave open, lists of names, and the choices of a statement, with the one
//! that it lacks.
//!
//! `specs/Words.antt` says how tokens are looked at as words, and `specs/Parts.antt` has the words
//! for parts of a list of them. `specs/Forms.antt` says which form is told, by what stands before
//! the word: the texts of forms of VHDL that aren't read are in `form`, those of slips of the pen
//! in `slip`, those that are told with `--wide` alone in `wide`, and the words at which each is
//! told in `table`. `specs/Interfaces.antt`, `specs/Instances.antt`, `specs/Listings.antt` and
//! `specs/Choices.antt` say what is found.
#![tactic(auto)]

mod by_language;
mod choice;
mod enumeration;
mod form;
mod instance;
mod interface;
mod lexed;
mod listing;
mod part;
mod slip;
mod table;
mod unread;
mod wide;

pub use choice::{first_choice, push_missing};
pub use enumeration::{is_literal, literals_of, type_of};
pub use form::Said;
pub use instance::{
    associations, entity_of, first_open, formal_in, is_by_name, labelled, open_instance,
};
pub use interface::{formal_at, formals, interface_of};
pub use lexed::{
    Lexed, first_text, is_same_kind, is_same_word, push_quoted, push_subject, text_of,
};
pub use listing::{Listing, push_names};
pub use part::{begins, behind_last, first_of, from, has, in_parentheses, past, up_to};
pub use unread::{left_out_form, unexpected_form};
