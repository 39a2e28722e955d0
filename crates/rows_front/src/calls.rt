//! The calls of the values, by their names in rows.

use crate::answers::{
    changed, combined, computed, inverted, joined, moved, part, related, resolved,
};
use crate::operands::{coded, natural, value, vector};
use vhdl_values::{Cmp, Edge, Logic, Nine, Vec9, edge};

/// A call that answers whether something is so.
pub enum Truth {
    Relation(Cmp),
    Edge(Edge),
    Same,
    IsTrue,
}

/// The names of the calls that answer whether something is so.
pub static TRUTHS: [(&str, Truth); 12] = [
    ("=", Truth::Relation(Cmp::Eq)),
    ("/=", Truth::Relation(Cmp::Ne)),
    ("<", Truth::Relation(Cmp::Lt)),
    ("<=", Truth::Relation(Cmp::Le)),
    (">", Truth::Relation(Cmp::Gt)),
    (">=", Truth::Relation(Cmp::Ge)),
    ("rising", Truth::Edge(Edge::Rising)),
    ("falling", Truth::Edge(Edge::Falling)),
    ("to1", Truth::Edge(Edge::To1)),
    ("to0", Truth::Edge(Edge::To0)),
    ("same", Truth::Same),
    ("is_true", Truth::IsTrue),
];

/// A sum, a difference or a product.
pub enum Sum {
    Plus,
    Minus,
    Times,
}

/// How a vector is moved.
pub enum Move {
    Left,
    Right,
    Resized,
    OfNumber,
}

/// A call that gives a vector, a value being one of one element.
pub enum Made {
    Logic(Logic),
    Not,
    Joined,
    Sum(Sum),
    Move(Move),
    Slice,
    Element,
    Changed,
    Filled,
    Stripped,
    Resolved,
    OfCodes,
    OfCode,
}

/// The names of the calls that give a vector.
pub static VECTORS: [(&str, Made); 23] = [
    ("and", Made::Logic(Logic::And)),
    ("or", Made::Logic(Logic::Or)),
    ("nand", Made::Logic(Logic::Nand)),
    ("nor", Made::Logic(Logic::Nor)),
    ("xor", Made::Logic(Logic::Xor)),
    ("xnor", Made::Logic(Logic::Xnor)),
    ("not", Made::Not),
    ("&", Made::Joined),
    ("+", Made::Sum(Sum::Plus)),
    ("-", Made::Sum(Sum::Minus)),
    ("*", Made::Sum(Sum::Times)),
    ("shift_left", Made::Move(Move::Left)),
    ("shift_right", Made::Move(Move::Right)),
    ("resize", Made::Move(Move::Resized)),
    ("to_unsigned", Made::Move(Move::OfNumber)),
    ("slice", Made::Slice),
    ("get", Made::Element),
    ("set", Made::Changed),
    ("fill", Made::Filled),
    ("x01", Made::Stripped),
    ("resolved", Made::Resolved),
    ("of_codes", Made::OfCodes),
    ("from_code", Made::OfCode),
];

/// Whether a relation, an edge or a condition holds.
pub fn holds(kind: &Truth, left: &str, right: &str) -> Option<bool> {
    match kind {
        Truth::Relation(kind) => related(*kind, left, right),
        Truth::Edge(kind) => Some(edge(*kind, value(left)?, value(right)?)),
        Truth::Same => Some(vector(left)?.same(&vector(right)?)),
        Truth::IsTrue => Some(value(left)?.is_true()),
    }
}

/// The vector that a call gives.
pub fn vector_of(kind: &Made, left: &str, right: &str, third: &str) -> Option<Vec9> {
    match kind {
        Made::Logic(kind) => combined(*kind, &vector(left)?, &vector(right)?),
        Made::Joined => joined(&vector(left)?, &vector(right)?),
        Made::Not => inverted(&vector(left)?),
        Made::Sum(kind) => computed(kind, left, right),
        Made::Move(kind) => moved(kind, left, right),
        Made::Slice => part(left, right, third),
        Made::Element => part(left, right, "#1"),
        Made::Changed => changed(left, right, third),
        Made::OfCodes => coded(left),
        _ => filled(kind, left, right, third),
    }
}

/// The vector of one value that a call gives.
fn filled(kind: &Made, left: &str, right: &str, third: &str) -> Option<Vec9> {
    let mut len = 1;
    let element = match kind {
        Made::Stripped => value(left)?.x01(),
        Made::Resolved => resolved(left, right, third)?,
        Made::OfCode => Nine::from_code(u8::try_from(natural(left)?).ok()?)?,
        _ => {
            len = natural(right)? as usize;
            value(left)?
        }
    };
    if 1 <= len && len <= 64 {
        Some(Vec9::fill(element, len))
    } else {
        None
    }
}
