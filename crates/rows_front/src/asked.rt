//! What a row asks, and the answer in words.

use crate::calls::{TRUTHS, VECTORS, holds, vector_of};
use crate::operands::vector;
use rows_calls::{Text, named};
use vhdl_values::Vec9;

/// Adds the answer to what is asked, `?` where there is none.
pub fn push_answer(found: &mut Text, asked: &str) {
    let mut words = asked.split(' ');
    let operator = words.next().unwrap_or("");
    let left = words.next().unwrap_or("");
    let right = words.next().unwrap_or("");
    let third = words.next().unwrap_or("");
    if let Some(kind) = named(&TRUTHS, operator) {
        push_truth(found, holds(kind, left, right));
    } else if let Some(kind) = named(&VECTORS, operator) {
        push_vector(found, vector_of(kind, left, right, third));
    } else {
        push_part(found, operator, vector(left));
    }
}

/// Adds whether it is so.
fn push_truth(found: &mut Text, truth: Option<bool>) {
    found.push(match truth {
        Some(true) => "true",
        Some(false) => "false",
        None => "?",
    });
}

/// Adds the letters of a vector.
fn push_vector(found: &mut Text, vector: Option<Vec9>) {
    match vector {
        Some(vector) => {
            for at in 0..vector.len() {
                found.push_bytes(&[vector.get(at).byte()]);
            }
        }
        None => found.push("?"),
    }
}

/// Adds what a vector is made of.
fn push_part(found: &mut Text, operator: &str, vector: Option<Vec9>) {
    let Some(vector) = vector else {
        return found.push("?");
    };
    if operator == "planes" {
        found.push_named(&vector.planes());
    } else if operator == "codes" {
        push_codes(found, &vector);
    } else if operator == "len" {
        found.push_number(vector.len());
    } else {
        found.push("?");
    }
}

/// Adds the codes of a vector, a digit each.
fn push_codes(found: &mut Text, vector: &Vec9) {
    let mut all = [0; 64];
    let len = vector.len();
    vector.write_codes(&mut all[..len]);
    for code in &all[..len] {
        found.push_number(usize::from(*code));
    }
}
