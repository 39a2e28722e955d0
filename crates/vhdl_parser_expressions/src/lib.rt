//! From tokens to expressions: a parser's place among the tokens, and how it reads names, ranges,
//! expressions, values, choices and associations.
#![tactic(auto)]

mod behind;
mod element;
mod expr;
mod list;
mod name;
mod operator;
mod parser;
mod stop;
mod value;

pub use behind::followed;
pub use list::{many, separated};
pub use parser::{Parser, below};
pub use stop::Stop;
