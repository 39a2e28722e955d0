//! What names give is sound (IEEE 1076-2008, clauses 6 to 13): the units of a well-typed file are
//! what elaboration may take for granted. And a file is well typed just where it breaks none of the
//! rules whose problems are told, each at a token of the file. The definitions stand in
//! `vhdl_names_rules` (`specs/sound` and `specs/problems`) and in `specs`.
#![tactic(auto)]

pub mod soundness_laws;
