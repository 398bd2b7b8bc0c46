// The canonical text of a rule book.

#![tactic(auto)]

pub mod show;
