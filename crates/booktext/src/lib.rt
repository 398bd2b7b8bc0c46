// Rule books as text.

#![tactic(auto)]

#[cfg(test)]
mod any_text;
pub(crate) mod before;
pub mod cell;
pub mod change;
pub mod compile;
pub(crate) mod fault;
pub mod heads;
pub mod line;
pub(crate) mod names;
pub(crate) mod refer;
pub mod rules;
pub mod section;
pub(crate) mod sets;
pub mod statement;
pub mod told;
pub mod word;
