// The legend of a text: what the rule numbers of its book mean.

#![tactic(auto)]

pub mod legend;
pub(crate) mod people;
