// The text that a program prints.

#![tactic(auto)]

pub mod text;
