// What the programs share: the line that they read, and their replies to it.

#![tactic(auto)]

pub mod input;
pub mod kept;
