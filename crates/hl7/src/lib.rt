// Reading a message: refusals 1 to 5, cutting, locating.

#![tactic(auto)]

pub mod bytes;
pub mod cut;
pub mod delimiters;
pub mod locate;
pub mod number;
pub mod place;
pub mod refusal;
