// What differs between two rule books, rule by rule.

#![tactic(auto)]

pub(crate) mod counterpart;
pub mod difference;
pub(crate) mod line;
pub(crate) mod numbers;
pub mod ruled;
pub(crate) mod section;
pub mod side;
