// Grading: the rule book, values, segment order, findings.

#![tactic(auto)]

pub mod admit;
pub mod book;
pub mod broken;
pub mod date;
pub mod finding;
pub mod header;
pub mod limits;
pub mod lookup;
pub mod order;
mod plain;
pub mod range;
pub mod refusal;
pub mod rule;
pub mod sheet;
pub mod step;
pub mod table;
pub mod value;
pub mod walk;
pub mod within;
