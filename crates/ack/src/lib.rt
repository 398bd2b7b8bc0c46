// Writing: the ACK's bytes, from lent records or, for batches, without a table; and the lamp, which only says whether the ACK would say AA.

#![tactic(auto)]

pub mod answer;
pub mod errs;
pub mod lamp;
pub mod layout;
pub mod lent;
pub mod measure;
pub mod output;
pub mod write;
