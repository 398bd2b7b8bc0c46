// Batch files: the segments of the frame, the messages between them, the joined ACKs.

#![tactic(auto)]

pub mod batch;
mod frame;
mod message;
