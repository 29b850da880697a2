// Openings of committed tables: which values stand at a point.
#![tactic(auto)]

pub mod clear;
