// The text form of scripts: how it is read, and how answers are written.
#![tactic(auto)]

mod adding;
mod faults;
mod hexadecimal;
mod lines;
pub mod numbers;
mod reader;
pub mod replies;
pub mod statement;
mod text;
pub mod values;
pub mod whole;
mod words;
