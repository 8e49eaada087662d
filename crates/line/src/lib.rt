// The line writer over a scripted card, after std's linewritershim.rs.
#![tactic(auto)]

pub mod linewriter;
pub mod newline;
mod plain;
