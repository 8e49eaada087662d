// The buffered writer over a scripted card, after std's bufwriter.rs.
#![tactic(auto)]

pub mod bufwriter;
pub mod way;
