// What the definitions of every crate are made of, and the lemmas that more than one crate cites.
// No functions.
#![tactic(auto)]
