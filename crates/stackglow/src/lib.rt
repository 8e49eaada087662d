// The port's calls as others link them: under plain names, with lent slices and numbers alone. The
// crate `stackglow_c` exports them to C and Rust. Each hands on to the call that it is named after,
// and asks nothing of its caller.
#![tactic(auto)]

mod answer;
pub mod reading;
pub mod writing;
