// The archive of the writer's and the reader's calls: what C and Rust link. Each export is the call of
// `stackglow` that has its name, under the same promise.
#![tactic(auto)]

pub mod reading;
pub mod writing;
