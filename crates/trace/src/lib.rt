// Traces: what a person hands to the judge. A trace is read left to right, with the place of its
// first fault (refusal 7), and without memory for its calls: `whole::check` reads it all,
// `calls::read_call` reads one call again.
#![tactic(auto)]

pub mod calls;
mod claims;
pub mod whole;

// The answer that a traced call claims. Ok has its count for a write; a flush is Done. It is no
// `card::Answer`: a trace can claim neither whole nor refused.
#[derive(Clone, Copy, Debug, PartialEq, Eq)]
pub enum Claim {
    Ok(usize),
    Done,
    Interrupted,
    Zero,
    Error(u32),
}

// One call of a trace. The bytes of a write are the trace's `length` bytes from place `start` on;
// a flush has none. It carries its claimed answer. `next` is the place after it. All are places and
// lengths, as `calls::read_call` promises them.
// The flag stays beside the length: whoever counts bytes takes the length of any call, and whoever
// judges a claim the flag, so an enum with the bytes inside would be matched for either.
#[derive(Clone, Copy, Debug, PartialEq, Eq)]
pub struct TracedCall {
    pub flush: bool,
    pub start: usize,
    pub length: usize,
    pub claim: Claim,
    pub next: usize,
}

// What a whole trace holds beside its calls: the capacity, how many calls there are and where the
// first stands, and where the card's bytes stand and how many they are. Places, since nothing is kept
// of the calls.
#[derive(Clone, Copy, Debug, PartialEq, Eq)]
pub struct Header {
    pub capacity: usize,
    pub count: usize,
    pub first: usize,
    pub card: usize,
    pub length: usize,
}
