// The form of a session, the bench program's input. A session is read left to right, with the
// place of its first fault (refusal 6), and without memory for its calls: `whole::check` reads it
// all, `replies::read_replies` hands out its replies, `calls::read_call` reads one call again.
#![tactic(auto)]

pub mod calls;
mod lists;
pub mod replies;
pub mod whole;

// The kinds, a session's first number: what its calls are made on, or that a trace follows. A kind
// stays a number, since the session line prints it and `calls::read_call` takes any.
pub const WRITER: usize = 0;

pub const LINE_WRITER: usize = 1;

pub const READER: usize = 2;

pub const TRACE: usize = 3;

// The largest number below 2^32: of a reply, and of the size of a peek, a consume or a seek.
const WORD_MOST: usize = 4294967295;

// One call of a session. The bytes of a write are the session's, from a start on, so many as the
// length says: `Write(start, length)`, the numbers that `calls::read_call` promises. A seek's first
// value is true for back, false for on: direction and size stay the two numbers that the session has,
// and who seeks makes an offset of them.
#[derive(Clone, Copy, Debug, PartialEq, Eq)]
pub enum Call {
    Write(usize, usize),
    WriteAll(usize, usize),
    Flush,
    Read(usize),
    Peek(usize),
    Consume(usize),
    Seek(bool, usize),
    Fill,
}

// What a session holds beside its lists: the kind (`WRITER`, `LINE_WRITER` or `READER`) and the
// capacity; how many replies there are and where the first stands; where the stock's bytes stand
// and how many they are (none, after the replies, for a writer); how many calls there are and
// where the first stands. The kind stays the number that `calls::read_call` takes, and the rest places
// and lengths, since nothing is kept of the calls.
#[derive(Clone, Copy, Debug, PartialEq, Eq)]
pub struct Header {
    pub kind: usize,
    pub capacity: usize,
    pub replies: usize,
    pub script: usize,
    pub stock: usize,
    pub length: usize,
    pub count: usize,
    pub first: usize,
}

// A session without a fault: its header; or, of a trace, the place where the trace starts, of which
// nothing is checked here.
#[derive(Clone, Copy, Debug, PartialEq, Eq)]
pub enum Checked {
    Session(Header),
    Traced(usize),
}
