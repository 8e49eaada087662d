// The scripted card of the bench: its replies, its three calls (write, read, flush), the limits
// and the refusals of document 01, and the copies of bytes that everything above is made of.
// Every function here is total: it asks nothing.
#![tactic(auto)]

pub mod bytes;
pub mod device;
pub mod limits;

ghost use Rattle.std.specs.Prelude.{◌≡◌};
ghost use Rattle.card.specs.Answers.{said, said_count, said_done, failure_by};
ghost use Rattle.card.specs.Limits.{refused_by};

use limits::Refusal;

// Why the device does not accept: it is interrupted, or it fails with a code.
#[derive(Clone, Copy, Debug, PartialEq, Eq)]
pub enum DeviceError {
    Interrupted,
    Error(u32),
}

// What the device says to one call: it accepts so many bytes, or not.
pub type Reply = Result<usize, DeviceError>;

// One call of the device: its reply, and the script's position after it.
#[derive(Clone, Copy)]
pub struct Exchange {
    pub reply: Reply,
    pub used: usize,
}

// Why a public call does not end well. A refusal has document 01's number; any number has a text.
#[derive(Clone, Copy, Debug, PartialEq, Eq)]
pub enum Failure {
    Interrupted,
    Zero,
    Whole,
    Error(u32),
    Refused(u32),
}

// What a public call answers: ok with a count, a bare ok, or a failure.
pub type Answer = Result<Option<usize>, Failure>;

// The answer of a call that counts, and of one that does not.
pub fn counted(answer: Result<usize, Failure>) -> Answer
    ensures { said result ≡ said_count answer }
{
    answer.map(Some)
}

pub fn uncounted(answer: Result<(), Failure>) -> Answer
    ensures { said result ≡ said_done answer }
{
    answer.map(|()| None)
}

impl From<DeviceError> for Failure {
    ghost from_gives = { λ e f. f ≡ failure_by e };

    fn from(e: DeviceError) -> Failure {
        match e {
            DeviceError::Interrupted => Failure::Interrupted,
            DeviceError::Error(code) => Failure::Error(code),
        }
    }
}

impl From<Refusal> for Failure {
    ghost from_gives = { λ r f. f ≡ refused_by r };

    fn from(r: Refusal) -> Failure {
        Failure::Refused(r.number())
    }
}
