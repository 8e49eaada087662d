// What both writers stand on: the writer as it is lent to a call, runs of device writes, and the
// flush of the buffer, after std's bufwriter.rs.
#![tactic(auto)]

pub mod flush;
pub mod send;

ghost use Rattle.std.specs.Prelude.{◌≡◌};
ghost use Rattle.flushing.specs.World.{numbers};
ghost use Rattle.flushing.specs.Send.{flush_failure};

use card::Failure;
use card::limits::Numbers;

// Bytes held in the storage, bytes out on the medium, replies used of the script.
#[derive(Clone, Copy)]
pub struct State {
    pub held: usize,
    pub out: usize,
    pub used: usize,
}

// A writer for one call: its state, what is lent with it, and how many device calls the call made.
// That what is lent stays lent (`Lent`) is a clause of each call: it speaks of before and after.
// The script is lent for a time of its own, since it is read while the medium is lent on.
#[derive(Drop)]
pub struct BufWriter<'a, 's> {
    pub state: State,
    pub storage: &'a mut [u8],
    pub script: &'s [u32],
    pub medium: &'a mut [u8],
    pub calls: usize,
}

impl BufWriter<'_, '_> {
    // What the limits are asked of.
    pub fn numbers(&self) -> Numbers
        ensures { result ≡ numbers self.now }
    {
        let State { held, out, used } = self.state;
        Numbers {
            capacity: self.storage.len(),
            script: self.script.len(),
            device: self.medium.len(),
            pos: 0,
            filled: held,
            moved: out,
            used,
        }
    }
}

// Why a run of device writes stopped: the device took nothing, or failed with a code.
#[derive(Clone, Copy, Debug, PartialEq, Eq)]
pub enum Stop {
    Zero,
    Failed(u32),
}

// A run of device writes: how it was left, the bytes taken, the script's position after it, and the
// device writes made.
#[derive(Clone, Copy)]
pub struct Sent {
    pub outcome: Result<(), Stop>,
    pub sent: usize,
    pub used: usize,
    pub writes: usize,
}

// Handed up by a flush of the buffer.
impl From<Stop> for Failure {
    ghost from_gives = { λ stop f. f ≡ flush_failure stop };

    fn from(stop: Stop) -> Failure {
        match stop {
            Stop::Zero => Failure::Zero,
            Stop::Failed(code) => Failure::Error(code),
        }
    }
}
