// The limits of document 01, and which refusal applies.
ghost use Rattle.std.specs.Prelude.{◌≡◌};
ghost use Rattle.card.specs.Limits.{refusal_of, length_refusal, refusal_number, refusal_by};

pub const CAPACITY_MOST: usize = 1024;

pub const SCRIPT_MOST: usize = 4096;

pub const BYTES_MOST: usize = 16384;

// Why a call is refused: what of it is over its limit, or does not fit the rest.
#[derive(Clone, Copy, Debug, PartialEq, Eq)]
pub enum Refusal {
    Capacity = 1,
    Length = 2,
    Peek = 3,
    Seek = 4,
    Device = 5,
    State = 8,
}

impl Refusal {
    // Its number in document 01.
    pub fn number(self) -> u32
        ensures { result ≡ refusal_number self }
    {
        self as u32
    }
}

// The numbers that a call stands on: the sizes of what is lent to it, and its state's places in
// them. A writer's pos is 0 and its filled the held count; moved is the bytes out of a medium or
// taken of a stock.
#[derive(Clone, Copy)]
pub struct Numbers {
    pub capacity: usize,
    pub script: usize,
    pub device: usize,
    pub pos: usize,
    pub filled: usize,
    pub moved: usize,
    pub used: usize,
}

impl Numbers {
    // Whether they are within the limits and fit one another.
    pub fn check(self) -> Result<(), Refusal>
        ensures { refusal_by result ≡ refusal_of self.capacity self.script self.device self.pos self.filled self.moved self.used 0 }
    {
        if CAPACITY_MOST < self.capacity {
            return Err(Refusal::Capacity);
        }
        if SCRIPT_MOST < self.script || BYTES_MOST < self.device {
            return Err(Refusal::Device);
        }
        if self.capacity < self.filled
            || self.filled < self.pos
            || self.device < self.moved
            || self.script < self.used
        {
            return Err(Refusal::State);
        }
        Ok(())
    }

    // The number of the refusal, 0 for none. `own` is what the call itself would refuse: a number,
    // since this is promised for any.
    pub fn refusal(self, own: u32) -> u32
        ensures { result ≡ refusal_of self.capacity self.script self.device self.pos self.filled self.moved self.used own }
    {
        match self.check() {
            Ok(()) => own,
            Err(refusal) => refusal.number(),
        }
    }
}

// Whether a slice to write, or a destination, is not too long.
pub fn check_length(n: usize) -> Result<(), Refusal>
    ensures { refusal_by result ≡ length_refusal n }
{
    if BYTES_MOST < n {
        return Err(Refusal::Length);
    }
    Ok(())
}

// The number of that refusal, 0 for none. It cannot fail, and stands because it is public.
pub fn length_refusal(n: usize) -> u32
    ensures { result ≡ length_refusal n }
{
    match check_length(n) {
        Ok(()) => 0,
        Err(long) => long.number(),
    }
}
