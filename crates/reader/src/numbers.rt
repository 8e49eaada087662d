// The state's own calls: on its numbers, and on the sizes of what is lent. They change no byte.
ghost use Rattle.std.specs.Prelude.{◌≡◌, ◌≤◌, List, ℕ, nat_abs};
ghost use Rattle.card.specs.Limits.{refusal_of, refusal_by};
ghost use Rattle.reader.specs.World.{world, sizes_of, placed};
ghost use Rattle.reader.specs.Buffer.{new, shown, count, discard};
ghost use Rattle.reader.specs.Buffer as Buffer;
ghost use Rattle.reader.specs.Reader.{seek_refusal, sought, consume, seek_relative};

use crate::{Sizes, State};
use card::Failure;
use card::limits::{Numbers, Refusal};

// The size of an offset. The lowest value's size fits no i64.
fn magnitude(offset: i64) -> usize
    ensures { result ≡ nat_abs offset }
{
    offset.unsigned_abs() as usize
}

impl Sizes {
    pub fn of(storage: &[u8], script: &[u32], stock: &[u8]) -> Sizes
        ensures { result ≡ sizes_of storage.now script.now stock.now }
    {
        Sizes {
            capacity: storage.len(),
            script: script.len(),
            stock: stock.len(),
        }
    }
}

impl State {
    pub fn new() -> State
        ensures { result ≡ new }
    {
        State {
            pos: 0,
            filled: 0,
            taken: 0,
            used: 0,
        }
    }

    pub(crate) fn count(self) -> usize
        ensures { result ≡ count self }
    {
        self.filled.saturating_sub(self.pos)
    }

    // What `peek` for n shows after it answered: the part of the storage itself, from pos, of n or
    // fewer bytes.
    pub fn peeked(self, storage: &[u8], n: usize) -> &[u8]
        ensures { result.now ≡ shown n (world storage.now self) }
    {
        let from = self.pos.min(storage.len());
        let held = n.min(self.count());
        let to = from + held.min(storage.len() - from);
        &storage[from..to]
    }

    // All that is buffered, as a part of the storage.
    pub fn buffered(self, storage: &[u8]) -> &[u8]
        ensures { result.now ≡ shown (count self) (world storage.now self) }
    {
        self.peeked(storage, self.count())
    }

    // Whether it fits what is lent, and that is within the limits.
    pub(crate) fn check(self, sizes: Sizes) -> Result<(), Refusal>
        ensures { refusal_by result ≡ refusal_of sizes.capacity sizes.script sizes.stock self.pos self.filled self.taken self.used 0 }
    {
        Numbers {
            capacity: sizes.capacity,
            script: sizes.script,
            device: sizes.stock,
            pos: self.pos,
            filled: self.filled,
            moved: self.taken,
            used: self.used,
        }
        .check()
    }

    pub(crate) fn discarded(self) -> State
        ensures { result ≡ discard self }
    {
        State {
            taken: self.taken,
            used: self.used,
            ..State::new()
        }
    }

    // The least is taken of what is left, so that no sum can overflow.
    pub(crate) fn consumed(self, amt: usize) -> State
        ensures { result ≡ Buffer.consume amt self }
    {
        State {
            pos: self.pos + amt.min(self.count()),
            ..self
        }
    }

    pub(crate) fn unconsumed(self, amt: usize) -> State
        ensures { result ≡ Buffer.unconsume amt self }
    {
        State {
            pos: self.pos.saturating_sub(amt),
            ..self
        }
    }

    pub fn consume(self, sizes: Sizes, amt: usize) -> Result<State, Failure>
        ensures { (storage script stock : List ℕ) → sizes ≡ sizes_of storage script stock → placed result (world storage self) ≡ consume script stock amt (world storage self) }
    {
        self.check(sizes)?;
        Ok(self.consumed(amt))
    }

    // Whether pos + offset is at most filled is asked without the sum, which could overflow.
    fn check_seek(self, offset: i64) -> Result<(), Refusal>
        requires { self.pos ≤ self.filled }
        ensures { refusal_by result ≡ seek_refusal offset self }
    {
        let size = magnitude(offset);
        if offset < 0 {
            if size <= self.pos {
                return Ok(());
            }
            return Err(Refusal::Seek);
        }
        if self.count() < size {
            return Err(Refusal::Seek);
        }
        Ok(())
    }

    fn sought(self, offset: i64) -> State
        ensures { result ≡ sought offset self }
    {
        let size = magnitude(offset);
        if offset < 0 {
            return self.unconsumed(size);
        }
        self.consumed(size)
    }

    pub fn seek_relative(self, sizes: Sizes, offset: i64) -> Result<State, Failure>
        ensures { (storage script stock : List ℕ) → sizes ≡ sizes_of storage script stock → placed result (world storage self) ≡ seek_relative script stock offset (world storage self) }
    {
        self.check(sizes)?;
        self.check_seek(offset)?;
        Ok(self.sought(offset))
    }
}
