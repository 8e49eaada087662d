// The buffered reader of document 01, modules 1 and 2, on the reading side of the scripted card.
// Every public call is total: what it refuses it refuses by number, and its promise says the
// answer, the device calls, the state and every lent byte on every input.
#![tactic(auto)]

mod buffer;
mod numbers;

ghost use Rattle.std.specs.Prelude.{◌≡◌, ◌+◌, ◌≤◌, length, drop};
ghost use Rattle.laws.specs.Put.{put};
ghost use Rattle.card.specs.Answers.{ok, said_count, said_done};
ghost use Rattle.card.specs.Limits.{refusal_by};
ghost use Rattle.reader.specs.World.{Fit, Lent, world_of, sizes_of, fetched, called, reading};
ghost use Rattle.reader.specs.Buffer.{shown, count};
ghost use Rattle.reader.specs.Reader.{handed, buffered, refusal, peek_refusal, shifted_back, peek_loop, direct, copied, fill_buf, consume, seek_relative, peek, read};
ghost use Rattle.reader.specs.Buffer as Buffer;

use card::limits::{Refusal, check_length};
use card::{Failure, Reply, bytes, device};

// What a reader knows between calls: its place in the storage and how much of that is filled,
// the bytes taken of the stock, and the replies used of the script.
#[derive(Clone, Copy)]
pub struct State {
    pub pos: usize,
    pub filled: usize,
    pub taken: usize,
    pub used: usize,
}

// The sizes of what is lent to a reader.
#[derive(Clone, Copy)]
pub struct Sizes {
    pub capacity: usize,
    pub script: usize,
    pub stock: usize,
}

// A reader over what is lent to it. `calls` are the device calls of the last call.
#[derive(Drop)]
pub struct BufReader<'a> {
    pub state: State,
    pub storage: &'a mut [u8],
    pub script: &'a [u32],
    pub stock: &'a [u8],
    pub calls: usize,
}

// Alike to `limits::check_length` but for limit and refusal: with both as parameters no shorter.
fn check_peek(capacity: usize, n: usize) -> Result<(), Refusal>
    ensures { refusal_by result ≡ peek_refusal capacity n }
{
    if capacity < n {
        return Err(Refusal::Peek);
    }
    Ok(())
}

impl<'a> BufReader<'a> {
    // A reader with this state, over what is lent.
    pub fn new(
        state: State,
        storage: &'a mut [u8],
        script: &'a [u32],
        stock: &'a [u8],
    ) -> BufReader<'a>
        ensures { result ≡ record { state = state; storage = storage.entry; script = script.entry; stock = stock.entry; calls = 0 } }
    {
        BufReader {
            state,
            storage,
            script,
            stock,
            calls: 0,
        }
    }
}

impl BufReader<'_> {
    fn sizes(&self) -> Sizes
        ensures { result ≡ sizes_of self.now.storage.now self.now.script.now self.now.stock.now }
    {
        Sizes::of(self.storage, self.script, self.stock)
    }

    // What `peek` for n shows after it answered.
    pub fn peeked(&self, n: usize) -> &[u8]
        ensures { result.now ≡ shown n (world_of self.now) }
    {
        self.state.peeked(self.storage, n)
    }

    // All that is buffered.
    pub fn buffered(&self) -> &[u8]
        ensures { result.now ≡ shown (count self.now.state) (world_of self.now) }
    {
        self.state.buffered(self.storage)
    }

    // Whether the state fits what is lent, and that is within the limits.
    fn check(&self) -> Result<(), Refusal>
        ensures { refusal_by result ≡ refusal self.now.script.now self.now.stock.now (world_of self.now) 0 }
    {
        self.state.check(self.sizes())
    }

    pub fn fill_buf(&mut self) -> Result<usize, Failure>
        ensures lent { Lent self.old self.new }
        ensures call { called (said_count result) self.new ≡ fill_buf self.old.script.now self.old.stock.now (world_of self.old) }
    {
        self.calls = 0;
        self.check()?;
        Ok(self.fill()?)
    }

    // This and `seek_relative` are one call of the state's: a closure for it would be no plainer.
    pub fn consume(&mut self, amt: usize) -> Result<(), Failure>
        ensures lent { Lent self.old self.new }
        ensures call { called (said_done result) self.new ≡ consume self.old.script.now self.old.stock.now amt (world_of self.old) }
    {
        self.calls = 0;
        self.state = self.state.consume(self.sizes(), amt)?;
        Ok(())
    }

    // Straight from the device. The storage has no part in it.
    fn read_direct(&mut self, destination: &mut [u8]) -> Reply
        requires taken { self.old.state.taken ≤ length self.old.stock.now }
        requires none { self.old.calls ≡ 0 }
        ensures lent { Lent self.old self.new }
        ensures call { reading (handed result) self.new destination.new ≡ direct self.old.script.now self.old.stock.now destination.old (world_of self.old) }
    {
        let State { taken, used, .. } = self.state;
        let e = device::read(self.script, used, destination, self.stock, taken);
        self.calls += 1;
        self.state = State {
            pos: 0,
            filled: 0,
            taken: taken + device::moved(e.reply),
            used: e.used,
        };
        e.reply
    }

    // The first n bytes from pos on, copied to the front of the destination.
    fn copy_out(&self, destination: &mut [u8], n: usize)
        requires held { self.now.state.pos + n ≤ length self.now.storage.now }
        requires room { n ≤ length destination.old }
        ensures { destination.new ≡ put destination.old 0 (drop self.now.state.pos self.now.storage.now) n }
    {
        let pos = self.state.pos;
        bytes::copy(destination, 0, &self.storage[pos..], n);
    }

    // Through the buffer. A fill that failed leaves nothing to copy.
    fn read_copied(&mut self, destination: &mut [u8]) -> Reply
        requires fit { Fit self.old.script.now self.old.stock.now (world_of self.old) }
        requires none { self.old.calls ≡ 0 }
        ensures lent { Lent self.old self.new }
        ensures call { reading (handed result) self.new destination.new ≡ copied destination.old (Buffer.fill_buf (drop self.old.state.used self.old.script.now) self.old.stock.now (world_of self.old)) }
    {
        let n = self.fill()?.min(destination.len());
        self.copy_out(destination, n);
        self.state = self.state.consumed(n);
        Ok(n)
    }

    // What is buffered, as much of it as finds room. The usual way through `read`, so it has no part
    // in the calls that may meet the device.
    fn read_buffered(&mut self, destination: &mut [u8]) -> usize
        requires within { (self.old.state.pos ≤ self.old.state.filled) × (self.old.state.filled ≤ length self.old.storage.now) }
        requires none { self.old.calls ≡ 0 }
        ensures lent { Lent self.old self.new }
        ensures call { reading (ok result) self.new destination.new ≡ copied destination.old (buffered (world_of self.old)) }
    {
        let State { pos, filled, .. } = self.state;
        let n = (filled - pos).min(destination.len());
        self.copy_out(destination, n);
        self.state.pos = pos + n;
        n
    }

    pub fn read(&mut self, destination: &mut [u8]) -> Result<usize, Failure>
        ensures lent { Lent self.old self.new }
        ensures call { reading (said_count result) self.new destination.new ≡ read self.old.script.now self.old.stock.now destination.old (world_of self.old) }
    {
        self.calls = 0;
        self.check()?;
        check_length(destination.len())?;
        if self.state.pos < self.state.filled {
            return Ok(self.read_buffered(destination));
        }
        if destination.len() < self.storage.len() {
            return Ok(self.read_copied(destination)?);
        }
        Ok(self.read_direct(destination)?)
    }

    // The storage shifted back where something was consumed.
    fn shift_back(&mut self)
        requires { self.old.state.filled ≤ length self.old.storage.now }
        ensures lent { Lent self.old self.new }
        ensures calls { self.new.calls ≡ self.old.calls }
        ensures shifted { world_of self.new ≡ shifted_back (world_of self.old) }
    {
        if 0 < self.state.pos {
            self.backshift();
        }
    }

    // Reads on until n bytes are buffered, the device has no more, or it fails.
    fn peek_loop(&mut self, n: usize) -> Reply
        requires fit { Fit self.old.script.now self.old.stock.now (world_of self.old) }
        requires none { self.old.calls ≡ 0 }
        ensures lent { Lent self.old self.new }
        ensures peeked { fetched result self.new ≡ peek_loop (drop self.old.state.used self.old.script.now) self.old.stock.now n 0 (world_of self.old) }
    {
        while self.state.count() < n {
            self.shift_back();
            if self.read_more()? == 0 {
                return Ok(self.state.count());
            }
        }
        Ok(n)
    }

    // What it shows is `peeked`'s part of the storage.
    pub fn peek(&mut self, n: usize) -> Result<usize, Failure>
        ensures lent { Lent self.old self.new }
        ensures call { called (said_count result) self.new ≡ peek self.old.script.now self.old.stock.now n (world_of self.old) }
    {
        self.calls = 0;
        self.check()?;
        check_peek(self.storage.len(), n)?;
        Ok(self.peek_loop(n)?)
    }

    pub fn seek_relative(&mut self, offset: i64) -> Result<(), Failure>
        ensures lent { Lent self.old self.new }
        ensures call { called (said_done result) self.new ≡ seek_relative self.old.script.now self.old.stock.now offset (world_of self.old) }
    {
        self.calls = 0;
        self.state = self.state.seek_relative(self.sizes(), offset)?;
        Ok(())
    }
}
