// The buffer of the reader. These steps are the reader's own: they refuse nothing, and ask of
// their callers what a refusal would have caught (`Fit`), and that no device call was made yet, from
// where the definitions count. A type for that would have to be proved again wherever the state
// changes, also where a call fails.
ghost use Rattle.std.specs.Prelude.{◌≡◌, ◌≤◌, length, drop};
ghost use Rattle.reader.specs.World.{Fit, Lent, world_of, fetched, since};
ghost use Rattle.reader.specs.Buffer.{backshift, read_more, fill_buf};

use crate::BufReader;
use card::{Reply, bytes, device};

impl BufReader<'_> {
    // What was consumed leaves the storage.
    pub(crate) fn backshift(&mut self)
        requires { self.old.state.filled ≤ length self.old.storage.now }
        ensures lent { Lent self.old self.new }
        ensures calls { self.new.calls ≡ self.old.calls }
        ensures shifted { world_of self.new ≡ backshift (world_of self.old) }
    {
        bytes::shift(self.storage, self.state.pos, self.state.filled);
        self.state.filled = self.state.count();
        self.state.pos = 0;
    }

    // One device read behind what is filled.
    pub(crate) fn read_more(&mut self) -> Reply
        requires fit { Fit self.old.script.now self.old.stock.now (world_of self.old) }
        requires few { self.old.calls ≤ self.old.state.used }
        ensures lent { Lent self.old self.new }
        ensures more { fetched result self.new ≡ since self.old.calls (read_more (drop self.old.state.used self.old.script.now) self.old.stock.now (world_of self.old)) }
    {
        let filled = self.state.filled;
        let taken = self.state.taken;
        let room = &mut self.storage[filled..];
        let e = device::read(self.script, self.state.used, room, self.stock, taken);
        let n = device::moved(e.reply);
        self.calls += 1;
        self.state.filled = filled + n;
        self.state.taken = taken + n;
        self.state.used = e.used;
        e.reply
    }

    // The device is asked only when nothing is buffered, and then for a whole storage.
    pub(crate) fn fill(&mut self) -> Reply
        requires fit { Fit self.old.script.now self.old.stock.now (world_of self.old) }
        requires none { self.old.calls ≡ 0 }
        ensures lent { Lent self.old self.new }
        ensures filled { fetched result self.new ≡ fill_buf (drop self.old.state.used self.old.script.now) self.old.stock.now (world_of self.old) }
    {
        if self.state.pos == self.state.filled {
            self.state = self.state.discarded();
            return self.read_more();
        }
        Ok(self.state.count())
    }
}
