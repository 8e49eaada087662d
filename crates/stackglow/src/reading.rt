// The reader's calls. The state's numbers go in and out through `pos`, `filled`, `taken` and
// `used`; `value` and `calls` only go out, and what they had does not matter. What `peek` and fill
// show is the caller's own storage: `value` bytes of it from `pos` on. Each number is a parameter,
// and the functions are alike, because C calls them so; with a closure for the call that each makes they
// would be no plainer.
ghost use Rattle.std.specs.Prelude.{◌≡◌, List, ℕ};
ghost use Rattle.card.specs.Answers.{said};
ghost use Rattle.reader.specs.World.{world};
ghost use Rattle.reader.specs.Reader.{fill_buf, consume, seek_relative, peek, read};
ghost use Rattle.stackglow.specs.Numbers.{number_of, value_of};
ghost use Rattle.stackglow.specs.Reading.{Kept, handed, handed_read, state_of};

use crate::answer;
use card::Answer;
use reader::{BufReader, Sizes, State};

// The numbers that go in and out, where the caller keeps them.
#[derive(Drop)]
struct Places<'a> {
    pos: &'a mut usize,
    filled: &'a mut usize,
    taken: &'a mut usize,
    used: &'a mut usize,
    value: &'a mut usize,
    calls: &'a mut usize,
}

impl Places<'_> {
    fn state(&self) -> State
        ensures { result ≡ state_of self.now.pos.now self.now.filled.now self.now.taken.now self.now.used.now }
    {
        State {
            pos: *self.pos,
            filled: *self.filled,
            taken: *self.taken,
            used: *self.used,
        }
    }

    // What a call left, put where the caller looks for it; the answer's number is returned.
    fn hand(&mut self, answer: Answer, state: State, calls: usize) -> u32
        ensures kept { Kept self.old self.new }
        ensures number { result ≡ number_of (said answer) }
        ensures value { self.new.value.now ≡ value_of (said answer) }
        ensures calls { self.new.calls.now ≡ calls }
        ensures state { state_of self.new.pos.now self.new.filled.now self.new.taken.now self.new.used.now ≡ state }
    {
        *self.pos = state.pos;
        *self.filled = state.filled;
        *self.taken = state.taken;
        *self.used = state.used;
        *self.value = answer::value(answer);
        *self.calls = calls;
        answer::number(answer)
    }
}

pub fn stackglow_fill_buf(
    pos: &mut usize,
    filled: &mut usize,
    taken: &mut usize,
    used: &mut usize,
    storage: &mut [u8],
    script: &[u32],
    stock: &[u8],
    value: &mut usize,
    calls: &mut usize,
) -> u32
    ensures { record { number = result; value = value.new; calls = calls.new; pos = pos.new; filled = filled.new; taken = taken.new; used = used.new; storage = storage.new } ≡ handed (fill_buf script.now stock.now (world storage.old (state_of pos.old filled.old taken.old used.old))) }
{
    let mut places = Places {
        pos,
        filled,
        taken,
        used,
        value,
        calls,
    };
    let mut reader = BufReader::new(places.state(), storage, script, stock);
    let answer = reader.fill_buf();
    places.hand(card::counted(answer), reader.state, reader.calls)
}

pub fn stackglow_consume(
    pos: &mut usize,
    filled: &mut usize,
    taken: &mut usize,
    used: &mut usize,
    storage: &[u8],
    script: &[u32],
    stock: &[u8],
    amt: usize,
    value: &mut usize,
    calls: &mut usize,
) -> u32
    ensures { record { number = result; value = value.new; calls = calls.new; pos = pos.new; filled = filled.new; taken = taken.new; used = used.new; storage = storage.now } ≡ handed (consume script.now stock.now amt (world storage.now (state_of pos.old filled.old taken.old used.old))) }
{
    let mut places = Places {
        pos,
        filled,
        taken,
        used,
        value,
        calls,
    };
    let state = places.state();
    let after = state.consume(Sizes::of(storage, script, stock), amt);
    places.hand(after.map(|_| None), after.unwrap_or(state), 0)
}

pub fn stackglow_read(
    pos: &mut usize,
    filled: &mut usize,
    taken: &mut usize,
    used: &mut usize,
    storage: &mut [u8],
    script: &[u32],
    stock: &[u8],
    destination: &mut [u8],
    value: &mut usize,
    calls: &mut usize,
) -> u32
    ensures { record { destination = destination.new; call = record { number = result; value = value.new; calls = calls.new; pos = pos.new; filled = filled.new; taken = taken.new; used = used.new; storage = storage.new } } ≡ handed_read (read script.now stock.now destination.old (world storage.old (state_of pos.old filled.old taken.old used.old))) }
{
    let mut places = Places {
        pos,
        filled,
        taken,
        used,
        value,
        calls,
    };
    let mut reader = BufReader::new(places.state(), storage, script, stock);
    let answer = reader.read(destination);
    places.hand(card::counted(answer), reader.state, reader.calls)
}

pub fn stackglow_peek(
    pos: &mut usize,
    filled: &mut usize,
    taken: &mut usize,
    used: &mut usize,
    storage: &mut [u8],
    script: &[u32],
    stock: &[u8],
    n: usize,
    value: &mut usize,
    calls: &mut usize,
) -> u32
    ensures { record { number = result; value = value.new; calls = calls.new; pos = pos.new; filled = filled.new; taken = taken.new; used = used.new; storage = storage.new } ≡ handed (peek script.now stock.now n (world storage.old (state_of pos.old filled.old taken.old used.old))) }
{
    let mut places = Places {
        pos,
        filled,
        taken,
        used,
        value,
        calls,
    };
    let mut reader = BufReader::new(places.state(), storage, script, stock);
    let answer = reader.peek(n);
    places.hand(card::counted(answer), reader.state, reader.calls)
}

pub fn stackglow_seek_relative(
    pos: &mut usize,
    filled: &mut usize,
    taken: &mut usize,
    used: &mut usize,
    storage: &[u8],
    script: &[u32],
    stock: &[u8],
    offset: i64,
    value: &mut usize,
    calls: &mut usize,
) -> u32
    ensures { record { number = result; value = value.new; calls = calls.new; pos = pos.new; filled = filled.new; taken = taken.new; used = used.new; storage = storage.now } ≡ handed (seek_relative script.now stock.now offset (world storage.now (state_of pos.old filled.old taken.old used.old))) }
{
    let mut places = Places {
        pos,
        filled,
        taken,
        used,
        value,
        calls,
    };
    let state = places.state();
    let after = state.seek_relative(Sizes::of(storage, script, stock), offset);
    places.hand(after.map(|_| None), after.unwrap_or(state), 0)
}
