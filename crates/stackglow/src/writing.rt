// The writer's calls. The state's numbers go in and out through `held`, `out` and `used`; `value`
// and `calls` only go out, and what they had does not matter. Each number is a parameter, and the
// functions are alike, because C calls them so; with a closure for the call that each makes they
// would be no plainer.
ghost use Rattle.std.specs.Prelude.{◌≡◌, List, ℕ};
ghost use Rattle.card.specs.Answers.{said};
ghost use Rattle.flushing.specs.World.{world_of, told, reported};
ghost use Rattle.flushing.specs.Flush.{flush_buf_call};
ghost use Rattle.writer.specs.Writer.{write_call, write_all_call, flush_call};
ghost use Rattle.stackglow.specs.Numbers.{number_of, value_of};
ghost use Rattle.stackglow.specs.Writing.{Kept, handed, state_of};

use crate::answer;
use card::Answer;
use flushing::{BufWriter, State};
use writer::bufwriter;

// The numbers that go in and out, where the caller keeps them.
#[derive(Drop)]
pub struct Places<'a> {
    pub held: &'a mut usize,
    pub out: &'a mut usize,
    pub used: &'a mut usize,
    pub value: &'a mut usize,
    pub calls: &'a mut usize,
}

impl Places<'_> {
    pub fn state(&self) -> State
        ensures { result ≡ state_of self.now.held.now self.now.out.now self.now.used.now }
    {
        State {
            held: *self.held,
            out: *self.out,
            used: *self.used,
        }
    }

    // What a call left, put where the caller looks for it; the answer's number is returned.
    pub fn hand(&mut self, answer: Answer, state: State, calls: usize) -> u32
        ensures kept { Kept self.old self.new }
        ensures number { result ≡ number_of (said answer) }
        ensures value { self.new.value.now ≡ value_of (said answer) }
        ensures calls { self.new.calls.now ≡ calls }
        ensures state { state_of self.new.held.now self.new.out.now self.new.used.now ≡ state }
        ensures handed { (storage medium : List ℕ) → record { number = result; value = self.new.value.now; calls = self.new.calls.now; held = self.new.held.now; out = self.new.out.now; used = self.new.used.now; storage = storage; medium = medium } ≡ handed (told (record { answer = said answer; calls = calls; state = state }) storage medium) }
    {
        *self.held = state.held;
        *self.out = state.out;
        *self.used = state.used;
        *self.value = answer::value(answer);
        *self.calls = calls;
        answer::number(answer)
    }
}

pub fn stackglow_flush_buf(
    held: &mut usize,
    out: &mut usize,
    used: &mut usize,
    storage: &mut [u8],
    script: &[u32],
    medium: &mut [u8],
    value: &mut usize,
    calls: &mut usize,
) -> u32
    ensures { record { number = result; value = value.new; calls = calls.new; held = held.new; out = out.new; used = used.new; storage = storage.new; medium = medium.new } ≡ handed (reported (flush_buf_call script.now (world_of (state_of held.old out.old used.old) storage.old medium.old))) }
{
    let mut places = Places {
        held,
        out,
        used,
        value,
        calls,
    };
    let mut w = BufWriter {
        state: places.state(),
        storage,
        script,
        medium,
        calls: 0,
    };
    let answer = card::uncounted(w.flush_buf());
    places.hand(answer, w.state, w.calls)
}

pub fn stackglow_write(
    held: &mut usize,
    out: &mut usize,
    used: &mut usize,
    storage: &mut [u8],
    script: &[u32],
    medium: &mut [u8],
    slice: &[u8],
    value: &mut usize,
    calls: &mut usize,
) -> u32
    ensures { record { number = result; value = value.new; calls = calls.new; held = held.new; out = out.new; used = used.new; storage = storage.new; medium = medium.new } ≡ handed (reported (write_call script.now (world_of (state_of held.old out.old used.old) storage.old medium.old) slice.now)) }
{
    let mut places = Places {
        held,
        out,
        used,
        value,
        calls,
    };
    let mut w = BufWriter {
        state: places.state(),
        storage,
        script,
        medium,
        calls: 0,
    };
    let answer = card::counted(bufwriter::write(&mut w, slice));
    places.hand(answer, w.state, w.calls)
}

pub fn stackglow_write_all(
    held: &mut usize,
    out: &mut usize,
    used: &mut usize,
    storage: &mut [u8],
    script: &[u32],
    medium: &mut [u8],
    slice: &[u8],
    value: &mut usize,
    calls: &mut usize,
) -> u32
    ensures { record { number = result; value = value.new; calls = calls.new; held = held.new; out = out.new; used = used.new; storage = storage.new; medium = medium.new } ≡ handed (reported (write_all_call script.now (world_of (state_of held.old out.old used.old) storage.old medium.old) slice.now)) }
{
    let mut places = Places {
        held,
        out,
        used,
        value,
        calls,
    };
    let mut w = BufWriter {
        state: places.state(),
        storage,
        script,
        medium,
        calls: 0,
    };
    let answer = card::uncounted(bufwriter::write_all(&mut w, slice));
    places.hand(answer, w.state, w.calls)
}

pub fn stackglow_flush(
    held: &mut usize,
    out: &mut usize,
    used: &mut usize,
    storage: &mut [u8],
    script: &[u32],
    medium: &mut [u8],
    value: &mut usize,
    calls: &mut usize,
) -> u32
    ensures { record { number = result; value = value.new; calls = calls.new; held = held.new; out = out.new; used = used.new; storage = storage.new; medium = medium.new } ≡ handed (reported (flush_call script.now (world_of (state_of held.old out.old used.old) storage.old medium.old))) }
{
    let mut places = Places {
        held,
        out,
        used,
        value,
        calls,
    };
    let mut w = BufWriter {
        state: places.state(),
        storage,
        script,
        medium,
        calls: 0,
    };
    let answer = card::uncounted(bufwriter::flush(&mut w));
    places.hand(answer, w.state, w.calls)
}
