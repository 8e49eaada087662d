// Module 3, the buffered writer: std's bufwriter.rs. Its `flush_buf` is in crate flushing, with the
// type; methods can only stand there, so what is here is functions over the lent writer.
ghost use Rattle.std.specs.Prelude.{◌≡◌, ◌+◌, ◌≤◌, min, length, take};
ghost use Rattle.laws.specs.Put.{put};
ghost use Rattle.card.specs.Limits.{length_refusal};
ghost use Rattle.card.specs.Answers.{said_count, said_done};
ghost use Rattle.flushing.specs.World.{Fit, Sound, Lent, world, counting, tells, reported, refusing, fresh};
ghost use Rattle.flushing.specs.Send.{whole_failure};
ghost use Rattle.writer.specs.Writer.{device_write_all, placed, readied, cold, written, write_call, write_all_call, flush_call};

use crate::way::Way;
use card::{Failure, bytes, device, limits};
use flushing::{BufWriter, State, Stop, send};

// ---- the default device write

// Why it is not done. No `From`: `Stop` has one, the flush's, and zero is another failure here. The
// two are alike in shape alone.
fn whole_failure(stop: Stop) -> Failure
    ensures { result ≡ whole_failure stop }
{
    match stop {
        Stop::Zero => Failure::Whole,
        Stop::Failed(code) => Failure::Error(code),
    }
}

// Past the buffer, whatever it holds: the slice is offered to the device until all of it is taken.
// It refuses nothing.
pub fn device_write_all(w: &mut BufWriter<'_, '_>, slice: &[u8]) -> Result<(), Failure>
    ensures lent { Lent w.old w.new }
    ensures told { tells (said_done result) w.new ≡ reported (device_write_all w.old.script.now (world w.old) slice.now) }
{
    let run = send::send_all(slice, w.script, w.state.used, w.medium, w.state.out);
    w.state.out += run.sent;
    w.state.used = run.used;
    w.calls = run.writes;
    run.outcome.map_err(whole_failure)
}

// ---- a slice that does not fit with room to spare

// `Sound`, and that the call has made no device call yet, are asked for by clauses: a type around
// the lent writer would have to be proved again wherever the state changes, also where a call fails.

// The slice is kept behind the held bytes.
fn store(w: &mut BufWriter<'_, '_>, slice: &[u8])
    requires { w.old.state.held + length slice.now ≤ length w.old.storage.now }
    ensures lent { Lent w.old w.new }
    ensures kept { w.new.storage.now ≡ put w.old.storage.now w.old.state.held slice.now (length slice.now) }
    ensures state { w.new.state ≡ record { held = w.old.state.held + length slice.now; out = w.old.state.out; used = w.old.state.used } }
    ensures same { w.new.medium.now ≡ w.old.medium.now }
    ensures calls { w.new.calls ≡ w.old.calls }
{
    bytes::copy(w.storage, w.state.held, slice, slice.len());
    w.state.held += slice.len();
}

// A slice that is stored where it is shorter than the capacity, and goes to the device where not.
fn place<T: Way>(w: &mut BufWriter<'_, '_>, slice: &[u8]) -> Result<T, Failure>
    requires fit { Fit w.old.script.now (counting w.old) }
    requires room { w.old.state.held + min (length slice.now) (length w.old.storage.now) ≤ length w.old.storage.now }
    ensures lent { Lent w.old w.new }
    ensures told { tells (T.says result) w.new ≡ reported (placed (T.stored (length slice.now)) (λ v. T.direct w.old.script.now v slice.now) (counting w.old) slice.now) }
{
    if slice.len() < w.storage.len() {
        store(w, slice);
        return Ok(T::stored(slice.len()));
    }
    T::direct(w, slice)
}

// The buffer is flushed first where so many bytes do not fit.
fn make_room(w: &mut BufWriter<'_, '_>, length: usize) -> Result<(), Failure>
    requires sound { Sound w.old.script.now (world w.old) }
    requires begun { w.old.calls ≡ 0 }
    ensures lent { Lent w.old w.new }
    ensures told { tells (said_done result) w.new ≡ reported (readied w.old.script.now (world w.old) length) }
{
    if w.storage.len() - w.state.held < length {
        return w.flush_buf();
    }
    Ok(())
}

fn cold<T: Way>(w: &mut BufWriter<'_, '_>, slice: &[u8]) -> Result<T, Failure>
    requires sound { Sound w.old.script.now (world w.old) }
    requires begun { w.old.calls ≡ 0 }
    ensures lent { Lent w.old w.new }
    ensures told { tells (T.says result) w.new ≡ reported (cold w.old.script.now (T.stored (length slice.now)) (λ v. T.direct w.old.script.now v slice.now) (world w.old) slice.now) }
{
    make_room(w, slice.len())?;
    place(w, slice)
}

// A slice that is shorter than the spare is stored, and any other goes the way past the buffer.
fn unrefused<T: Way>(w: &mut BufWriter<'_, '_>, slice: &[u8]) -> Result<T, Failure>
    requires sound { Sound w.old.script.now (world w.old) }
    requires begun { w.old.calls ≡ 0 }
    ensures lent { Lent w.old w.new }
    ensures told { tells (T.says result) w.new ≡ reported (written w.old.script.now (T.stored (length slice.now)) (λ v. T.direct w.old.script.now v slice.now) (world w.old) slice.now) }
{
    if slice.len() < w.storage.len() - w.state.held {
        store(w, slice);
        return Ok(T::stored(slice.len()));
    }
    cold(w, slice)
}

// Either call, on every input.
fn call<T: Way>(w: &mut BufWriter<'_, '_>, slice: &[u8]) -> Result<T, Failure>
    ensures lent { Lent w.old w.new }
    ensures told { tells (T.says result) w.new ≡ reported (refusing w.old.script.now (world w.old) (length_refusal (length slice.now)) (λ u. written w.old.script.now (T.stored (length slice.now)) (λ v. T.direct w.old.script.now v slice.now) u slice.now)) }
{
    w.calls = 0;
    w.numbers().check()?;
    limits::check_length(slice.len())?;
    unrefused(w, slice)
}

// ---- the public calls

// The state of a new writer.
pub fn new() -> State
    ensures { result ≡ fresh }
{
    State {
        held: 0,
        out: 0,
        used: 0,
    }
}

// The held bytes, as a part of the lent storage.
pub fn buffer(state: State, storage: &[u8]) -> &[u8]
    ensures { result.now ≡ take state.held storage.now }
{
    &storage[..state.held.min(storage.len())]
}

pub fn write(w: &mut BufWriter<'_, '_>, slice: &[u8]) -> Result<usize, Failure>
    ensures lent { Lent w.old w.new }
    ensures told { tells (said_count result) w.new ≡ reported (write_call w.old.script.now (world w.old) slice.now) }
{
    call(w, slice)
}

pub fn write_all(w: &mut BufWriter<'_, '_>, slice: &[u8]) -> Result<(), Failure>
    ensures lent { Lent w.old w.new }
    ensures told { tells (said_done result) w.new ≡ reported (write_all_call w.old.script.now (world w.old) slice.now) }
{
    call(w, slice)
}

// The flush of the buffer, then the device's. What the first refuses or fails at is the answer.
pub fn flush(w: &mut BufWriter<'_, '_>) -> Result<(), Failure>
    ensures lent { Lent w.old w.new }
    ensures told { tells (said_done result) w.new ≡ reported (flush_call w.old.script.now (world w.old)) }
{
    w.flush_buf()?;
    let e = device::flush(w.script, w.state.used);
    w.state.used = e.used;
    w.calls += 1;
    e.reply?;
    Ok(())
}
