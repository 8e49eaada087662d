// Module 4, the line writer: std's linewritershim.rs, as functions over the lent writer.
ghost use Rattle.std.specs.Prelude.{◌≡◌, ◌≤◌, length, take, drop};
ghost use Rattle.card.specs.Limits.{bytes_most};
ghost use Rattle.card.specs.Answers.{said_count, said_done};
ghost use Rattle.flushing.specs.World.{Fit, Sound, Lent, world, counting, tells, reported, and_then};
ghost use Rattle.flushing.specs.Flush.{flush_buf};
ghost use Rattle.writer.specs.Writer.{write_all, device_write_all, flush_call};
ghost use Rattle.line.specs.Line.{ends_line, window, tail_kept, send_lines, line_write_call, line_write_all_call};

use crate::newline;
use crate::plain::Plain;
use card::{Failure, bytes, device, limits};
use flushing::BufWriter;
use writer::bufwriter;

// Whether the last held byte is a newline.
fn ends_line(w: &BufWriter<'_, '_>) -> bool
    requires { w.now.state.held ≤ length w.now.storage.now }
    ensures { result ≡ ends_line w.now.storage.now w.now.state.held }
{
    let held = w.state.held;
    if held == 0 {
        return false;
    }
    w.storage[held - 1] == newline::NEWLINE
}

// How much of the bytes that look for a line's end is kept: up to their last newline, or all.
fn window_kept(area: &[u8]) -> usize
    ensures { result ≡ window area.now }
{
    let lines = newline::lines_length(area);
    if lines == 0 {
        return area.len();
    }
    lines
}

// How many bytes are kept of what follows the f bytes taken, when the lines are e bytes long.
fn tail_kept(slice: &[u8], capacity: usize, e: usize, f: usize) -> usize
    requires { (f ≤ e) × (e ≤ length slice.now) }
    ensures { result ≡ tail_kept capacity slice.now e f }
{
    if f == 0 {
        return 0;
    }
    if e <= f {
        if capacity <= slice.len() - f {
            return 0;
        }
        return slice.len() - f;
    }
    if e - f <= capacity {
        return e - f;
    }
    window_kept(&slice[f..f + capacity])
}

// The lines by one device write, and as much of what follows as is kept.
fn send_lines(w: &mut BufWriter<'_, '_>, slice: &[u8], e: usize) -> Result<usize, Failure>
    requires fit { Fit w.old.script.now (counting w.old) }
    requires empty { w.old.state.held ≡ 0 }
    requires within { e ≤ length slice.now }
    ensures lent { Lent w.old w.new }
    ensures told { tells (said_count result) w.new ≡ reported (send_lines w.old.script.now (counting w.old) slice.now e) }
{
    let x = device::write(w.script, w.state.used, &slice[..e], w.medium, w.state.out);
    w.calls += 1;
    w.state.used = x.used;
    let f = x.reply?;
    let kept = tail_kept(slice, w.storage.len(), e, f);
    bytes::copy(w.storage, w.state.held, &slice[f..], kept);
    w.state.held += kept;
    w.state.out += f;
    Ok(f + kept)
}

// ---- a flush of the buffer, and then the rest

// `Sound` stands in clauses as in `writer`. So do the two bounds on a slice and its lines: each is of
// a slice that a caller cut, and `send_lines` keeps across the cut, so slice and length go together.

fn flush_then_lines(w: &mut BufWriter<'_, '_>, slice: &[u8], e: usize) -> Result<usize, Failure>
    requires sound { Sound w.old.script.now (world w.old) }
    requires within { e ≤ length slice.now }
    ensures lent { Lent w.old w.new }
    ensures told { tells (said_count result) w.new ≡ reported (and_then (flush_buf w.old.script.now (world w.old)) (λ v. send_lines w.old.script.now v slice.now e)) }
{
    w.flush_buf()?;
    send_lines(w, slice, e)
}

// The plain call counts from none, so the device calls before it are added, here and wherever one
// call follows another: with a closure for the call that would be no shorter.
fn flush_then<T: Plain>(w: &mut BufWriter<'_, '_>, slice: &[u8]) -> Result<T, Failure>
    requires sound { Sound w.old.script.now (world w.old) }
    requires short { length slice.now ≤ bytes_most }
    ensures lent { Lent w.old w.new }
    ensures told { tells (T.says result) w.new ≡ reported (and_then (flush_buf w.old.script.now (world w.old)) (λ v. T.call w.old.script.now v slice.now)) }
{
    w.flush_buf()?;
    let made = w.calls;
    let answer = T::plain(w, slice);
    w.calls += made;
    answer
}

// ---- `write_all` with a newline

// Nothing is held: the lines go by the default device write.
fn lines_direct(w: &mut BufWriter<'_, '_>, slice: &[u8], e: usize) -> Result<(), Failure>
    requires sound { Sound w.old.script.now (world w.old) }
    requires short { length slice.now ≤ bytes_most }
    requires within { e ≤ length slice.now }
    ensures lent { Lent w.old w.new }
    ensures told { tells (said_done result) w.new ≡ reported (and_then (device_write_all w.old.script.now (world w.old) (take e slice.now)) (λ v. write_all w.old.script.now v (drop e slice.now))) }
{
    bufwriter::device_write_all(w, &slice[..e])?;
    let made = w.calls;
    let answer = bufwriter::write_all(w, &slice[e..]);
    w.calls += made;
    answer
}

// Something is held: the lines go through the buffer and a flush of it.
fn lines_through(w: &mut BufWriter<'_, '_>, slice: &[u8], e: usize) -> Result<(), Failure>
    requires sound { Sound w.old.script.now (world w.old) }
    requires short { length slice.now ≤ bytes_most }
    requires within { e ≤ length slice.now }
    ensures lent { Lent w.old w.new }
    ensures told { tells (said_done result) w.new ≡ reported (and_then (write_all w.old.script.now (world w.old) (take e slice.now)) (λ v. and_then (flush_buf w.old.script.now v) (λ u. write_all w.old.script.now u (drop e slice.now)))) }
{
    bufwriter::write_all(w, &slice[..e])?;
    let made = w.calls;
    let answer = flush_then::<()>(w, &slice[e..]);
    w.calls += made;
    answer
}

// ---- the public calls

// `write` and `write_all` share all but what follows a newline, which is the most of either.
pub fn write(w: &mut BufWriter<'_, '_>, slice: &[u8]) -> Result<usize, Failure>
    ensures lent { Lent w.old w.new }
    ensures told { tells (said_count result) w.new ≡ reported (line_write_call w.old.script.now (world w.old) slice.now) }
{
    w.calls = 0;
    w.numbers().check()?;
    limits::check_length(slice.len())?;
    let e = newline::lines_length(slice);
    if e != 0 {
        return flush_then_lines(w, slice, e);
    }
    if ends_line(w) {
        return flush_then(w, slice);
    }
    bufwriter::write(w, slice)
}

pub fn write_all(w: &mut BufWriter<'_, '_>, slice: &[u8]) -> Result<(), Failure>
    ensures lent { Lent w.old w.new }
    ensures told { tells (said_done result) w.new ≡ reported (line_write_all_call w.old.script.now (world w.old) slice.now) }
{
    w.calls = 0;
    w.numbers().check()?;
    limits::check_length(slice.len())?;
    let e = newline::lines_length(slice);
    if e != 0 {
        if w.state.held == 0 {
            return lines_direct(w, slice, e);
        }
        return lines_through(w, slice, e);
    }
    if ends_line(w) {
        return flush_then(w, slice);
    }
    bufwriter::write_all(w, slice)
}

// The line writer's flush is the plain one.
pub fn flush(w: &mut BufWriter<'_, '_>) -> Result<(), Failure>
    ensures lent { Lent w.old w.new }
    ensures told { tells (said_done result) w.new ≡ reported (flush_call w.old.script.now (world w.old)) }
{
    bufwriter::flush(w)
}
