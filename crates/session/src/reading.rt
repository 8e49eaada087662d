// A reader's session.
ghost use Rattle.std.specs.Prelude.{◌≡◌, ◌≤◌, replicate};
ghost use Rattle.card.specs.Limits.{bytes_most};
ghost use Rattle.card.specs.Answers.{said};
ghost use Rattle.reader.specs.World.{Lent, world_of, called};
ghost use Rattle.reader.specs.Reader as Reader;
ghost use Rattle.form.specs.Calls.{asked};
ghost use Rattle.session.specs.Reading.{offset_of, stepped, read_step, reader_step, reader_ends};
ghost use Rattle.session.specs.Steps.{Shows, Bounded, Runs, Steps, Lines};

use card::limits::BYTES_MOST;
use card::{Answer, counted, uncounted};
use form::{Call, Header, READER, calls};
use reader::BufReader;
use text::{Name, Page};

// How many bytes an answer shows: its count after ok, none for every other answer.
fn shown(answer: Answer) -> usize
    ensures { Shows (said answer) result }
{
    match answer {
        Ok(count) => count.unwrap_or(0),
        Err(_) => 0,
    }
}

// The line of a call that left the reader so, with what its answer shows of the bytes.
fn line(page: &mut Page<'_>, name: Name, answer: Answer, r: &BufReader<'_>, bytes: &[u8])
    ensures { Steps (stepped name (called (said answer) r.now) bytes.now) page.old page.new (world_of r.now) }
{
    let bytes = crate::part(bytes, 0, shown(answer));
    page.reader_line(name, answer, r.calls, r.state.pos, r.state.filled, bytes);
}

// `read` into a destination.
fn read_into(r: &mut BufReader<'_>, destination: &mut [u8], page: &mut Page<'_>)
    ensures lent { Lent r.old r.new }
    ensures steps { Steps (read_step (Reader.read r.old.script.now r.old.stock.now destination.old (world_of r.old))) page.old page.new (world_of r.new) }
{
    let answer = counted(r.read(destination));
    line(page, Name::Read, answer, r, destination);
}

// `read` n, into a destination of n zeros.
fn read(r: &mut BufReader<'_>, n: usize, page: &mut Page<'_>)
    requires { n ≤ bytes_most }
    ensures lent { Lent r.old r.new }
    ensures steps { Steps (read_step (Reader.read r.old.script.now r.old.stock.now (replicate n 0) (world_of r.old))) page.old page.new (world_of r.new) }
{
    let mut destination = [0u8; BYTES_MOST];
    read_into(r, &mut destination[..n], page);
}

// The offset of a seek. Direction and size are the session's two numbers (`form::Call`).
fn offset(back: bool, size: usize) -> i64
    requires { Bounded back size }
    ensures { result ≡ offset_of back size }
{
    let magnitude = size as i64;
    if back { -magnitude } else { magnitude }
}

// One call of the session, and its line. The reader and the page are lent apart: what a line shows is
// lent by the reader while the page changes, which a method of a struct of both could not do.
fn step(session: &[u8], call: Call, r: &mut BufReader<'_>, page: &mut Page<'_>)
    requires { Runs (asked session.now call) }
    ensures lent { Lent r.old r.new }
    ensures steps { Steps (reader_step r.old.script.now r.old.stock.now (world_of r.old) (asked session.now call)) page.old page.new (world_of r.new) }
{
    match call {
        Call::Read(n) => read(r, n, page),
        Call::Peek(n) => {
            let answer = counted(r.peek(n));
            line(page, Name::Peek, answer, r, r.peeked(n));
        }
        Call::Consume(n) => {
            let answer = uncounted(r.consume(n));
            line(page, Name::Consume, answer, r, b"");
        }
        Call::Seek(back, size) => {
            let answer = uncounted(r.seek_relative(offset(back, size)));
            line(page, Name::SeekRelative, answer, r, b"");
        }
        Call::Fill => {
            let answer = counted(r.fill_buf());
            line(page, Name::Fill, answer, r, r.buffered());
        }
        Call::Write(_, _) | Call::WriteAll(_, _) | Call::Flush => {}
    }
}

// The calls of a session, and its end line. `writing::run` is alike: one function for both would take
// step and end as closures, and would have to say of any such closures what each says of its own.
pub(crate) fn run(session: &[u8], header: Header, r: &mut BufReader<'_>, page: &mut Page<'_>)
    ensures { Lines session.now 2 header.count header.first (λ w call. reader_step r.old.script.now r.old.stock.now w call) reader_ends (world_of r.old) page.old page.new }
{
    let mut place = header.first;
    for _ in 0..header.count {
        let Ok((call, after)) = calls::read_call(session, READER, place) else {
            return;
        };
        step(session, call, r, page);
        place = after;
    }
    let taken = r.state.taken;
    page.reader_end(r.buffered(), taken);
}
