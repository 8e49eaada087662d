// The calls of a session.
ghost use Rattle.std.specs.Prelude.{◌≡◌};
ghost use Rattle.form.specs.Calls.{seek_at, writer_call, reader_call, call_at};

use crate::{Call, READER, WORD_MOST};
use card::limits::BYTES_MOST;
use numbers::Fault;

// A writer's call, whose number stands at `at` and whose rest at `next`: the number is a call from
// here on. The two writes keep their `?`: closures for `map` would be no shorter, and each would have
// to be told that its sum fits.
#[tactic(auto, using(numbers::proofs::Most::length_within), unfolding(crate::specs::Calls::writer_call, crate::specs::Calls::write_at, crate::specs::Calls::write_all_at, crate::specs::Calls::length_at))]
fn read_writer(
    session: &[u8],
    at: usize,
    number: usize,
    next: usize,
) -> Result<(Call, usize), Fault>
    ensures { result ≡ writer_call session.now at number next }
{
    match number {
        0 => {
            let (length, start) = numbers::read_length(session, next, BYTES_MOST)?;
            Ok((Call::Write(start, length), start + length))
        }
        1 => {
            let (length, start) = numbers::read_length(session, next, BYTES_MOST)?;
            Ok((Call::WriteAll(start, length), start + length))
        }
        2 => Ok((Call::Flush, next)),
        _ => Err(Fault { place: at }),
    }
}

// After 6: direction and size, which is not 0 for back.
#[tactic(auto, unfolding(crate::specs::Calls::seek_at, crate::specs::Calls::size_at))]
fn read_seek(session: &[u8], at: usize) -> Result<(Call, usize), Fault>
    ensures { result ≡ seek_at session.now at }
{
    let (direction, place) = numbers::read_most(session, at, 1)?;
    let (size, next) = numbers::read_most(session, place, WORD_MOST)?;
    match (direction, size) {
        (0, _) => Ok((Call::Seek(false, size), next)),
        (_, 0) => Err(Fault { place }),
        _ => Ok((Call::Seek(true, size), next)),
    }
}

// A reader's call, whose number stands at `at` and whose rest at `next`: the number is a call from
// here on.
#[tactic(auto, unfolding(crate::specs::Calls::reader_call, crate::specs::Calls::read_at, crate::specs::Calls::peek_at, crate::specs::Calls::consume_at))]
fn read_reader(
    session: &[u8],
    at: usize,
    number: usize,
    next: usize,
) -> Result<(Call, usize), Fault>
    ensures { result ≡ reader_call session.now at number next }
{
    match number {
        3 => numbers::read_most(session, next, BYTES_MOST).map(|(n, end)| (Call::Read(n), end)),
        4 => numbers::read_most(session, next, WORD_MOST).map(|(n, end)| (Call::Peek(n), end)),
        5 => numbers::read_most(session, next, WORD_MOST).map(|(n, end)| (Call::Consume(n), end)),
        6 => read_seek(session, next),
        7 => Ok((Call::Fill, next)),
        _ => Err(Fault { place: at }),
    }
}

// The call at a place of a session of this kind, and the place after it. The kind stays a number,
// since any number is one: the reader's, and any other a writer's.
#[tactic(auto, unfolding(crate::specs::Calls::call_at))]
pub fn read_call(session: &[u8], kind: usize, at: usize) -> Result<(Call, usize), Fault>
    ensures { result ≡ call_at session.now kind at }
{
    let (number, next) = numbers::read_most(session, at, 7)?;
    if kind == READER {
        return read_reader(session, at, number, next);
    }
    read_writer(session, at, number, next)
}
