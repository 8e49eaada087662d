// A whole session.
ghost use Rattle.std.specs.Prelude.{◌≡◌};
ghost use Rattle.form.specs.Session.{stock_of, session_of, checked};

use crate::{Checked, Header, READER, TRACE, WORD_MOST, calls, lists};
use card::limits;
use numbers::Fault;

pub const SESSION_MOST: usize = 32768;

pub const CALLS_MOST: usize = 1024;

// For a reader the stock; no bytes for a writer. The kind is the number that `Header` keeps.
#[tactic(auto, unfolding(crate::specs::Session::stock_of, crate::specs::Calls::length_at))]
fn read_stock(session: &[u8], kind: usize, at: usize) -> Result<(usize, usize), Fault>
    ensures { result ≡ stock_of session.now kind at }
{
    if kind == READER {
        return numbers::read_length(session, at, limits::BYTES_MOST);
    }
    Ok((0, at))
}

// The whole session, left to right: kind, capacity, reply count, replies, stock, call count, calls,
// then nothing.
#[tactic(auto, using(crate::proofs::Within::stock_part), unfolding(crate::specs::Session::session_of, crate::specs::Session::capacity_at, crate::specs::Session::replies_at, crate::specs::Session::script_at, crate::specs::Session::stock_at, crate::specs::Session::count_at, crate::specs::Session::calls_of))]
pub fn check(session: &[u8]) -> Result<Checked, Fault>
    ensures { result ≡ checked (session_of session.now) }
{
    if SESSION_MOST < session.len() {
        return Err(Fault {
            place: SESSION_MOST,
        });
    }
    let (kind, next) = numbers::read_most(session, 0, TRACE)?;
    if kind == TRACE {
        return Ok(Checked::Traced(next));
    }
    let (capacity, next) = numbers::read_most(session, next, limits::CAPACITY_MOST)?;
    let (replies, script) = numbers::read_most(session, next, limits::SCRIPT_MOST)?;
    let at = lists::skip(
        replies,
        script,
        |at| numbers::read_most(session, at, WORD_MOST),
    )?;
    let (length, stock) = read_stock(session, kind, at)?;
    let (count, first) = numbers::read_most(session, stock + length, CALLS_MOST)?;
    let end = lists::skip(count, first, |at| calls::read_call(session, kind, at))?;
    if end < session.len() {
        return Err(Fault { place: end });
    }
    Ok(Checked::Session(Header {
        kind,
        capacity,
        replies,
        script,
        stock,
        length,
        count,
        first,
    }))
}
