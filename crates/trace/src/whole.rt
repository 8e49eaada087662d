// A whole trace.
ghost use Rattle.std.specs.Prelude.{◌≡◌};
ghost use Rattle.trace.specs.Trace.{trace_of, checked};

use crate::{Header, calls};
use card::limits;
use numbers::Fault;

pub const CALLS_MOST: usize = 256;

// The whole trace, left to right: capacity, call count, calls, card length and bytes, then nothing.
#[tactic(auto, using(numbers::proofs::Most::length_within, crate::proofs::Walk::end), unfolding(crate::specs::Trace::trace_of, crate::specs::Trace::count_at, crate::specs::Trace::card_at))]
pub fn check(trace: &[u8]) -> Result<Header, Fault>
    ensures { result ≡ checked (trace_of trace.now) }
{
    let (capacity, next) = numbers::read_most(trace, 0, limits::CAPACITY_MOST)?;
    let (count, first) = numbers::read_most(trace, next, CALLS_MOST)?;
    // Total and place are kept here: an iterator would keep the same two numbers, and give results
    // that each turn would take apart as this one does.
    let mut total: usize = 0;
    let mut at = first;
    for _ in 0..count {
        let call = calls::read_call(trace, total, at)?;
        total += call.length;
        at = call.next;
    }
    let (length, card) = numbers::read_length(trace, at, limits::BYTES_MOST)?;
    let end = card + length;
    if end < trace.len() {
        return Err(Fault { place: end });
    }
    Ok(Header {
        capacity,
        count,
        first,
        card,
        length,
    })
}
