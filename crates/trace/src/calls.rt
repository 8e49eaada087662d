// One call of a trace.
ghost use Rattle.std.specs.Prelude.{◌≡◌};
ghost use Rattle.trace.specs.Calls.{traced, write_at, call_at};

use crate::{TracedCall, claims};
use card::limits;
use numbers::Fault;

// A call with its claim: `length` bytes from `start` on. The flag is the call's (`TracedCall`).
#[tactic(auto, unfolding(crate::specs::Calls::traced))]
fn read_rest(
    trace: &[u8],
    flush: bool,
    start: usize,
    length: usize,
    at: usize,
) -> Result<TracedCall, Fault>
    ensures { result ≡ traced trace.now flush start length at }
{
    let (claim, next) = claims::read_claim(trace, flush, at)?;
    Ok(TracedCall {
        flush,
        start,
        length,
        claim,
        next,
    })
}

// After 0: length, bytes, answer. `total` bytes were written before.
#[tactic(auto, using(numbers::proofs::Most::length_within), unfolding(crate::specs::Calls::write_at))]
fn read_write(trace: &[u8], total: usize, at: usize) -> Result<TracedCall, Fault>
    ensures { result ≡ write_at trace.now total at }
{
    let most = limits::BYTES_MOST.saturating_sub(total);
    let (length, start) = numbers::read_length(trace, at, most)?;
    read_rest(trace, false, start, length, start + length)
}

// The call at a place, when the calls before it wrote `total` bytes.
#[tactic(auto, unfolding(crate::specs::Calls::call_at))]
pub fn read_call(trace: &[u8], total: usize, at: usize) -> Result<TracedCall, Fault>
    ensures { result ≡ call_at trace.now total at }
{
    let (kind, next) = numbers::read_most(trace, at, 1)?;
    match kind {
        0 => read_write(trace, total, next),
        _ => read_rest(trace, true, next, 0, next),
    }
}
