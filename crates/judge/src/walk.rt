// The walks over a trace's calls. Neither keeps a call. Each keeps total and place itself: an iterator
// would keep the same two numbers, and every turn would have to be told which call it met.
ghost use Rattle.std.specs.Prelude.{◌≡◌, ◌+◌, ◌≤◌, length};
ghost use Rattle.judge.specs.Flags.{Reached, answers, OfTrace, Comparison};

use crate::flags::Counts;
use trace::{Claim, Header, TracedCall, calls};

// The counts that some replies could have left held after all calls.
pub(crate) fn reach(trace: &[u8], header: &Header) -> Counts
    requires { header.now.capacity ≤ 1024 }
    ensures { OfTrace trace.now header.now (λ calls card. Reached header.now.capacity calls result.flags) }
{
    let mut counts = Counts::new(header.capacity);
    let mut total = 0;
    let mut at = header.first;
    for _ in 0..header.count {
        let Ok(call) = calls::read_call(trace, total, at) else {
            return counts;
        };
        counts.turn(&call);
        total += call.length;
        at = call.next;
    }
    counts
}

// How many bytes a call's claim answers for.
fn answered_by(call: &TracedCall) -> usize
    ensures { result ≡ answers call.now }
{
    match call.claim {
        Claim::Ok(m) if !call.flush => m.min(call.length),
        _ => 0,
    }
}

// How many bytes the claims answer for, if the card begins them.
pub(crate) fn compare(trace: &[u8], header: &Header) -> Option<usize>
    requires { header.now.card + header.now.length ≤ length trace.now }
    ensures { OfTrace trace.now header.now (Comparison result) }
{
    // The part of the card that no call has answered for yet.
    let mut card = &trace[header.card..header.card + header.length];
    let mut total = 0;
    let mut at = header.first;
    let mut answered = 0;
    for _ in 0..header.count {
        let Ok(call) = calls::read_call(trace, total, at) else {
            return None;
        };
        let taken = answered_by(&call);
        let (part, rest) = card.split_at(taken.min(card.len()));
        if !trace[call.start..].starts_with(part) {
            return None;
        }
        card = rest;
        total += call.length;
        at = call.next;
        answered += taken;
    }
    card.is_empty().then_some(answered)
}
