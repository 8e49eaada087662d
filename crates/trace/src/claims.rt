// The claimed answer inside a call.
ghost use Rattle.std.specs.Prelude.{◌≡◌};
ghost use Rattle.trace.specs.Claims.{error_at, claim_at};

use crate::Claim;
use numbers::Fault;

// The largest code that the card has: the largest number of a script, less 65,536.
const CODE_MOST: usize = 4294901759;

// After 3: the code, which is not 0.
#[tactic(auto, using(numbers::proofs::Most::most_value), unfolding(crate::specs::Claims::error_at))]
fn read_error(trace: &[u8], at: usize) -> Result<(Claim, usize), Fault>
    ensures { result ≡ error_at trace.now at }
{
    let (code, next) = numbers::read_most(trace, at, CODE_MOST)?;
    if code == 0 {
        return Err(Fault { place: at });
    }
    Ok((Claim::Error(code as u32), next))
}

// The claimed answer at a place, and the place after it. The flag is the call's (`TracedCall`).
#[tactic(auto, unfolding(crate::specs::Claims::ok_at, crate::specs::Claims::claim_of, crate::specs::Claims::claim_at))]
pub(crate) fn read_claim(trace: &[u8], flush: bool, at: usize) -> Result<(Claim, usize), Fault>
    ensures { result ≡ claim_at trace.now flush at }
{
    let (number, next) = numbers::read_most(trace, at, 3)?;
    match number {
        0 if flush => Ok((Claim::Done, next)),
        0 => numbers::read(trace, next).map(|(n, end)| (Claim::Ok(n), end)),
        1 => Ok((Claim::Interrupted, next)),
        2 => Ok((Claim::Zero, next)),
        _ => read_error(trace, next),
    }
}
