// The judge: whether some finite list of card replies explains a trace.
#![tactic(auto)]

mod flags;
mod walk;

ghost use Rattle.trace.specs.Trace.{trace_of};
ghost use Rattle.judge.specs.Judge.{Judged};

use numbers::Fault;
use trace::whole;

#[derive(Clone, Copy, Debug, PartialEq, Eq)]
pub enum Verdict {
    Possible,
    Impossible,
}

// Refused with the place of the trace's first fault; else possible exactly when some finite list of
// replies explains it, and impossible exactly when none does. It is possible when the card begins
// the answered bytes, and what is left of them can be held.
pub fn judge(trace: &[u8]) -> Result<Verdict, Fault>
    ensures { Judged (trace_of trace.now) result }
{
    let header = whole::check(trace)?;
    let Some(answered) = walk::compare(trace, &header) else {
        return Ok(Verdict::Impossible);
    };
    let held = answered.saturating_sub(header.length);
    if walk::reach(trace, &header).has(held) {
        Ok(Verdict::Possible)
    } else {
        Ok(Verdict::Impossible)
    }
}
