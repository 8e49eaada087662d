// The archive of what prints a session and a verdict: each export is the function of `session` that has
// its name, under the same promise.
#![tactic(auto)]

ghost use Rattle.session.specs.Session.{Ruled, Shown};

// The judge's line of a trace, at the front of the output and cut where the output ends; the
// answer is where it ends.
#[unsafe(no_mangle)]
pub extern "C" fn stackglow_judge(trace: &[u8], output: &mut [u8]) -> usize
    ensures { Ruled trace.now output.old result output.new }
{
    session::stackglow_judge(trace, output)
}

// The text of a session, at the front of the output and cut where the output ends; the answer is
// where it ends.
#[unsafe(no_mangle)]
pub extern "C" fn stackglow_session(session: &[u8], output: &mut [u8]) -> usize
    ensures { Shown session.now output.old result output.new }
{
    session::stackglow_session(session, output)
}
