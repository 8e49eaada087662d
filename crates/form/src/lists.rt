// Lists of a session.
ghost use Rattle.form.specs.Lists.{Skips};

use numbers::Fault;

// The place after so many things from a place on, each read at the place after the one before it.
#[tactic(auto, using(crate::proofs::Skipping::stop, crate::proofs::Skipping::end))]
pub(crate) fn skip<T: Drop, F: Fn(usize) -> Result<(T, usize), Fault>>(
    count: usize,
    first: usize,
    read: F,
) -> Result<usize, Fault>
    requires { F.IsAlwaysCallable read }
    ensures { Skips (F.post read) count first result }
{
    let mut at = first;
    for _ in 0..count {
        let (_, next) = read(at)?;
        at = next;
    }
    Ok(at)
}
