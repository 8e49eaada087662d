// The replies of a session.
ghost use Rattle.std.specs.Prelude.{◌≡◌, min, length};
ghost use Rattle.laws.specs.Put.{put};
ghost use Rattle.form.specs.Replies.{replies_in};

use crate::WORD_MOST;

// So many replies from a place on, into the first places of a lent script. For every input: it
// stops at the first fault, and where the script is full. Every other place of it stays.
#[tactic(auto, using(numbers::proofs::Most::most_value))]
pub fn read_replies(session: &[u8], count: usize, first: usize, script: &mut [u32])
    ensures { script.new ≡ put script.old 0 (replies_in session.now count first) (min (length (replies_in session.now count first)) (length script.old)) }
{
    let most = count.min(script.len());
    let mut at = first;
    for place in script[..most].iter_mut() {
        let Ok((reply, next)) = numbers::read_most(session, at, WORD_MOST) else {
            return;
        };
        *place = reply as u32;
        at = next;
    }
}
