// What `write` and `write_all` differ in: whether an ok has a count, and how a slice goes to the
// device.
ghost use Rattle.std.specs.Prelude.{◌≡◌, ℕ, List, Result, Ok, Err};
ghost use Rattle.card.specs.declared.Failure.{Failure};
ghost use Rattle.card.specs.Answers.{Said, ok, done, failed, said_count, said_done};
ghost use Rattle.flushing.specs.World.{World, Called, Fit, Lent, counting, tells, reported};
ghost use Rattle.writer.specs.Writer.{device_write, device_write_all};

use crate::bufwriter;
use card::{Failure, device};
use flushing::BufWriter;

// What a call answers with where it succeeds.
pub trait Success: Drop {
    // What an answer says.
    ghost says: { Result Self Failure → Said };

    // What a slice of so many bytes answers that is stored.
    ghost stored: { ℕ → Said };

    fn stored(n: usize) -> Self
        ensures { says (Ok result) ≡ stored n };

    ghost says_failed: { (f : Failure) → says (Err f) ≡ failed f };
}

impl Success for usize {
    ghost use Rattle.std.specs.Prelude.{refl};

    ghost says = { said_count };

    ghost stored = { λ n. ok n };

    ghost says_failed = { λ f. refl };

    fn stored(n: usize) -> usize {
        n
    }
}

impl Success for () {
    ghost use Rattle.std.specs.Prelude.{refl};

    ghost says = { said_done };

    ghost stored = { λ n. done };

    ghost says_failed = { λ f. refl };

    fn stored(_n: usize) -> () {}
}

// How a slice goes to the device, behind the device calls that were made before it.
pub(crate) trait Way: Success {
    ghost direct: { List ℕ → World → List ℕ → Called };

    fn direct(w: &mut BufWriter<'_, '_>, slice: &[u8]) -> Result<Self, Failure>
        requires { Fit w.old.script.now (counting w.old) }
        ensures lent { Lent w.old w.new }
        ensures told { tells (Self.says result) w.new ≡ reported (direct w.old.script.now (counting w.old) slice.now) };
}

// `write`: one device write, whose answer is handed up, interrupted too.
impl Way for usize {
    ghost direct = { λ script w s. device_write script w s };

    fn direct(w: &mut BufWriter<'_, '_>, slice: &[u8]) -> Result<usize, Failure> {
        let e = device::write(w.script, w.state.used, slice, w.medium, w.state.out);
        w.state.out += device::moved(e.reply);
        w.state.used = e.used;
        w.calls += 1;
        Ok(e.reply?)
    }
}

// `write_all`: the default device write, which goes on until all is taken.
impl Way for () {
    ghost direct = { λ script w s. device_write_all script w s };

    fn direct(w: &mut BufWriter<'_, '_>, slice: &[u8]) -> Result<(), Failure> {
        let made = w.calls;
        let answer = bufwriter::device_write_all(w, slice);
        w.calls += made;
        answer
    }
}
