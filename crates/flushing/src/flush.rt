// The flush of the buffer: std's `BufWriter::flush_buf`.
ghost use Rattle.std.specs.Prelude.{◌≡◌};
ghost use Rattle.card.specs.Answers.{said, said_done};
ghost use Rattle.flushing.specs.World.{Lent, world, tells, reported, is_ok};
ghost use Rattle.flushing.specs.Flush.{flush_buf_call};

use crate::{BufWriter, State, send};
use card::{Answer, Failure, bytes};

// Whether an answer is an ok: std's `is_ok`, which stands by this name because it is public.
pub fn succeeded(answer: Answer) -> bool
    ensures { result ≡ is_ok (said answer) }
{
    answer.is_ok()
}

impl BufWriter<'_, '_> {
    // However the run of device writes is left, what was taken is drained once.
    pub fn flush_buf(&mut self) -> Result<(), Failure>
        ensures lent { Lent self.old self.new }
        ensures told { tells (said_done result) self.new ≡ reported (flush_buf_call self.old.script.now (world self.old)) }
    {
        self.calls = 0;
        self.numbers().check()?;
        let State { held, out, used } = self.state;
        // Each field by itself, since two are lent at once.
        let script = self.script;
        let storage = &mut *self.storage;
        let medium = &mut *self.medium;
        let run = send::send_all(&storage[..held], script, used, medium, out);
        bytes::shift(storage, run.sent, held);
        self.calls = run.writes;
        self.state = State {
            held: held - run.sent,
            out: out + run.sent,
            used: run.used,
        };
        Ok(run.outcome?)
    }
}
