// The plain writer's call that a line writer's call ends in: `write` or `write_all`.
ghost use Rattle.std.specs.Prelude.{◌≡◌, List, ℕ, length};
ghost use Rattle.card.specs.Limits.{length_refusal};
ghost use Rattle.flushing.specs.World.{World, Called, Lent, world, tells, reported, refusing};
ghost use Rattle.flushing.proofs.Laters.{Counting};
ghost use Rattle.flushing.proofs.Counts.{Reports, Uses};
ghost use Rattle.writer.specs.Writer.{write, write_all};

use card::Failure;
use flushing::BufWriter;
use writer::bufwriter;
use writer::way::Success;

pub(crate) trait Plain: Success {
    // What it does where no refusal meets it.
    ghost call: { List ℕ → World → List ℕ → Called };

    fn plain(w: &mut BufWriter<'_, '_>, slice: &[u8]) -> Result<Self, Failure>
        ensures lent { Lent w.old w.new }
        ensures told { tells (Self.says result) w.new ≡ reported (refusing w.old.script.now (world w.old) (length_refusal (length slice.now)) (λ v. call w.old.script.now v slice.now)) };

    // It counts on from the device calls before it, and makes one for each reply.
    ghost counting: { (script s : List ℕ) → Counting (λ w. call script w s) };

    ghost reports: { (script s : List ℕ) (w : World) → Reports w (call script w s) };

    ghost uses: { (script s : List ℕ) (w : World) → Uses script w (call script w s) };
}

impl Plain for usize {
    ghost use Rattle.writer.proofs.Laters.{write_later};
    ghost use Rattle.writer.proofs.Counts.{write_counts, write_uses};

    ghost call = { λ script w s. write script w s };

    ghost counting = { λ script s. write_later script s };

    ghost reports = { λ script s w. write_counts script w s };

    ghost uses = { λ script s w. write_uses script w s };

    fn plain(w: &mut BufWriter<'_, '_>, slice: &[u8]) -> Result<usize, Failure> {
        bufwriter::write(w, slice)
    }
}

impl Plain for () {
    ghost use Rattle.writer.proofs.Laters.{write_all_later};
    ghost use Rattle.writer.proofs.Counts.{write_all_counts, write_all_uses};

    ghost call = { λ script w s. write_all script w s };

    ghost counting = { λ script s. write_all_later script s };

    ghost reports = { λ script s w. write_all_counts script w s };

    ghost uses = { λ script s w. write_all_uses script w s };

    fn plain(w: &mut BufWriter<'_, '_>, slice: &[u8]) -> Result<(), Failure> {
        bufwriter::write_all(w, slice)
    }
}
