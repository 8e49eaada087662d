// A writer's session.
ghost use Rattle.std.specs.Prelude.{◌≡◌};
ghost use Rattle.card.specs.Answers.{said, said_count, said_done};
ghost use Rattle.flushing.specs.World.{Lent, world, tells};
ghost use Rattle.text.specs.Printed.{written};
ghost use Rattle.form.specs.Calls.{asked};
ghost use Rattle.text.specs.Lines.{writer_line};
ghost use Rattle.session.specs.Steps.{Steps, Lines};
ghost use Rattle.session.specs.Writing.{told_write, told_write_all, writer_step, writer_ends};

use card::{Answer, Failure, counted, uncounted};
use flushing::BufWriter;
use form::{Call, Header, LINE_WRITER, calls};
use line::linewriter;
use text::{Name, Page};
use writer::bufwriter;

// The kind is the header's number: the line writer's, and any other is the plain one's. Each of the
// two calls has its function: with closures for the writers' calls one function would be no shorter.
#[tactic(auto, using(crate::proofs::WriteSteps::line_write_is, crate::proofs::WriteSteps::write_is))]
fn write(kind: usize, w: &mut BufWriter<'_, '_>, slice: &[u8]) -> Result<usize, Failure>
    ensures lent { Lent w.old w.new }
    ensures told { tells (said_count result) w.new ≡ told_write kind w.old.script.now (world w.old) slice.now }
{
    if kind == LINE_WRITER {
        return linewriter::write(w, slice);
    }
    bufwriter::write(w, slice)
}

#[tactic(auto, using(crate::proofs::WriteSteps::line_write_all_is, crate::proofs::WriteSteps::write_all_is))]
fn write_all(kind: usize, w: &mut BufWriter<'_, '_>, slice: &[u8]) -> Result<(), Failure>
    ensures lent { Lent w.old w.new }
    ensures told { tells (said_done result) w.new ≡ told_write_all kind w.old.script.now (world w.old) slice.now }
{
    if kind == LINE_WRITER {
        return linewriter::write_all(w, slice);
    }
    bufwriter::write_all(w, slice)
}

// The line of a call that left the writer so.
fn line(page: &mut Page<'_>, name: Name, answer: Answer, w: &BufWriter<'_, '_>)
    ensures { page.new ≡ written page.old (writer_line name (said answer) w.now.calls w.now.state.held w.now.state.out) }
{
    page.writer_line(name, answer, w.calls, w.state.held, w.state.out);
}

// One call of the session, and its line. The writer and the page are lent apart: `write` and
// `write_all` want the writer alone.
fn step(session: &[u8], kind: usize, call: Call, w: &mut BufWriter<'_, '_>, page: &mut Page<'_>)
    ensures lent { Lent w.old w.new }
    ensures steps { Steps (writer_step kind w.old.script.now (world w.old) (asked session.now call)) page.old page.new (world w.new) }
{
    match call {
        Call::Write(start, n) => {
            let answer = counted(write(kind, w, crate::part(session, start, n)));
            line(page, Name::Write, answer, w);
        }
        Call::WriteAll(start, n) => {
            let answer = uncounted(write_all(kind, w, crate::part(session, start, n)));
            line(page, Name::WriteAll, answer, w);
        }
        Call::Flush => {
            let answer = uncounted(bufwriter::flush(w));
            line(page, Name::Flush, answer, w);
        }
        Call::Read(_) | Call::Peek(_) | Call::Consume(_) | Call::Seek(_, _) | Call::Fill => {}
    }
}

// The end line.
fn end(page: &mut Page<'_>, w: &BufWriter<'_, '_>)
    ensures { page.new ≡ written page.old (writer_ends (world w.now)) }
{
    let held = bufwriter::buffer(w.state, w.storage);
    page.writer_end(held, crate::part(w.medium, 0, w.state.out));
}

// The calls of a session, and its end line. `reading::run` says why each kind has a run of its own.
pub(crate) fn run(session: &[u8], header: Header, w: &mut BufWriter<'_, '_>, page: &mut Page<'_>)
    ensures { Lines session.now header.kind header.count header.first (λ v call. writer_step header.kind w.old.script.now v call) writer_ends (world w.old) page.old page.new }
{
    let kind = header.kind;
    let mut place = header.first;
    for _ in 0..header.count {
        let Ok((call, after)) = calls::read_call(session, kind, place) else {
            return;
        };
        step(session, kind, call, w, page);
        place = after;
    }
    end(page, w);
}
