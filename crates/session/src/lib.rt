// Sessions of the bench program: checked first, then run one call at a time, a line for each.
#![tactic(auto)]

mod reading;
mod writing;

ghost use Rattle.std.specs.Prelude.{◌≡◌, take, drop, replicate};
ghost use Rattle.card.specs.Limits.{bytes_most};
ghost use Rattle.flushing.specs.World as Writer;
ghost use Rattle.reader.specs.World.{world};
ghost use Rattle.reader.specs.Buffer as Reader;
ghost use Rattle.session.specs.Writing.{writer_step, writer_ends};
ghost use Rattle.session.specs.Reading.{reader_step, reader_ends};
ghost use Rattle.session.specs.Steps.{Lines, Prints, Rules, Passes};
ghost use Rattle.session.specs.Session.{Ruled, Shown};
ghost use Rattle.form.specs.Replies.{replies_in};
ghost use Rattle.form.specs.Session.{session_of};

use card::limits::{BYTES_MOST, CAPACITY_MOST, SCRIPT_MOST};
use flushing::BufWriter;
use form::{Checked, Header, READER, replies, whole};
use judge::Verdict;
use reader::{BufReader, State};
use text::Page;
use writer::bufwriter;

// The n bytes from a start on, or as many as there are.
fn part(bytes: &[u8], start: usize, n: usize) -> &[u8]
    ensures { result.now ≡ take n (drop start bytes.now) }
{
    let rest = &bytes[start.min(bytes.len())..];
    &rest[..n.min(rest.len())]
}

// A session without a fault, and its replies as the script.
#[derive(Drop)]
struct Session<'a> {
    bytes: &'a [u8],
    header: Header,
    script: &'a [u32],
    ghost whole: { Passes bytes.now header },
    ghost replies: { script.now ≡ replies_in bytes.now header.replies header.script },
}

impl Session<'_> {
    // A writer's calls, on storage of zeros and a medium of zeros.
    fn write_calls(&self, page: &mut Page<'_>)
        ensures { Lines self.now.bytes.now self.now.header.kind self.now.header.count self.now.header.first (λ w call. writer_step self.now.header.kind self.now.script.now w call) writer_ends (Writer.new (replicate self.now.header.capacity 0) (replicate bytes_most 0)) page.old page.new }
    {
        let mut storage = [0u8; CAPACITY_MOST];
        let storage = &mut storage[..self.header.capacity];
        let mut medium = [0u8; BYTES_MOST];
        let mut w = BufWriter {
            state: bufwriter::new(),
            storage,
            script: self.script,
            medium: &mut medium,
            calls: 0,
        };
        writing::run(self.bytes, self.header, &mut w, page);
    }

    // A reader's calls, on storage of zeros.
    fn read_calls(&self, page: &mut Page<'_>)
        ensures { Lines self.now.bytes.now 2 self.now.header.count self.now.header.first (λ w call. reader_step self.now.script.now (take self.now.header.length (drop self.now.header.stock self.now.bytes.now)) w call) reader_ends (world (replicate self.now.header.capacity 0) Reader.new) page.old page.new }
    {
        let mut storage = [0u8; CAPACITY_MOST];
        let storage = &mut storage[..self.header.capacity];
        let stock = part(self.bytes, self.header.stock, self.header.length);
        let mut r = BufReader::new(State::new(), storage, self.script, stock);
        reading::run(self.bytes, self.header, &mut r, page);
    }

    // The session line, the calls and the end line.
    fn run_calls(&self, page: &mut Page<'_>)
        ensures { Prints (session_of self.now.bytes.now) page.old page.new }
    {
        page.session_line(self.header.kind, self.header.capacity);
        if self.header.kind == READER {
            self.read_calls(page);
            return;
        }
        self.write_calls(page);
    }
}

// A session without a fault: its replies become the script.
fn run(bytes: &[u8], header: Header, page: &mut Page<'_>)
    requires { Passes bytes.now header }
    ensures { Prints (session_of bytes.now) page.old page.new }
{
    let mut script = [0u32; SCRIPT_MOST];
    replies::read_replies(bytes, header.replies, header.script, &mut script);
    let session = Session {
        bytes,
        header,
        script: &script[..header.replies],
    };
    session.run_calls(page);
}

// The judge's line of a trace.
fn rule(trace: &[u8], page: &mut Page<'_>)
    ensures { Rules trace.now page.old page.new }
{
    match judge::judge(trace) {
        Ok(Verdict::Possible) => page.judge_possible(),
        Ok(Verdict::Impossible) => page.judge_impossible(),
        Err(fault) => page.judge_refused(fault.place),
    }
}

// The text of a session.
fn print(session: &[u8], page: &mut Page<'_>)
    ensures { Prints (session_of session.now) page.old page.new }
{
    match whole::check(session) {
        Ok(Checked::Session(header)) => run(session, header, page),
        Ok(Checked::Traced(start)) => rule(part(session, start, session.len()), page),
        Err(fault) => page.session_refused(fault.place),
    }
}

// The judge's line of a trace, at the front of the output and cut where the output ends; the
// answer is where it ends. C has this and the next by their names: with a closure for what is printed
// they would be no shorter.
#[tactic(auto, using(crate::proofs::Shows::ruled), unfolding(text::specs::Printed::written))]
pub fn stackglow_judge(trace: &[u8], output: &mut [u8]) -> usize
    ensures { Ruled trace.now output.old result output.new }
{
    let mut page = Page {
        bytes: output,
        at: 0,
    };
    rule(trace, &mut page);
    page.at
}

// The text of a session, at the front of the output and cut where the output ends; the answer is
// where it ends.
#[tactic(auto, using(crate::proofs::Shows::shown), unfolding(text::specs::Printed::written))]
pub fn stackglow_session(session: &[u8], output: &mut [u8]) -> usize
    ensures { Shown session.now output.old result output.new }
{
    let mut page = Page {
        bytes: output,
        at: 0,
    };
    print(session, &mut page);
    page.at
}
