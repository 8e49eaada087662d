// A call of a writer, from a state and on bytes of the request's choice.
use crate::answer;
use crate::request::Request;
use card::limits::{BYTES_MOST, CAPACITY_MOST, SCRIPT_MOST};
use card::{counted, uncounted};
use flushing::{BufWriter, State};
use line::linewriter;
use text::Page;
use writer::bufwriter;

enum Call {
    Write,
    WriteAll,
    Flush,
    FlushBuf,
    LineWrite,
    LineWriteAll,
}

impl From<usize> for Call {
    fn from(number: usize) -> Self {
        match number {
            0 => Call::Write,
            1 => Call::WriteAll,
            2 => Call::Flush,
            3 => Call::FlushBuf,
            4 => Call::LineWrite,
            _ => Call::LineWriteAll,
        }
    }
}

// Each limit can be passed by one.
const CAPACITY: usize = CAPACITY_MOST + 1;

const SCRIPT: usize = SCRIPT_MOST + 1;

const MEDIUM: usize = BYTES_MOST + 1;

pub(crate) fn answer(request: &[u8], output: &mut [u8]) -> usize {
    let mut request = Request { rest: request };
    let call = Call::from(request.number());
    let mut storage = [0u8; CAPACITY];
    let storage = request.load(&mut storage);
    let held = request.number();
    let mut script = [0u32; SCRIPT];
    let script = request.load_replies(&mut script);
    let used = request.number();
    let mut medium = [0u8; MEDIUM];
    let medium = request.load(&mut medium);
    let out = request.number();
    let slice = request.bytes();
    let mut w = BufWriter {
        state: State { held, out, used },
        storage,
        script,
        medium,
        calls: 0,
    };
    let answer = match call {
        Call::Write => counted(bufwriter::write(&mut w, slice)),
        Call::WriteAll => uncounted(bufwriter::write_all(&mut w, slice)),
        Call::Flush => uncounted(bufwriter::flush(&mut w)),
        Call::FlushBuf => uncounted(w.flush_buf()),
        Call::LineWrite => counted(linewriter::write(&mut w, slice)),
        Call::LineWriteAll => uncounted(linewriter::write_all(&mut w, slice)),
    };
    let mut page = Page {
        bytes: output,
        at: 0,
    };
    answer::put(&mut page, answer, w.calls);
    answer::number(&mut page, w.state.held);
    answer::number(&mut page, w.state.out);
    answer::number(&mut page, w.state.used);
    page.say(w.storage);
    page.say(w.medium);
    page.at
}
