// A call of the reader, from a state and on bytes of the request's choice.
use crate::answer;
use crate::request::Request;
use card::limits::{BYTES_MOST, CAPACITY_MOST, SCRIPT_MOST};
use card::{counted, uncounted};
use reader::{BufReader, State};
use text::Page;

enum Call {
    Read,
    Peek,
    Consume,
    Seek,
    Fill,
    // A fill that shows nothing.
    Other,
}

// The buffer's own consume and fill are the reader's.
impl From<usize> for Call {
    fn from(number: usize) -> Self {
        match number {
            0 => Call::Read,
            1 => Call::Peek,
            2 | 5 => Call::Consume,
            3 => Call::Seek,
            4 | 9 => Call::Fill,
            _ => Call::Other,
        }
    }
}

// Each limit can be passed by one.
const CAPACITY: usize = CAPACITY_MOST + 1;

const SCRIPT: usize = SCRIPT_MOST + 1;

const DESTINATION: usize = BYTES_MOST + 1;

pub(crate) fn answer(request: &[u8], output: &mut [u8]) -> usize {
    let mut request = Request { rest: request };
    let call = Call::from(request.number());
    let mut storage = [0u8; CAPACITY];
    let storage = request.load(&mut storage);
    let pos = request.number();
    let filled = request.number();
    let mut script = [0u32; SCRIPT];
    let script = request.load_replies(&mut script);
    let used = request.number();
    let stock = request.bytes();
    let taken = request.number();
    let size = request.size();
    let mut destination = [0u8; DESTINATION];
    let destination = request.load(&mut destination);
    let state = State {
        pos,
        filled,
        taken,
        used,
    };
    let mut r = BufReader::new(state, storage, script, stock);
    let (answer, shown) = match call {
        Call::Read => (counted(r.read(destination)), 0),
        Call::Peek => {
            let answer = r.peek(size as usize);
            (counted(answer), answer.unwrap_or(0))
        }
        Call::Consume => (uncounted(r.consume(size as usize)), 0),
        Call::Seek => (uncounted(r.seek_relative(size.cast_signed())), 0),
        Call::Fill => {
            let answer = r.fill_buf();
            (counted(answer), answer.unwrap_or(0))
        }
        Call::Other => (counted(r.fill_buf()), 0),
    };
    let mut page = Page {
        bytes: output,
        at: 0,
    };
    answer::put(&mut page, answer, r.calls);
    answer::number(&mut page, r.state.pos);
    answer::number(&mut page, r.state.filled);
    answer::number(&mut page, r.state.used);
    answer::number(&mut page, r.state.taken);
    page.say(r.storage);
    page.say(destination);
    page.say(r.peeked(shown));
    page.at
}
