// Answers requests, one after the other, until its input ends: each comes after its length, and
// its answer goes out after its own. A request is a letter and what it needs.
#![tactic(auto)]

mod answer;
mod reading;
mod request;
mod writing;

ghost use Rattle.std.specs.Prelude.{◌≡◌, length};

use std::io;
use std::io::{Read, Write};

const INPUT_ROOM: usize = 65536;

// More than the longest answer and its length.
const OUTPUT_ROOM: usize = 2400000;

// More requests than any run has: a loop that need not end would want a handle.
const REQUESTS_MOST: u64 = 1000000000000;

// Zeros. Their length is promised, so that no proof counts them.
fn zeros<const N: usize>() -> [u8; N]
    ensures { length result ≡ N }
{
    [0; N]
}

// Where the answer ends; a letter that is none has an empty one.
fn answer_to(request: &[u8], output: &mut [u8]) -> usize {
    match request {
        [b's', rest @ ..] => session::stackglow_session(rest, output),
        [b'j', rest @ ..] => session::stackglow_judge(rest, output),
        [b'w', rest @ ..] => writing::answer(rest, output),
        [b'r', rest @ ..] => reading::answer(rest, output),
        _ => 0,
    }
}

// One request; its answer goes out after its length, as one write.
fn serve(
    rt: &HostRuntime,
    input: &mut [u8; INPUT_ROOM],
    output: &mut [u8; OUTPUT_ROOM],
) -> io::Result<()> {
    let mut head = [0u8; 4];
    rt.stdin().read_exact(&mut head)?;
    let n = (u32::from_le_bytes(head) as usize).min(input.len());
    rt.stdin().read_exact(&mut input[..n])?;
    let room = output.len() - 4;
    let m = answer_to(&input[..n], &mut output[4..]).min(room);
    output[..4].copy_from_slice(&(m as u32).to_le_bytes());
    rt.stdout().write_all(&output[..4 + m])
}

fn main(rt: HostRuntime) {
    let mut input = zeros::<INPUT_ROOM>();
    let mut output = zeros::<OUTPUT_ROOM>();
    for _ in 0..REQUESTS_MOST {
        if serve(&rt, &mut input, &mut output).is_err() {
            return;
        }
    }
}
