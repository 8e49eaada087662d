// Rows 10 to 13: the reader. Capacity 4.
use crate::print::{Hex, Said};
use card::{Answer, counted, uncounted};
use reader::{BufReader, State};
use std::io;
use std::io::Write;

// A line: answer, device calls, pos, filled, and the bytes read or shown.
fn show(
    rt: &HostRuntime,
    row: usize,
    name: &str,
    answer: Answer,
    r: &BufReader<'_>,
    bytes: &[u8],
) -> io::Result<()> {
    println!(rt;
        "{row} {name} {} calls {} pos {} filled {} bytes {}",
        Said(answer),
        r.calls,
        r.state.pos,
        r.state.filled,
        Hex(bytes)
    )
}

// `read`: as many bytes are shown as an ok counts.
fn read(
    rt: &HostRuntime,
    row: usize,
    r: &mut BufReader<'_>,
    destination: &mut [u8],
) -> io::Result<()> {
    let answer = r.read(destination);
    let n = answer.unwrap_or(0).min(destination.len());
    show(rt, row, "read", counted(answer), r, &destination[..n])
}

// `peek`: the same.
fn peek(rt: &HostRuntime, row: usize, r: &mut BufReader<'_>, n: usize) -> io::Result<()> {
    let answer = r.peek(n);
    let shown = r.peeked(answer.unwrap_or(0));
    show(rt, row, "peek", counted(answer), r, shown)
}

pub(crate) fn rows(rt: &HostRuntime) -> io::Result<()> {
    // 10. Stock abcdefgh, `read` 2, [3, 2]. Then `peek` 3.
    let stock = b"abcdefgh";
    let mut storage = [0; 4];
    let mut r = BufReader::new(State::new(), &mut storage, &[3, 2], stock);
    read(rt, 10, &mut r, &mut [0; 2])?;
    peek(rt, 10, &mut r, 3)?;
    // 11. `read` 4, [9]. `read` 0 on an empty buffer, [3].
    let mut storage = [0; 4];
    let mut r = BufReader::new(State::new(), &mut storage, &[9], stock);
    read(rt, 11, &mut r, &mut [0; 4])?;
    let mut storage = [0; 4];
    let mut r = BufReader::new(State::new(), &mut storage, &[3], stock);
    read(rt, 11, &mut r, &mut [])?;
    // 12. `peek` 4, stock ab, [2, 0]. `peek` 5.
    let mut storage = [0; 4];
    let mut r = BufReader::new(State::new(), &mut storage, &[2, 0], b"ab");
    peek(rt, 12, &mut r, 4)?;
    peek(rt, 12, &mut r, 5)?;
    // 13. pos 2, filled 3: seek -2, +1, -3, +2 and the lowest offset.
    let state = State {
        pos: 2,
        filled: 3,
        taken: 3,
        used: 1,
    };
    for offset in [-2, 1, -3, 2, i64::MIN] {
        let mut storage = [0; 4];
        let mut r = BufReader::new(state, &mut storage, &[3], stock);
        let answer = uncounted(r.seek_relative(offset));
        show(rt, 13, "seek_relative", answer, &r, b"")?;
    }
    Ok(())
}
