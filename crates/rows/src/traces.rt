// Rows 14 to 16: the judge. Capacity 4.
use crate::print::Hex;
use judge::Verdict;
use std::io;
use std::io::Write;

// A line: the trace's bytes and the verdict on it.
fn show(rt: &HostRuntime, row: usize, trace: &[u8]) -> io::Result<()> {
    print!(rt; "{row} judge ")?;
    match judge::judge(trace) {
        Ok(Verdict::Possible) => print!(rt; "possible")?,
        Ok(Verdict::Impossible) => print!(rt; "impossible")?,
        Err(fault) => print!(rt; "refused 7 at {}", fault.place)?,
    }
    println!(rt; " trace {}", Hex(trace))
}

// 14. write abc ok 3, card empty; card a. Then flush error 5: card ab or abc. Flush zero: ab; abc.
// Flush interrupted: abc; ab.
fn row_14(rt: &HostRuntime) -> io::Result<()> {
    show(rt, 14, b"\x04\x01\x00\x03abc\x00\x03\x00")?;
    show(rt, 14, b"\x04\x01\x00\x03abc\x00\x03\x01a")?;
    show(rt, 14, b"\x04\x02\x00\x03abc\x00\x03\x01\x03\x05\x02ab")?;
    show(rt, 14, b"\x04\x02\x00\x03abc\x00\x03\x01\x03\x05\x03abc")?;
    show(rt, 14, b"\x04\x02\x00\x03abc\x00\x03\x01\x02\x02ab")?;
    show(rt, 14, b"\x04\x02\x00\x03abc\x00\x03\x01\x02\x03abc")?;
    show(rt, 14, b"\x04\x02\x00\x03abc\x00\x03\x01\x01\x03abc")?;
    show(rt, 14, b"\x04\x02\x00\x03abc\x00\x03\x01\x01\x02ab")
}

pub(crate) fn rows(rt: &HostRuntime) -> io::Result<()> {
    row_14(rt)?;
    // 15. write abcd ok 4, card empty.
    show(rt, 15, b"\x04\x01\x00\x04abcd\x00\x04\x00")?;
    // 16. write abc ok 3, write de ok 2: card abc; acb.
    show(
        rt,
        16,
        b"\x04\x02\x00\x03abc\x00\x03\x00\x02de\x00\x02\x03abc",
    )?;
    show(
        rt,
        16,
        b"\x04\x02\x00\x03abc\x00\x03\x00\x02de\x00\x02\x03acb",
    )
}
