// The device's calls. Script, medium and stock go in each with a place: the writer and the reader have
// all of them, and a struct of two would be made for one call.
ghost use Rattle.std.specs.Prelude.{◌≡◌, ◌+◌, ◌-◌, min, length, drop};
ghost use Rattle.laws.specs.Put.{put};
ghost use Rattle.card.specs.Device.{reply_of, at_most, exchange, moves};

use crate::{DeviceError, Exchange, Reply, bytes};

// A number of the script as a reply. No `From`, since a reply is std's own type.
fn reply_of(n: u32) -> Reply
    ensures { result ≡ reply_of n }
{
    match n {
        0..=65535 => Ok(n as usize),
        65536 => Err(DeviceError::Interrupted),
        _ => Err(DeviceError::Error(n - 65536)),
    }
}

// The bytes that move at a reply: std's `unwrap_or`, which stands by its name because it is public.
pub fn moved(reply: Reply) -> usize
    ensures { result ≡ moves reply }
{
    reply.unwrap_or(0)
}

// A reply cut to what there is room for.
pub fn cut(reply: Reply, most: usize) -> Reply
    ensures { result ≡ at_most most reply }
{
    reply.map(|n| n.min(most))
}

// One call of the device at which at most `most` bytes can move.
fn ask(script: &[u32], used: usize, most: usize) -> Exchange
    ensures { result ≡ exchange (drop used script.now) used most }
{
    let Some(n) = script.get(used) else {
        return Exchange {
            reply: Err(DeviceError::Error(0)),
            used,
        };
    };
    Exchange {
        reply: cut(reply_of(*n), most),
        used: used + 1,
    }
}

// The device write: it takes the first of the offered bytes onto the medium at place `out`.
pub fn write(script: &[u32], used: usize, offered: &[u8], medium: &mut [u8], out: usize) -> Exchange
    ensures { (result ≡ exchange (drop used script.now) used (min (length offered.now) (length medium.old - out))) × (medium.new ≡ put medium.old out offered.now (moves result.reply)) }
{
    let room = medium.len().saturating_sub(out);
    let e = ask(script, used, offered.len().min(room));
    bytes::copy(medium, out, offered, moved(e.reply));
    e
}

// The device read: it gives the next bytes of the stock, from place `taken` on, into `room`.
pub fn read(script: &[u32], used: usize, room: &mut [u8], stock: &[u8], taken: usize) -> Exchange
    ensures { (result ≡ exchange (drop used script.now) used (min (length room.old) (length stock.now - taken))) × (room.new ≡ put room.old 0 (drop taken stock.now) (moves result.reply)) }
{
    let rest = &stock[taken.min(stock.len())..];
    let e = ask(script, used, room.len().min(rest.len()));
    bytes::copy(room, 0, rest, moved(e.reply));
    e
}

// The device flush: any accept is a success, and nothing moves.
pub fn flush(script: &[u32], used: usize) -> Exchange
    ensures { result ≡ exchange (drop used script.now) used 0 }
{
    ask(script, used, 0)
}
