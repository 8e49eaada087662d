// Runs of device writes.
ghost use Rattle.std.specs.Prelude.{◌≡◌, ◌-◌, length, drop};
ghost use Rattle.laws.specs.Put.{put};
ghost use Rattle.flushing.specs.Send.{send_from};

use crate::{Sent, Stop};
use card::{DeviceError, device};

// Offers the unwritten rest of source to the device until none is left, or until it takes nothing
// or fails. It refuses nothing: past the script's end a device write fails, and past the medium's
// end it takes nothing.
pub fn send_all(source: &[u8], script: &[u32], used: usize, medium: &mut [u8], out: usize) -> Sent
    ensures { (result ≡ send_from (drop used script.now) (length source.now) (length medium.old - out) 0 used 0) × (medium.new ≡ put medium.old out source.now result.sent) }
{
    let mut sent = 0;
    let mut at = used;
    let mut made = 0;
    let outcome = loop {
        if source.len() <= sent {
            break Ok(());
        }
        let e = device::write(script, at, &source[sent..], medium, out + sent);
        at = e.used;
        made += 1;
        // One match in another: over both at once (`Ok(0)`, `Err(DeviceError::Interrupted)`) no proof
        // closed.
        match e.reply {
            Ok(n) => {
                if n == 0 {
                    break Err(Stop::Zero);
                }
                sent += n;
            }
            Err(why) => match why {
                DeviceError::Interrupted => {}
                DeviceError::Error(code) => break Err(Stop::Failed(code)),
            },
        }
    };
    Sent {
        outcome,
        sent,
        used: at,
        writes: made,
    }
}
