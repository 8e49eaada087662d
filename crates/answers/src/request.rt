// A request, read from its front on. Past its end there is nothing, and numbers there are 0.
ghost use Rattle.std.specs.Prelude.{◌<◌, ◌^◌};

use card::bytes;

#[derive(Drop)]
pub(crate) struct Request<'a> {
    pub(crate) rest: &'a [u8],
}

impl<'a> Request<'a> {
    // The next n bytes, or as many as there are.
    fn take(&mut self, n: usize) -> &'a [u8] {
        let (taken, rest) = self.rest.split_at(n.min(self.rest.len()));
        self.rest = rest;
        taken
    }

    // The next N bytes, zeros past the end.
    fn word<const N: usize>(&mut self) -> [u8; N] {
        let mut word = [0; N];
        bytes::copy(&mut word, 0, self.take(N), N);
        word
    }

    // 32 bits, lowest byte first.
    fn reply(&mut self) -> u32 {
        u32::from_le_bytes(self.word())
    }

    // The same as a count or a place.
    pub(crate) fn number(&mut self) -> usize
        ensures { result < 2 ^ 32 }
    {
        self.reply() as usize
    }

    // 64 bits, lowest byte first.
    pub(crate) fn size(&mut self) -> u64 {
        u64::from_le_bytes(self.word())
    }

    // Bytes after their count.
    pub(crate) fn bytes(&mut self) -> &'a [u8] {
        let count = self.number();
        self.take(count)
    }

    // Bytes after their count, at the front of lent ones: so many of these as the count says.
    pub(crate) fn load<'b>(&mut self, room: &'b mut [u8]) -> &'b mut [u8] {
        let count = self.number();
        bytes::copy(room, 0, self.take(count), count);
        let end = count.min(room.len());
        &mut room[..end]
    }

    // Replies after their count, in the same way.
    pub(crate) fn load_replies<'b>(&mut self, room: &'b mut [u32]) -> &'b [u32] {
        let count = self.number();
        let mut replies = Request {
            rest: self.take(4 * count),
        };
        for reply in room.iter_mut().take(count) {
            *reply = replies.reply();
        }
        let end = count.min(room.len());
        &room[..end]
    }
}
