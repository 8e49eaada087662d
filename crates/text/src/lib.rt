// The text that the bench program prints, byte for byte. Every function prints onto a page from its
// place on and moves the place past its text; where the page's bytes end, the text is cut. Every
// function is total: it asks nothing of the place nor of the room.
#![tactic(auto)]

pub mod lines;
pub mod parts;

// Lent bytes, and the place in them from which the next text goes.
#[derive(Drop)]
pub struct Page<'a> {
    pub bytes: &'a mut [u8],
    pub at: usize,
}

// The calls of a session, as their lines name them.
#[derive(Clone, Copy)]
pub enum Name {
    Write,
    WriteAll,
    Flush,
    Read,
    Peek,
    Consume,
    SeekRelative,
    Fill,
}
