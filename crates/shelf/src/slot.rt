ghost use Rattle.std.specs.Prelude.{◌≡◌, ◌<◌, length};
ghost use Rattle.shelf.specs.Slots.{HasRoom, status_of, with_stored};

use base::put_le;

// What the first byte of a slot says of it, with the number that is written for each.
#[derive(Clone, Copy)]
pub(crate) enum Status {
    Empty = 0,
    Held = 1,
    Condemned = 255,
}

impl From<u8> for Status {
    ghost from_gives = { λ byte status. status ≡ status_of byte };

    fn from(byte: u8) -> Status {
        match byte {
            0 => Status::Empty,
            1 => Status::Held,
            _ => Status::Condemned,
        }
    }
}

// What a slot has.
#[derive(Clone, Copy)]
pub(crate) enum Stored<'a> {
    Empty,
    Condemned,
    Held(&'a [u8]),
}

impl Stored<'_> {
    // Makes the slot at a place of the memory have this.
    pub(crate) fn put(self, memory: &mut [u8], at: usize)
        requires { (at < length memory.old) × HasRoom (length memory.old) at self }
        ensures { memory.new ≡ with_stored memory.old at self.entry }
    {
        match self {
            Stored::Empty => memory[at] = Status::Empty as u8,
            Stored::Condemned => memory[at] = Status::Condemned as u8,
            Stored::Held(bytes) => {
                memory[at] = Status::Held as u8;
                put_le(memory, at + 1, 2, bytes.len() as u32);
                memory[at + 3..at + 3 + bytes.len()].copy_from_slice(bytes);
            }
        }
    }
}
