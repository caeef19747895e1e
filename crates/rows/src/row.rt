ghost use Rattle.std.specs.Prelude.{◌≡◌, true, false, length};
ghost use Rattle.base.specs.Answers.{leaves};
ghost use Rattle.base.specs.Bytes.{over};
ghost use Rattle.rows.specs.Calls.{cabinet_answer, reach_answer, read_answer, slot_answer, write_answer};
ghost use Rattle.rows.specs.Model.{Condemned, Empty, Held, RowModel, Sound, held, with_new, with_reach, with_slot};

use crate::fault::RowFault;

// A row of cabinets that can be read; no call of it changes the row. Any number may be given for a cabinet or a file.
pub trait ReadRow {
    // what the row means
    ghost model: { Self → RowModel };

    // what holds of every row
    ghost sound: { (x : Self) → Sound (model x) };

    // How many cabinets there are, 16 at most.
    fn count(&self) -> usize
        ensures { result ≡ (model self.now).count };

    // How many bytes a write may bring, 6,400 at most.
    fn room(&self) -> usize
        ensures { result ≡ (model self.now).room };

    // Whether a cabinet is in reach. Refuses a cabinet that is not there.
    fn reach(&self, cabinet: usize) -> Result<bool, RowFault>
        ensures { result ≡ reach_answer (model self.now) cabinet };

    // Copies what a slot holds into the front of the buffer, leaves the rest of it, and answers how many bytes that were.
    // Refuses, and then leaves the whole buffer: a cabinet or a file that is not there, a cabinet out of reach, a slot
    // that is condemned or empty, a buffer that is shorter than what the slot holds.
    fn read(&self, cabinet: usize, file: usize, buffer: &mut [u8]) -> Result<usize, RowFault>
        ensures answers { result ≡ read_answer (model self.now) cabinet file (length buffer.old) }
        ensures fills { buffer.new ≡ leaves result buffer.old (over (held ((model self.now).slot cabinet file)) buffer.old) };
}

// A row of cabinets that can be changed too. Each call changes what it says and nothing else, and nothing where it
// refuses; each refuses a cabinet or a file that is not there.
pub trait Row: ReadRow {
    // Makes a slot hold the bytes, whatever it was before. Refuses no bytes, more bytes than the room, and then a cabinet
    // out of reach.
    fn write(&mut self, cabinet: usize, file: usize, bytes: &[u8]) -> Result<(), RowFault>
        ensures answers { result ≡ write_answer (Self.ReadRow.model self.old) cabinet file (length bytes.now) }
        ensures becomes { Self.ReadRow.model self.new ≡ leaves result (Self.ReadRow.model self.old) (with_slot (Self.ReadRow.model self.old) cabinet file (Held bytes.now)) };

    // Takes a cabinet out of reach.
    fn pull(&mut self, cabinet: usize) -> Result<(), RowFault>
        ensures answers { result ≡ cabinet_answer (Self.ReadRow.model self.old) cabinet }
        ensures becomes { Self.ReadRow.model self.new ≡ leaves result (Self.ReadRow.model self.old) (with_reach (Self.ReadRow.model self.old) cabinet false) };

    // Puts a cabinet into reach.
    fn plug(&mut self, cabinet: usize) -> Result<(), RowFault>
        ensures answers { result ≡ cabinet_answer (Self.ReadRow.model self.old) cabinet }
        ensures becomes { Self.ReadRow.model self.new ≡ leaves result (Self.ReadRow.model self.old) (with_reach (Self.ReadRow.model self.old) cabinet true) };

    // Puts an empty cabinet in the place of one, in reach.
    fn swap(&mut self, cabinet: usize) -> Result<(), RowFault>
        ensures answers { result ≡ cabinet_answer (Self.ReadRow.model self.old) cabinet }
        ensures becomes { Self.ReadRow.model self.new ≡ leaves result (Self.ReadRow.model self.old) (with_new (Self.ReadRow.model self.old) cabinet) };

    // Empties a slot, in reach or not.
    fn clear(&mut self, cabinet: usize, file: usize) -> Result<(), RowFault>
        ensures answers { result ≡ slot_answer (Self.ReadRow.model self.old) cabinet file }
        ensures becomes { Self.ReadRow.model self.new ≡ leaves result (Self.ReadRow.model self.old) (with_slot (Self.ReadRow.model self.old) cabinet file Empty) };

    // Condemns a slot, in reach or not.
    fn condemn(&mut self, cabinet: usize, file: usize) -> Result<(), RowFault>
        ensures answers { result ≡ slot_answer (Self.ReadRow.model self.old) cabinet file }
        ensures becomes { Self.ReadRow.model self.new ≡ leaves result (Self.ReadRow.model self.old) (with_slot (Self.ReadRow.model self.old) cabinet file Condemned) };
}
