// A row of cabinets over lent memory.
#![tactic(auto)]

ghost use Rattle.std.specs.Prelude.{◌≤◌};

mod slot;

use crate::slot::{Status, Stored};
use base::{holds_bytes, u16_at};
use rows::fault::{RowCause, RowFault};
use rows::row::{ReadRow, Row};

// No room is larger.
const MOST: usize = 6400;

// A row of cabinets over lent memory: as many as fit, 16 at most, and each byte of the memory that no call names stands
// unchanged. Its slots are places in that memory, whose layout is published, and no structs: there is no heap.
#[derive(Drop)]
pub struct Shelf<'a> {
    memory: &'a mut [u8],
    room: usize,
    ghost small: { room ≤ 6400 },
}

#[tactic(auto, unfolding(crate::specs::Layout::shelved))]
impl<'a> Shelf<'a> {
    ghost use Rattle.std.specs.Prelude.{◌≡◌, ◌+◌, ◌<◌, ◌≤◌, length, IfOk, Ok, slice_set, cond};
    ghost use Rattle.base.specs.Answers.{leaves};
    ghost use Rattle.rows.specs.Calls.{cabinet_answer, of_cabinet, of_slot, slot_answer};
    ghost use Rattle.rows.specs.Model.{with_reach, with_slot};
    ghost use Rattle.shelf.specs.Layout.{door, fitting, place, room_of, shelf_model, slot_at, stride};
    ghost use Rattle.shelf.specs.Slots.{Fits, slot_of, with_stored};
    ghost use Rattle.shelf.specs.Shelves.{DoorAt, SameShelf, SlotAt, row_of};

    // The row that the memory holds, whatever it holds, with the given room, or 6,400 where more is given. Changes no byte.
    pub fn new(memory: &'a mut [u8], room: usize) -> Self
        ensures holds { (result.memory.now ≡ memory.old) × (result.room ≡ room_of room) }
        ensures means { row_of result ≡ shelf_model memory.old room }
        ensures lender { result.memory.ghost_name ≡ memory.entry.ghost_name }
    {
        Shelf {
            memory,
            room: room.min(MOST),
        }
    }

    // The bytes of one cabinet: one of reach, and eight slots of a status, a length and the room.
    fn stride(&self) -> usize
        ensures { result ≡ stride self.now.room }
    {
        1 + 8 * (3 + self.room)
    }

    // Where a cabinet begins, with its byte of reach, which is 1 in reach.
    fn door(&self, cabinet: usize) -> usize
        requires { cabinet < 16 }
        ensures { result ≡ door self.now.room cabinet }
    {
        cabinet * self.stride()
    }

    // Where a slot begins, with its status.
    fn place(&self, cabinet: usize, file: usize) -> usize
        requires { (cabinet < 16) × (file < 8) }
        ensures { result ≡ place self.now.room cabinet file }
    {
        self.door(cabinet) + 1 + file * (3 + self.room)
    }

    fn find_door(&self, cabinet: usize) -> Result<usize, RowFault>
        ensures answers { result ≡ of_cabinet (row_of self.now) cabinet (Ok (door self.now.room cabinet)) }
        ensures within { IfOk result (DoorAt self.now cabinet) }
    {
        if cabinet >= self.count() {
            return Err(RowFault::of_cabinet(RowCause::NoCabinet, cabinet));
        }
        Ok(self.door(cabinet))
    }

    fn find_slot(&self, cabinet: usize, file: usize) -> Result<usize, RowFault>
        ensures answers { result ≡ of_slot (row_of self.now) cabinet file (Ok (place self.now.room cabinet file)) }
        ensures within { IfOk result (SlotAt self.now cabinet file) }
    {
        if cabinet >= self.count() {
            return Err(RowFault::of_slot(RowCause::NoCabinet, cabinet, file));
        }
        if file >= 8 {
            return Err(RowFault::of_slot(RowCause::NoFile, cabinet, file));
        }
        Ok(self.place(cabinet, file))
    }

    // Whether a cabinet that is there is in reach.
    fn in_reach(&self, cabinet: usize) -> bool
        requires { cabinet < fitting (length self.now.memory.now) self.now.room }
        ensures { result ≡ (row_of self.now).reach cabinet }
    {
        self.memory[self.door(cabinet)] == 1
    }

    // What the slot that begins at a place has.
    #[tactic(auto, using(crate::specs::Sound::as_bytes_same, crate::proofs::Changes::bytes_part), unfolding(crate::specs::Layout::slot_at))]
    fn stored(&self, at: usize) -> Stored<'_>
        requires { at + (3 + self.now.room) ≤ length self.now.memory.now }
        ensures { slot_of result ≡ slot_at self.now.memory.now self.now.room at }
    {
        holds_bytes(self.memory);
        let held = usize::from(u16_at(self.memory, at + 1));
        match Status::from(self.memory[at]) {
            Status::Empty => Stored::Empty,
            Status::Held if 0 < held && held <= self.room => {
                Stored::Held(&self.memory[at + 3..at + 3 + held])
            }
            _ => Stored::Condemned,
        }
    }

    // Puts a cabinet into reach or takes it out.
    fn set_reach(&mut self, cabinet: usize, near: bool) -> Result<(), RowFault>
        ensures answers { result ≡ cabinet_answer (row_of self.old) cabinet }
        ensures becomes { row_of self.new ≡ leaves result (row_of self.old) (with_reach (row_of self.old) cabinet near) }
        ensures memory { self.new.memory.now ≡ leaves result self.old.memory.now (slice_set self.old.memory.now (door self.old.room cabinet) (cond near 1 0)) }
        ensures lender { SameShelf self.new self.old }
    {
        let at = self.find_door(cabinet)?;
        self.memory[at] = u8::from(near);
        Ok(())
    }

    // Makes a slot have something else.
    #[tactic(auto, using(crate::proofs::Changes::stored_model))]
    fn set(&mut self, cabinet: usize, file: usize, stored: Stored<'_>) -> Result<(), RowFault>
        requires { Fits self.old.room stored }
        ensures answers { result ≡ slot_answer (row_of self.old) cabinet file }
        ensures becomes { row_of self.new ≡ leaves result (row_of self.old) (with_slot (row_of self.old) cabinet file (slot_of stored.entry)) }
        ensures memory { self.new.memory.now ≡ leaves result self.old.memory.now (with_stored self.old.memory.now (place self.old.room cabinet file) stored.entry) }
        ensures lender { SameShelf self.new self.old }
    {
        let at = self.find_slot(cabinet, file)?;
        stored.put(self.memory, at);
        Ok(())
    }
}

#[tactic(auto, unfolding(crate::specs::Layout::shelved))]
impl ReadRow for Shelf<'_> {
    ghost use Rattle.shelf.specs.Shelves.{row_of};
    ghost use Rattle.shelf.specs.Sound.{shelf_sound};

    ghost model = { row_of };

    ghost sound = { λ s. shelf_sound s.memory.now s.room s.small };

    fn count(&self) -> usize {
        (self.memory.len() / self.stride()).min(16)
    }

    fn room(&self) -> usize {
        self.room
    }

    fn reach(&self, cabinet: usize) -> Result<bool, RowFault> {
        self.find_door(cabinet)?;
        Ok(self.in_reach(cabinet))
    }

    fn read(&self, cabinet: usize, file: usize, buffer: &mut [u8]) -> Result<usize, RowFault> {
        let at = self.find_slot(cabinet, file)?;
        if !self.in_reach(cabinet) {
            return Err(RowFault::of_slot(RowCause::OutOfReach, cabinet, file));
        }
        match self.stored(at) {
            Stored::Empty => Err(RowFault::of_slot(RowCause::Empty, cabinet, file)),
            Stored::Condemned => Err(RowFault::of_slot(RowCause::Condemned, cabinet, file)),
            Stored::Held(bytes) => {
                if buffer.len() < bytes.len() {
                    return Err(RowFault::of_slot(RowCause::BufferShort, cabinet, file));
                }
                buffer[..bytes.len()].copy_from_slice(bytes);
                Ok(bytes.len())
            }
        }
    }
}

// Each call promises of the memory too: which bytes it sets, and that no other changes.
#[tactic(auto, unfolding(crate::specs::Layout::shelved))]
impl Row for Shelf<'_> {
    ghost use Rattle.std.specs.Prelude.{◌≡◌, true, false, length, slice_set};
    ghost use Rattle.base.specs.Answers.{leaves};
    ghost use Rattle.rows.specs.Calls.{cabinet_answer, slot_answer, write_answer};
    ghost use Rattle.rows.specs.Model.{Condemned, Empty, Held, with_new, with_reach, with_slot};
    ghost use Rattle.shelf.specs.Layout.{door, place, with_empty_cabinet, with_held};
    ghost use Rattle.shelf.specs.Shelves.{SameShelf, row_of};

    fn write(&mut self, cabinet: usize, file: usize, bytes: &[u8]) -> Result<(), RowFault>
        ensures answers { result ≡ write_answer (row_of self.old) cabinet file (length bytes.now) }
        ensures becomes { row_of self.new ≡ leaves result (row_of self.old) (with_slot (row_of self.old) cabinet file (Held bytes.now)) }
        ensures memory { self.new.memory.now ≡ leaves result self.old.memory.now (with_held self.old.memory.now (place self.old.room cabinet file) bytes.now) }
        ensures lender { SameShelf self.new self.old }
    {
        holds_bytes(bytes);
        let at = self.find_slot(cabinet, file)?;
        if bytes.is_empty() || bytes.len() > self.room {
            return Err(RowFault::of_slot(RowCause::SizeMisfit, cabinet, file));
        }
        if !self.in_reach(cabinet) {
            return Err(RowFault::of_slot(RowCause::OutOfReach, cabinet, file));
        }
        Stored::Held(bytes).put(self.memory, at);
        Ok(())
    }

    fn pull(&mut self, cabinet: usize) -> Result<(), RowFault>
        ensures answers { result ≡ cabinet_answer (row_of self.old) cabinet }
        ensures becomes { row_of self.new ≡ leaves result (row_of self.old) (with_reach (row_of self.old) cabinet false) }
        ensures memory { self.new.memory.now ≡ leaves result self.old.memory.now (slice_set self.old.memory.now (door self.old.room cabinet) 0) }
        ensures lender { SameShelf self.new self.old }
    {
        self.set_reach(cabinet, false)
    }

    fn plug(&mut self, cabinet: usize) -> Result<(), RowFault>
        ensures answers { result ≡ cabinet_answer (row_of self.old) cabinet }
        ensures becomes { row_of self.new ≡ leaves result (row_of self.old) (with_reach (row_of self.old) cabinet true) }
        ensures memory { self.new.memory.now ≡ leaves result self.old.memory.now (slice_set self.old.memory.now (door self.old.room cabinet) 1) }
        ensures lender { SameShelf self.new self.old }
    {
        self.set_reach(cabinet, true)
    }

    fn swap(&mut self, cabinet: usize) -> Result<(), RowFault>
        ensures answers { result ≡ cabinet_answer (row_of self.old) cabinet }
        ensures becomes { row_of self.new ≡ leaves result (row_of self.old) (with_new (row_of self.old) cabinet) }
        ensures memory { self.new.memory.now ≡ leaves result self.old.memory.now (with_empty_cabinet self.old.memory.now self.old.room cabinet) }
        ensures lender { SameShelf self.new self.old }
    {
        self.plug(cabinet)?;
        for file in 0..8 {
            self.clear(cabinet, file)?;
        }
        Ok(())
    }

    fn clear(&mut self, cabinet: usize, file: usize) -> Result<(), RowFault>
        ensures answers { result ≡ slot_answer (row_of self.old) cabinet file }
        ensures becomes { row_of self.new ≡ leaves result (row_of self.old) (with_slot (row_of self.old) cabinet file Empty) }
        ensures memory { self.new.memory.now ≡ leaves result self.old.memory.now (slice_set self.old.memory.now (place self.old.room cabinet file) 0) }
        ensures lender { SameShelf self.new self.old }
    {
        self.set(cabinet, file, Stored::Empty)
    }

    fn condemn(&mut self, cabinet: usize, file: usize) -> Result<(), RowFault>
        ensures answers { result ≡ slot_answer (row_of self.old) cabinet file }
        ensures becomes { row_of self.new ≡ leaves result (row_of self.old) (with_slot (row_of self.old) cabinet file Condemned) }
        ensures memory { self.new.memory.now ≡ leaves result self.old.memory.now (slice_set self.old.memory.now (place self.old.room cabinet file) 255) }
        ensures lender { SameShelf self.new self.old }
    {
        self.set(cabinet, file, Stored::Condemned)
    }
}
