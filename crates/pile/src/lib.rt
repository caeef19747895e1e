// Two rows end to end, as one.
#![tactic(auto)]

ghost use Rattle.std.specs.Prelude.{◌≡◌, MatchResult};
ghost use Rattle.pile.specs.Piled.{naming, piled, piled_sound};
ghost use Rattle.pile.specs.Sides.{On, Past};

use rows::fault::{RowCause, RowFault};
use rows::row::{ReadRow, Row};

// Two rows end to end: the second's cabinets follow the first's, up to 16 in all, and the room is the smaller. So a slot
// may hold more bytes than the room.
#[derive(Drop)]
pub struct Pile<A, B> {
    first: A,
    second: B,
}

impl<A, B> Pile<A, B> {
    // The two rows as one; changes neither.
    pub fn new(first: A, second: B) -> Self
        ensures { (result.first ≡ first) × (result.second ≡ second) }
    {
        Pile { first, second }
    }
}

// The row of a pile that has a cabinet, with the cabinet's number there. Each call matches it by itself: its two arms call methods of
// two types, which no one closure can.
enum Side {
    First(usize),
    Second(usize),
}

impl<A: ReadRow, B: ReadRow> Pile<A, B> {
    // The side of a cabinet, which the second row may still refuse. Refuses one past the sixteenth, for a call that names
    // the cabinet and maybe a file.
    fn side(&self, cabinet: usize, file: Option<usize>) -> Result<Side, RowFault>
        ensures { MatchResult result (On (A.ReadRow.model self.now.first).count cabinet) (Past cabinet file) }
    {
        let first = self.first.count();
        if cabinet < first {
            Ok(Side::First(cabinet))
        } else if cabinet < 16 {
            Ok(Side::Second(cabinet - first))
        } else {
            Err(RowFault {
                cause: RowCause::NoCabinet,
                cabinet: Some(cabinet),
                file,
            })
        }
    }
}

// The second row's answer, its refusal about the cabinet of this number, which was named to the pile.
fn named<T>(answer: Result<T, RowFault>, number: usize) -> Result<T, RowFault>
    ensures { result ≡ naming number answer }
{
    answer.map_err(|fault| RowFault {
        cabinet: Some(number),
        ..fault
    })
}

#[tactic(auto, unfolding(crate::specs::Piled::piled))]
impl<A: ReadRow, B: ReadRow> ReadRow for Pile<A, B> {
    ghost model = { λ p. piled (A.ReadRow.model p.first) (B.ReadRow.model p.second) };

    ghost sound = { λ p. piled_sound (A.ReadRow.model p.first) (B.ReadRow.model p.second) (A.ReadRow.sound p.first) (B.ReadRow.sound p.second) };

    fn count(&self) -> usize {
        (self.first.count() + self.second.count()).min(16)
    }

    fn room(&self) -> usize {
        self.first.room().min(self.second.room())
    }

    fn reach(&self, cabinet: usize) -> Result<bool, RowFault> {
        match self.side(cabinet, None)? {
            Side::First(inner) => self.first.reach(inner),
            Side::Second(inner) => named(self.second.reach(inner), cabinet),
        }
    }

    fn read(&self, cabinet: usize, file: usize, buffer: &mut [u8]) -> Result<usize, RowFault> {
        match self.side(cabinet, Some(file))? {
            Side::First(inner) => self.first.read(inner, file, buffer),
            Side::Second(inner) => named(self.second.read(inner, file, buffer), cabinet),
        }
    }
}

#[tactic(auto, unfolding(crate::specs::Piled::piled))]
impl<A: Row, B: Row> Row for Pile<A, B> {
    fn write(&mut self, cabinet: usize, file: usize, bytes: &[u8]) -> Result<(), RowFault> {
        if cabinet >= self.count() {
            return Err(RowFault::of_slot(RowCause::NoCabinet, cabinet, file));
        }
        if file >= 8 {
            return Err(RowFault::of_slot(RowCause::NoFile, cabinet, file));
        }
        if bytes.len() > self.room() {
            return Err(RowFault::of_slot(RowCause::SizeMisfit, cabinet, file));
        }
        match self.side(cabinet, Some(file))? {
            Side::First(inner) => self.first.write(inner, file, bytes),
            Side::Second(inner) => named(self.second.write(inner, file, bytes), cabinet),
        }
    }

    fn pull(&mut self, cabinet: usize) -> Result<(), RowFault> {
        match self.side(cabinet, None)? {
            Side::First(inner) => self.first.pull(inner),
            Side::Second(inner) => named(self.second.pull(inner), cabinet),
        }
    }

    fn plug(&mut self, cabinet: usize) -> Result<(), RowFault> {
        match self.side(cabinet, None)? {
            Side::First(inner) => self.first.plug(inner),
            Side::Second(inner) => named(self.second.plug(inner), cabinet),
        }
    }

    fn swap(&mut self, cabinet: usize) -> Result<(), RowFault> {
        match self.side(cabinet, None)? {
            Side::First(inner) => self.first.swap(inner),
            Side::Second(inner) => named(self.second.swap(inner), cabinet),
        }
    }

    fn clear(&mut self, cabinet: usize, file: usize) -> Result<(), RowFault> {
        match self.side(cabinet, Some(file))? {
            Side::First(inner) => self.first.clear(inner, file),
            Side::Second(inner) => named(self.second.clear(inner, file), cabinet),
        }
    }

    fn condemn(&mut self, cabinet: usize, file: usize) -> Result<(), RowFault> {
        match self.side(cabinet, Some(file))? {
            Side::First(inner) => self.first.condemn(inner, file),
            Side::Second(inner) => named(self.second.condemn(inner, file), cabinet),
        }
    }
}
