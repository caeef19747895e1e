// The calls on cabinets.
ghost use Rattle.std.specs.Prelude.{◌≡◌, true, false, if◌then◌else◌, Some, None, Ok};
ghost use Rattle.base.specs.Answers.{leaves};
ghost use Rattle.rows.specs.Model.{Condemned, Empty};
ghost use Rattle.site.specs.Faults.{named};
ghost use Rattle.site.specs.Calls.{cabinet_call, reach_after, slot_after, slot_call, swap_after};
ghost use Rattle.site.specs.Orders.{resume_answer, swap_answer};
ghost use Rattle.site.specs.Whole.{model_of};

use crate::fault::{SiteCause, SiteFault};
use crate::orders::Order;
use crate::site::{Site, told};
use algebra::Field;
use cipher::Cipher;
use rows::row::Row;

impl<R: Row, C: Cipher, F: Field> Site<R, C, F> {
    // Takes a cabinet out of reach or puts it there.
    fn set_reach(&mut self, cabinet: usize, near: bool) -> Result<(), SiteCause>
        ensures answers { result ≡ cabinet_call (model_of R.ReadRow F.Field C.Cipher self.old) cabinet }
        ensures becomes { let model = model_of R.ReadRow F.Field C.Cipher in model self.new ≡ leaves result (model self.old) (reach_after (model self.old) cabinet near) }
    {
        self.check_cabinet(cabinet)?;
        if near {
            self.row.plug(cabinet)?;
        } else {
            self.row.pull(cabinet)?;
        }
        Ok(())
    }

    // Takes a cabinet out of reach. Refuses a cabinet that is not fitted, and then one that the row lacks.
    pub fn pull(&mut self, cabinet: usize) -> Result<(), SiteFault>
        ensures answers { result ≡ named (Some cabinet) None (cabinet_call (model_of R.ReadRow F.Field C.Cipher self.old) cabinet) }
        ensures becomes { let model = model_of R.ReadRow F.Field C.Cipher in model self.new ≡ leaves result (model self.old) (reach_after (model self.old) cabinet false) }
    {
        told(self.set_reach(cabinet, false), Some(cabinet), None)
    }

    // Puts a cabinet into reach. Refuses as `pull` does.
    pub fn plug(&mut self, cabinet: usize) -> Result<(), SiteFault>
        ensures answers { result ≡ named (Some cabinet) None (cabinet_call (model_of R.ReadRow F.Field C.Cipher self.old) cabinet) }
        ensures becomes { let model = model_of R.ReadRow F.Field C.Cipher in model self.new ≡ leaves result (model self.old) (reach_after (model self.old) cabinet true) }
    {
        told(self.set_reach(cabinet, true), Some(cabinet), None)
    }

    // Empties a slot or condemns it.
    fn set_slot(&mut self, cabinet: usize, file: usize, condemned: bool) -> Result<(), SiteCause>
        ensures answers { result ≡ slot_call (model_of R.ReadRow F.Field C.Cipher self.old) cabinet file }
        ensures becomes { let model = model_of R.ReadRow F.Field C.Cipher in model self.new ≡ leaves result (model self.old) (slot_after (model self.old) cabinet file (if condemned then Condemned else Empty)) }
    {
        self.check_slot(cabinet, file)?;
        if condemned {
            self.row.condemn(cabinet, file)?;
        } else {
            self.row.clear(cabinet, file)?;
        }
        Ok(())
    }

    // Empties a slot, in reach or not. Refuses a cabinet that is not fitted, a file that is not there, and then a cabinet that the row
    // lacks.
    pub fn clear(&mut self, cabinet: usize, file: usize) -> Result<(), SiteFault>
        ensures answers { result ≡ named (Some cabinet) (Some file) (slot_call (model_of R.ReadRow F.Field C.Cipher self.old) cabinet file) }
        ensures becomes { let model = model_of R.ReadRow F.Field C.Cipher in model self.new ≡ leaves result (model self.old) (slot_after (model self.old) cabinet file Empty) }
    {
        told(
            self.set_slot(cabinet, file, false),
            Some(cabinet),
            Some(file),
        )
    }

    // Condemns a slot, in reach or not. Refuses as `clear` does.
    pub fn condemn(&mut self, cabinet: usize, file: usize) -> Result<(), SiteFault>
        ensures answers { result ≡ named (Some cabinet) (Some file) (slot_call (model_of R.ReadRow F.Field C.Cipher self.old) cabinet file) }
        ensures becomes { let model = model_of R.ReadRow F.Field C.Cipher in model self.new ≡ leaves result (model self.old) (slot_after (model self.old) cabinet file Condemned) }
    {
        told(
            self.set_slot(cabinet, file, true),
            Some(cabinet),
            Some(file),
        )
    }

    fn swap_fitted(&mut self, cabinet: usize) -> Result<Order, SiteCause>
        ensures answers { result ≡ swap_answer (model_of R.ReadRow F.Field C.Cipher self.old) cabinet }
        ensures becomes { let model = model_of R.ReadRow F.Field C.Cipher in model self.new ≡ leaves result (model self.old) (swap_after (model self.old) cabinet) }
    {
        self.check_cabinet(cabinet)?;
        self.row.swap(cabinet)?;
        self.marks[cabinet] = true;
        Ok(Order::for_cabinet(cabinet))
    }

    // Puts an empty cabinet in the place of one, in reach, opens its mark, and hands a work order for it out. Refuses as `pull`
    // does.
    pub fn swap(&mut self, cabinet: usize) -> Result<Order, SiteFault>
        ensures answers { result ≡ named (Some cabinet) None (swap_answer (model_of R.ReadRow F.Field C.Cipher self.old) cabinet) }
        ensures becomes { let model = model_of R.ReadRow F.Field C.Cipher in model self.new ≡ leaves result (model self.old) (swap_after (model self.old) cabinet) }
    {
        told(self.swap_fitted(cabinet), Some(cabinet), None)
    }

    fn resume_marked(&self, cabinet: usize) -> Result<Order, SiteCause>
        ensures { result ≡ resume_answer (model_of R.ReadRow F.Field C.Cipher self.now) cabinet }
    {
        self.check_cabinet(cabinet)?;
        if !self.marks[cabinet] {
            return Err(SiteCause::MarkClosed);
        }
        Ok(Order::for_cabinet(cabinet))
    }

    // Hands a fresh work order out for a cabinet whose mark is open. Refuses a cabinet that is not fitted, and then a closed mark.
    pub fn resume(&self, cabinet: usize) -> Result<Order, SiteFault>
        ensures { result ≡ named (Some cabinet) None (resume_answer (model_of R.ReadRow F.Field C.Cipher self.now) cabinet) }
    {
        told(self.resume_marked(cabinet), Some(cabinet), None)
    }

    // Spends a work order with nothing done; the mark stays as it is.
    pub fn defer(&self, order: Order) {
        let _ = order.spend();
    }
}
