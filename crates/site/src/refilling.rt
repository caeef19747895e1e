// A work order carried out: the records of all files made anew for one cabinet.
ghost use Rattle.std.specs.Prelude.{◌≡◌, ◌<◌, false, not, ◌&&◌, is_none, set, if◌then◌else◌, nat_lt};
ghost use Rattle.memory.specs.Lent.{Wiped, is_short};
ghost use Rattle.rows.specs.Model.{Held, with_slot};
ghost use Rattle.standing.specs.Sets.{set_of};
ghost use Rattle.site.specs.Calls.{rebuilt_record};
ghost use Rattle.site.specs.Model.{kept, standing, with_marks, with_row};
ghost use Rattle.site.specs.Orders.{left, refill_after, refill_answer, refilled_row, served};
ghost use Rattle.site.specs.Steps.{lacks};
ghost use Rattle.site.specs.Whole.{model_of};

use crate::orders::{Order, Refilled};
use crate::repairing::{Source, lacks, rewrite};
use crate::site::Site;
use algebra::Field;
use aont::length_of_package;
use cipher::Cipher;
use erasure::Head;
use memory::{Buffers, Work, wipe_all};
use rows::row::Row;
use standing::{cause_at, with_member};

impl<R: Row, C: Cipher, F: Field> Site<R, C, F> {
    // Whether a record can be written for a cabinet: it is fitted and lacks the one that is due.
    fn takes(&self, cabinet: usize, file: usize, due: Head) -> bool
        ensures { result ≡ (nat_lt cabinet self.now.plan.n && lacks (R.ReadRow.model self.now.row) due file cabinet) }
    {
        cabinet < self.plan.fitted() && lacks(&self.row, cabinet, file, due)
    }

    // Rebuilds the cabinet's record of a file and writes it, where that can be done, and answers whether it was.
    fn refill_file(&mut self, cabinet: usize, file: usize, buffers: &mut Buffers<'_>) -> bool
        requires { file < 8 }
        ensures answers { result ≡ served (model_of R.ReadRow F.Field C.Cipher self.old) cabinet false file }
        ensures becomes { let model = model_of R.ReadRow F.Field C.Cipher in model self.new ≡ with_row (model self.old) (if result then with_slot (R.ReadRow.model self.old.row) cabinet file (Held (rebuilt_record (model self.old) file cabinet)) else R.ReadRow.model self.old.row) }
    {
        let Ok(last) = self.current(file) else {
            return false;
        };
        let due = self.due(last);
        if !self.takes(cabinet, file, due) {
            return false;
        }
        let Ok(lowest) = self.collect(file, last, buffers.records) else {
            return false;
        };
        let plan = self.plan;
        let k = plan.needed();
        let whole = usize::from(due.whole);
        let records = &*buffers.records;
        let spread = &mut *buffers.spread;
        let source = Source {
            plan: &plan,
            bytes: length_of_package(last.size),
            positions: lowest.positions(),
            records: &records[0..k * whole],
        };
        rewrite::<R, F>(&mut self.row, &source, cabinet, file, &mut spread[0..whole]).is_ok()
    }

    // Whether a file is current and the cabinet does not stand for it.
    fn is_left(&self, cabinet: usize, file: usize) -> bool
        requires { file < 8 }
        ensures { let model = model_of R.ReadRow F.Field C.Cipher in result ≡ ((kept (model self.now) file).current && not (nat_lt cabinet self.now.plan.n && standing (model self.now) file cabinet)) }
    {
        let last = self.files[file];
        last.current
            && (cabinet >= self.plan.fitted()
                || cause_at(&self.row, cabinet, file, self.due(last)).is_some())
    }

    // The set of current files for which the cabinet does not stand.
    fn left(&self, cabinet: usize) -> u16
        ensures { result ≡ left (model_of R.ReadRow F.Field C.Cipher self.now) cabinet }
    {
        let mut left = 0;
        for file in 0..8usize {
            left = with_member(left, file, self.is_left(cabinet, file));
        }
        left
    }

    // Refills each file in turn, and answers the set of those that were written: none with memory that is too short.
    fn refill_all(&mut self, cabinet: usize, mut buffers: Option<Buffers<'_>>) -> u16
        ensures answers { result ≡ set_of (served (model_of R.ReadRow F.Field C.Cipher self.old) cabinet (is_none buffers.entry)) 8 }
        ensures becomes { let model = model_of R.ReadRow F.Field C.Cipher in model self.new ≡ with_row (model self.old) (refilled_row (model self.old) cabinet (is_none buffers.entry)) }
    {
        let Some(buffers) = buffers.as_mut() else {
            return 0;
        };
        let mut written = 0;
        for file in 0..8usize {
            let is_written = self.refill_file(cabinet, file, buffers);
            written = with_member(written, file, is_written);
        }
        written
    }

    // Closes a cabinet's mark; one that no site has, has none.
    fn close_mark(&mut self, cabinet: usize)
        ensures { let model = model_of R.ReadRow F.Field C.Cipher in model self.new ≡ with_marks (model self.old) (set self.old.marks cabinet false) (R.ReadRow.model self.old.row) }
    {
        if cabinet < 16 {
            self.marks[cabinet] = false;
        }
    }

    fn refill_in(&mut self, cabinet: usize, buffers: Option<Buffers<'_>>) -> Refilled
        ensures answers { result ≡ refill_answer (model_of R.ReadRow F.Field C.Cipher self.old) cabinet (is_none buffers.entry) }
        ensures becomes { let model = model_of R.ReadRow F.Field C.Cipher in model self.new ≡ refill_after (model self.old) cabinet (is_none buffers.entry) }
    {
        let written = self.refill_all(cabinet, buffers);
        let left = self.left(cabinet);
        if left == 0 {
            self.close_mark(cabinet);
        }
        Refilled { written, left }
    }

    // Carries a work order out: rebuilds the record of each current file that its cabinet, in reach, does not stand for and k others
    // do, and answers the files written and the current files for which it does not stand afterwards. Its mark is closed exactly if
    // none is left. With working memory that is too short nothing is written. The order is spent, and the working memory is zero
    // afterwards.
    pub fn refill(&mut self, order: Order, work: Work<'_>) -> Refilled
        ensures answers { result ≡ refill_answer (model_of R.ReadRow F.Field C.Cipher self.old) order.cabinet (is_short work.entry) }
        ensures becomes { let model = model_of R.ReadRow F.Field C.Cipher in model self.new ≡ refill_after (model self.old) order.cabinet (is_short work.entry) }
        ensures wiped { Wiped work.entry work.exit }
    {
        let cabinet = order.spend();
        let Work {
            sealed,
            spread,
            records,
            opened,
        } = work;
        let done = self.refill_in(cabinet, Buffers::of(sealed, spread, records, opened));
        wipe_all(sealed, spread, records, opened);
        done
    }
}
