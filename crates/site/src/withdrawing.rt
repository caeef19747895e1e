// Withdrawing a file, and telling which cabinets stand for it.
ghost use Rattle.std.specs.Prelude.{◌≡◌, ◌<◌, ◌&&◌, Some, None, is_none, nat_lt};
ghost use Rattle.base.specs.Answers.{leaves};
ghost use Rattle.memory.specs.Lent.{Wiped, is_short};
ghost use Rattle.rows.specs.Model.{Empty};
ghost use Rattle.site.specs.Calls.{audit_answer, withdraw_after, withdraw_answer};
ghost use Rattle.site.specs.Faults.{named};
ghost use Rattle.site.specs.Model.{with_slots};
ghost use Rattle.site.specs.Whole.{model_of};

use crate::fault::{SiteCause, SiteFault};
use crate::site::{Site, told};
use algebra::Field;
use cipher::Cipher;
use memory::{Buffers, Work, wipe_all};
use rows::row::Row;
use standing::{Survey, in_reach, survey_of};

// Empties the slot of a file in each of the first n cabinets that is in reach.
fn clear_all<R: Row>(row: &mut R, n: usize, file: usize)
    requires { file < 8 }
    ensures { R.ReadRow.model row.new ≡ with_slots (R.ReadRow.model row.old) (λ c. nat_lt c n && (R.ReadRow.model row.old).reach c) file (λ c. Empty) }
{
    for c in 0..n {
        if in_reach(row, c) {
            let _ = row.clear(c, file);
        }
    }
}

impl<R: Row, C: Cipher, F: Field> Site<R, C, F> {
    fn withdraw_current(&mut self, file: usize) -> Result<(), SiteCause>
        ensures answers { result ≡ withdraw_answer (model_of R.ReadRow F.Field C.Cipher self.old) file }
        ensures becomes { let model = model_of R.ReadRow F.Field C.Cipher in model self.new ≡ leaves result (model self.old) (withdraw_after (model self.old) file) }
    {
        self.current(file)?;
        let n = self.plan.fitted();
        clear_all(&mut self.row, n, file);
        self.files[file].current = false;
        Ok(())
    }

    // Withdraws a file: it is not current any more, its last issue stays known, and its slot is emptied in each cabinet in
    // reach. Refuses a file that is not there, and then one that is not current.
    pub fn withdraw(&mut self, file: usize) -> Result<(), SiteFault>
        ensures answers { result ≡ named None (Some file) (withdraw_answer (model_of R.ReadRow F.Field C.Cipher self.old) file) }
        ensures becomes { let model = model_of R.ReadRow F.Field C.Cipher in model self.new ≡ leaves result (model self.old) (withdraw_after (model self.old) file) }
    {
        told(self.withdraw_current(file), None, Some(file))
    }

    fn audit_in(&self, file: usize, buffers: Option<Buffers<'_>>) -> Result<Survey, SiteCause>
        ensures { result ≡ audit_answer (model_of R.ReadRow F.Field C.Cipher self.now) file (is_none buffers.entry) }
    {
        let kept = self.current(file)?;
        if buffers.is_none() {
            return Err(SiteCause::MemoryShort);
        }
        Ok(survey_of(&self.row, self.plan.fitted(), file, self.due(kept)))
    }

    // Tells which fitted cabinets stand for a file, and which do not, each under its cause; nothing changes but the working memory,
    // which is zero afterwards. Refuses a file that is not there, one that is not current, and then short working memory.
    pub fn audit(&self, file: usize, work: Work<'_>) -> Result<Survey, SiteFault>
        ensures answers { result ≡ named None (Some file) (audit_answer (model_of R.ReadRow F.Field C.Cipher self.now) file (is_short work.entry)) }
        ensures wiped { Wiped work.entry work.exit }
    {
        let Work {
            sealed,
            spread,
            records,
            opened,
        } = work;
        let answer = self.audit_in(file, Buffers::of(sealed, spread, records, opened));
        wipe_all(sealed, spread, records, opened);
        told(answer, None, Some(file))
    }
}
