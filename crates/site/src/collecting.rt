// The records that a file is restored from.
ghost use Rattle.std.specs.Prelude.{◌≡◌, ◌<◌, IfOk};
ghost use Rattle.base.specs.Bytes.{over};
ghost use Rattle.site.specs.Model.{kept, positions, records};
ghost use Rattle.site.specs.Steps.{ended, enough};
ghost use Rattle.site.specs.Whole.{model_of};

use crate::fault::SiteCause;
use crate::files::Kept;
use crate::site::Site;
use algebra::Field;
use cipher::Cipher;
use memory::LEAST;
use rows::row::Row;
use standing::{Lowest, gather, lowest_standing, survey_of};

impl<R: Row, C: Cipher, F: Field> Site<R, C, F> {
    // Reads the records of the k lowest cabinets that stand for a file, end to end into the front of a buffer, and answers
    // these cabinets. Refuses where fewer stand. What is kept of the file is passed beside its number: the invariant of a struct of both
    // could not name the site that keeps it.
    pub(crate) fn collect(
        &self,
        file: usize,
        last: Kept,
        out: &mut [u8; LEAST],
    ) -> Result<Lowest, SiteCause>
        requires there { file < 8 }
        requires same { last ≡ kept (model_of R.ReadRow F.Field C.Cipher self.now) file }
        ensures answers { ended result ≡ enough (model_of R.ReadRow F.Field C.Cipher self.now) file }
        ensures positions { IfOk result (λ ps. ps ≡ positions (model_of R.ReadRow F.Field C.Cipher self.now) file) }
        ensures records { IfOk result (λ ps. out.new ≡ over (records (model_of R.ReadRow F.Field C.Cipher self.now) file) out.old) }
    {
        let k = self.plan.needed();
        let n = self.plan.fitted();
        let due = self.due(last);
        let lowest = lowest_standing(&self.row, k, n, file, due);
        if lowest.positions().len() < k {
            return Err(SiteCause::TooFew(survey_of(&self.row, n, file, due).absent));
        }
        gather(
            &self.row,
            file,
            lowest.positions(),
            usize::from(due.whole),
            out,
        );
        Ok(lowest)
    }
}
