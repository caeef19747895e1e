// What the calls look at first.
ghost use Rattle.std.specs.Prelude.{◌≡◌, ◌<◌, IfOk, Ok, nat_le};
ghost use Rattle.base.specs.Answers.{refuse};
ghost use Rattle.site.specs.declared.fault.SiteCause.TheVariants.{NoFile};
ghost use Rattle.site.specs.Model.{due_for, kept};
ghost use Rattle.site.specs.Calls.{of_current, of_fitted};
ghost use Rattle.site.specs.Whole.{fitting_of, model_of};

use crate::fault::SiteCause;
use crate::files::Kept;
use crate::site::Site;
use algebra::Field;
use aont::length_of_package;
use cipher::Cipher;
use erasure::{Head, record_length};
use rows::row::Row;

// Refuses a file that is not there.
pub(crate) fn check_file(file: usize) -> Result<(), SiteCause>
    ensures answers { result ≡ refuse (nat_le 8 file) NoFile (Ok tt) }
    ensures there { IfOk result (λ _. file < 8) }
{
    if file < 8 {
        Ok(())
    } else {
        Err(SiteCause::NoFile)
    }
}

impl<R: Row, C: Cipher, F: Field> Site<R, C, F> {
    // Refuses a cabinet that is not fitted.
    pub(crate) fn check_cabinet(&self, cabinet: usize) -> Result<(), SiteCause>
        ensures { result ≡ of_fitted (model_of R.ReadRow F.Field C.Cipher self.now) cabinet (Ok tt) }
    {
        if cabinet < self.plan.fitted() {
            Ok(())
        } else {
            Err(SiteCause::NoCabinet)
        }
    }

    // The same, and then a file that is not there.
    pub(crate) fn check_slot(&self, cabinet: usize, file: usize) -> Result<(), SiteCause>
        ensures { result ≡ of_fitted (model_of R.ReadRow F.Field C.Cipher self.now) cabinet (refuse (nat_le 8 file) NoFile (Ok tt)) }
    {
        self.check_cabinet(cabinet)?;
        check_file(file)
    }

    // What is kept of a file that can be got.
    pub(crate) fn current(&self, file: usize) -> Result<Kept, SiteCause>
        ensures { let model = model_of R.ReadRow F.Field C.Cipher in result ≡ of_current (model self.now) file (Ok (kept (model self.now) file)) }
    {
        check_file(file)?;
        if !self.files[file].current {
            return Err(SiteCause::NotCurrent);
        }
        Ok(self.files[file])
    }

    // The head of the record that is due for a file of which this is kept.
    pub(crate) fn due(&self, kept: Kept) -> Head
        ensures { result ≡ due_for (fitting_of F.Field C.Cipher self.now.plan) kept }
    {
        let whole = record_length::<F>(&self.plan, length_of_package(kept.size)).unwrap_or(
            0,
        ) as u16;
        Head {
            whole,
            number: F::field_number(),
            issue: kept.last,
        }
    }
}
