// A site, and its founding.
ghost use Rattle.std.specs.Prelude.{◌≡◌, ◌&&◌, nat_lt};
ghost use Rattle.site.specs.Model.{founded, with_all_new};
ghost use Rattle.site.specs.Faults.{named};
ghost use Rattle.site.specs.Whole.{fitting_of, model_of};

use crate::fault::{SiteCause, SiteFault};
use crate::files::Kept;
use algebra::Field;
use cipher::Cipher;
use erasure::Plan;
use rows::row::Row;
use std::marker::PhantomData;

// Eight files in the cabinets of a row: file 0 is the bay map, file 1 the sign table. Of its own a site keeps each file's last
// issue, currency and length and each cabinet's mark, which is open from a swap until a refill leaves no file; it keeps no key.
// Clauses say what it means by `model_of`, and there is no Model: the value of one cannot hold functions, as what a row means does.
#[derive(Drop)]
pub struct Site<R: Row, C: Cipher, F: Field> {
    pub(crate) plan: Plan,
    pub(crate) row: R,
    cipher: PhantomData<C>,
    field: PhantomData<F>,
    pub(crate) files: [Kept; 8],
    pub(crate) marks: [bool; 16],
}

// The answer to a call that named a cabinet or a file.
pub(crate) fn told<T>(
    answer: Result<T, SiteCause>,
    cabinet: Option<usize>,
    file: Option<usize>,
) -> Result<T, SiteFault>
    ensures { result ≡ named cabinet file answer }
{
    answer.map_err(|cause| SiteFault {
        cause,
        cabinet,
        file,
    })
}

// Puts an empty cabinet in the place of each of the first n that the row has.
fn swap_all<R: Row>(row: &mut R, n: usize)
    ensures { R.ReadRow.model row.new ≡ with_all_new (R.ReadRow.model row.old) (λ c. nat_lt c n && nat_lt c (R.ReadRow.model row.old).count) }
{
    for c in 0..n {
        let _ = row.swap(c);
    }
}

impl<R: Row, C: Cipher, F: Field> Site<R, C, F> {
    // Founds a site: swaps each fitted cabinet that the row has. No file is current, and no mark is open.
    pub fn found(plan: Plan, mut row: R) -> Self
        ensures { model_of R.ReadRow F.Field C.Cipher result ≡ founded (fitting_of F.Field C.Cipher plan) (R.ReadRow.model row) }
    {
        swap_all(&mut row, plan.fitted());
        let nothing = Kept {
            last: 0,
            current: false,
            size: 0,
        };
        Site {
            plan,
            row,
            cipher: PhantomData,
            field: PhantomData,
            files: [nothing; 8],
            marks: [false; 16],
        }
    }
}
