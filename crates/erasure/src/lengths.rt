// How many columns a package has, and how long each of its records is.
ghost use Rattle.std.specs.Prelude.{◌≡◌, ◌-◌, ◌*◌, ◌≤◌, true, false, MatchOption};
ghost use Rattle.base.specs.Sizes.{misfit};
ghost use Rattle.erasure.specs.Records.{columns, record_length};
ghost use Rattle.erasure.specs.Whole.{coding_of};

use crate::head::HEAD_LENGTH;
use crate::plan::Plan;
use algebra::Field;
use base::is_misfit;

// How many columns a package of so many bytes has.
pub(crate) fn column_count<F: Field>(plan: &Plan, bytes: usize) -> usize
    requires { bytes ≤ 4128 }
    ensures value { result ≡ columns (coding_of F.Field plan.now) bytes }
    ensures bound { plan.now.k * (result * F.stored) ≤ 6400 }
{
    (bytes / F::data_width()).div_ceil(plan.needed())
}

// The length of each record of a package of so many bytes, or nothing where no package has that length. What k records hold
// behind their heads takes 6,400 bytes at most.
pub fn record_length<F: Field>(plan: &Plan, bytes: usize) -> Option<usize>
    ensures { MatchOption result (misfit bytes ≡ true) (λ x. (misfit bytes ≡ false) × (x ≡ record_length (coding_of F.Field plan.now) bytes) × (plan.now.k * (x - 6) ≤ 6400)) }
{
    if is_misfit(bytes) {
        return None;
    }
    Some(HEAD_LENGTH + column_count::<F>(plan, bytes) * F::stored_width())
}
