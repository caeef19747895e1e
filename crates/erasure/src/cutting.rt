ghost use Rattle.std.specs.Prelude.{◌≡◌, length, OnOk};
ghost use Rattle.base.specs.Bytes.{over};
ghost use Rattle.base.specs.Answers.{leaves};
ghost use Rattle.erasure.specs.Records.{IsRecord};
ghost use Rattle.erasure.specs.Formula.{record_of, record_from};
ghost use Rattle.erasure.specs.Slices.{cut_answer};
ghost use Rattle.erasure.specs.Whole.{coding_of};

use crate::combining::{Sources, cut_from};
use crate::fault::SliceFault;
use crate::head::HEAD_LENGTH;
use crate::lengths::record_length;
use crate::plan::Plan;
use crate::slicing::spread;
use algebra::Field;

// The positions of a package's own slices.
const OWN: [u8; 16] = [0, 1, 2, 3, 4, 5, 6, 7, 8, 9, 10, 11, 12, 13, 14, 15];

// Cuts the record of a cabinet from the slices of a package of so many bytes, into the front of the output, and answers
// the record's length. The rest of the output stays as it was, and all of it on a refusal: no package has that length, no
// such cabinet is fitted, the issue is 0, or the output is too short, in that order.
pub fn cut_spread<F: Field>(
    plan: &Plan,
    bytes: usize,
    slices: &[u8],
    cabinet: usize,
    issue: u16,
    out: &mut [u8],
) -> Result<usize, SliceFault>
    ensures answers { result ≡ cut_answer (coding_of F.Field plan.now) plan.now.n bytes cabinet issue (length out.old) }
    ensures fills { out.new ≡ leaves result out.old (over (record_from (coding_of F.Field plan.now) bytes slices.now cabinet issue) out.old) }
{
    // where no package has that length, cut_from refuses
    let stride = record_length::<F>(plan, bytes).map_or(0, |whole| whole - HEAD_LENGTH);
    let own = Sources {
        positions: &OWN,
        slices,
        stride,
    };
    cut_from::<F>(plan, bytes, &own, cabinet, issue, out)
}

// Cuts the record of a cabinet from a package, into the front of the output, and answers the record's length. The rest of
// the output stays as it was, and all of it on a refusal: no package has that length, no such cabinet is fitted, the issue
// is 0, or the output is too short, in that order.
pub fn cut<F: Field>(
    plan: &Plan,
    package: &[u8],
    cabinet: usize,
    issue: u16,
    out: &mut [u8],
) -> Result<usize, SliceFault>
    ensures answers { result ≡ cut_answer (coding_of F.Field plan.now) plan.now.n (length «package».now) cabinet issue (length out.old) }
    ensures fills { out.new ≡ leaves result out.old (over (record_of (coding_of F.Field plan.now) «package».now cabinet issue) out.old) }
    ensures exact { OnOk result (IsRecord (coding_of F.Field plan.now) «package».now cabinet issue (record_of (coding_of F.Field plan.now) «package».now cabinet issue)) }
{
    let mut slices = [0u8; 6400];
    let _ = spread::<F>(plan, package, &mut slices);
    cut_spread::<F>(plan, package.len(), &slices, cabinet, issue, out)
}
