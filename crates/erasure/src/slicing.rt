// A package's own slices.
ghost use Rattle.std.specs.Prelude.{◌≡◌, ◌*◌, ◌/◌, ◌<◌, ◌≤◌, length};
ghost use Rattle.base.specs.Bytes.{over};
ghost use Rattle.base.specs.Answers.{leaves};
ghost use Rattle.erasure.specs.Records.{columns};
ghost use Rattle.erasure.specs.Formula.{slice_of, spread};
ghost use Rattle.erasure.specs.Slices.{spread_answer};
ghost use Rattle.erasure.specs.Whole.{coding_of};

use crate::fault::{SliceCause, SliceFault, refused};
use crate::lengths::column_count;
use crate::plan::Plan;
use algebra::Field;
use base::{is_misfit, le_at, put_le};

// One slice of a package: the symbol i of each column, as many columns as the output has room for.
fn spread_slice<F: Field>(plan: &Plan, package: &[u8], i: usize, out: &mut [u8])
    requires { (i < 16) × (length out.old ≤ 6400) }
    ensures { out.new ≡ over (slice_of (coding_of F.Field plan.now) «package».now (length out.old / F.stored) i) out.old }
{
    let k = plan.needed();
    let width = F::data_width();
    let stored = F::stored_width();
    // by places: after a loop over chunks_exact_mut a proof knows nothing of what stands in the chunks
    for j in 0..out.len() / stored {
        put_le(
            out,
            j * stored,
            stored,
            le_at(package, (j * k + i) * width, width),
        );
    }
}

fn spread_slices<F: Field>(plan: &Plan, package: &[u8], size: usize, slices: &mut [u8])
    requires small { size ≤ 6400 }
    requires room { plan.now.k * size ≤ length slices.old }
    requires whole { size ≡ columns (coding_of F.Field plan.now) (length «package».now) * F.stored }
    ensures { slices.new ≡ over (spread (coding_of F.Field plan.now) «package».now) slices.old }
{
    // by places, as above
    for i in 0..plan.needed() {
        spread_slice::<F>(plan, package, i, &mut slices[i * size..(i + 1) * size]);
    }
}

// Lays the slices of a package out in the front of working memory, one after the other, and answers how many bytes they
// take; the records of all cabinets can then be cut from them. The rest of the memory stays as it was, and all of it on
// a refusal: no package has that length, or the memory is too short.
pub fn spread<F: Field>(plan: &Plan, package: &[u8], slices: &mut [u8]) -> Result<usize, SliceFault>
    ensures answers { result ≡ spread_answer (coding_of F.Field plan.now) (length «package».now) (length slices.old) }
    ensures fills { slices.new ≡ leaves result slices.old (over (spread (coding_of F.Field plan.now) «package».now) slices.old) }
{
    if is_misfit(package.len()) {
        return refused(SliceCause::PackageMisfit, None);
    }
    let size = column_count::<F>(plan, package.len()) * F::stored_width();
    let all = plan.needed() * size;
    if slices.len() < all {
        return refused(SliceCause::OutputShort, None);
    }
    spread_slices::<F>(plan, package, size, slices);
    Ok(all)
}
