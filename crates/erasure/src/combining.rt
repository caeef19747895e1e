// Records from slices of the symbols at any k positions. A package's own slices are those at the positions 0 to k - 1.
ghost use Rattle.std.specs.Prelude.{◌≡◌, ◌-◌, ◌/◌, ◌<◌, ◌≤◌, ◌++◌, map, length, take, drop};
ghost use Rattle.std.specs.List.{range_with_len};
ghost use Rattle.base.specs.Bytes.{over};
ghost use Rattle.base.specs.Answers.{leaves};
ghost use Rattle.algebra.specs.Polynomials.{at};
ghost use Rattle.algebra.specs.Slices.{combined};
ghost use Rattle.erasure.specs.Records.{head};
ghost use Rattle.erasure.specs.Formula.{point_weights, combined_record};
ghost use Rattle.erasure.specs.Slices.{cut_answer};
ghost use Rattle.erasure.specs.Whole.{coding_of};

use crate::fault::{SliceCause, SliceFault, refused};
use crate::head::{HEAD_LENGTH, Head};
use crate::lengths::record_length;
use crate::plan::Plan;
use algebra::{Field, WeightedSum, weights};
use base::byte_at;
use std::array;

// Slices of the symbols at k positions.
#[derive(Clone, Copy)]
pub struct Sources<'a> {
    // one that is not given counts as 0
    pub positions: &'a [u8],
    // a byte past their end counts as 0
    pub slices: &'a [u8],
    // slice i begins at i times the stride
    pub stride: usize,
}

// The positions as points; one that is not given counts as 0.
fn points_of(positions: &[u8]) -> [u32; 16]
    ensures { result ≡ map (at positions.now) (range_with_len 0 16) }
{
    array::from_fn(|i| u32::from(byte_at(positions, i)))
}

impl Sources<'_> {
    // What each of the first k positions weighs in the value at x.
    fn weights_at<F: Field>(&self, plan: &Plan, x: u32) -> [u32; 16]
        ensures { take plan.now.k result ≡ point_weights (coding_of F.Field plan.now) (at self.now.positions.now) x }
    {
        let k = plan.needed();
        let points = points_of(self.positions);
        let mut all = [0; 16];
        weights::<F>(&points[..k], x, &mut all[..k]);
        all
    }

    // Writes the symbols at code x over the output, as many as it has room for.
    pub fn symbols_at<F: Field>(&self, plan: &Plan, x: u32, out: &mut [u8])
        ensures { out.new ≡ over (combined F.ops F.stored (point_weights (coding_of F.Field plan.now) (at self.now.positions.now) x) self.now.slices.now self.now.stride (length out.old / F.stored)) out.old }
    {
        let all = self.weights_at::<F>(plan, x);
        let sum = WeightedSum {
            weights: &all[..plan.needed()],
            sources: self.slices,
            stride: self.stride,
        };
        F::combine(&sum, out);
    }

    // Writes the record of a cabinet into an output of just its length.
    fn write_record<F: Field>(&self, plan: &Plan, cabinet: usize, issue: u16, out: &mut [u8])
        requires fitted { cabinet < 16 }
        requires headed { 6 ≤ length out.old }
        requires small { length out.old < 65536 }
        ensures { out.new ≡ head (length out.old) F.number issue ++ over (combined F.ops F.stored (point_weights (coding_of F.Field plan.now) (at self.now.positions.now) cabinet) self.now.slices.now self.now.stride ((length out.old - 6) / F.stored)) (drop 6 out.old) }
    {
        let head = Head {
            whole: out.len() as u16,
            number: F::field_number(),
            issue,
        };
        out[..HEAD_LENGTH].copy_from_slice(&head.to_bytes());
        self.symbols_at::<F>(plan, cabinet as u32, &mut out[HEAD_LENGTH..]);
    }
}

// Cuts the record of a cabinet from slices of the symbols at k positions, where the package has so many bytes. It goes into the
// front of the output, and its length is answered. The rest of the output stays as it was, and all of it on a refusal: no package
// has that length, no such cabinet is fitted, the issue is 0, or the output is too short, in that order.
pub fn cut_from<F: Field>(
    plan: &Plan,
    bytes: usize,
    sources: &Sources,
    cabinet: usize,
    issue: u16,
    out: &mut [u8],
) -> Result<usize, SliceFault>
    ensures answers { result ≡ cut_answer (coding_of F.Field plan.now) plan.now.n bytes cabinet issue (length out.old) }
    ensures fills { out.new ≡ leaves result out.old (over (combined_record (coding_of F.Field plan.now) bytes (at sources.now.positions.now) sources.now.slices.now sources.now.stride cabinet issue) out.old) }
{
    let named = Some(cabinet);
    let Some(whole) = record_length::<F>(plan, bytes) else {
        return refused(SliceCause::PackageMisfit, named);
    };
    if cabinet >= plan.fitted() {
        return refused(SliceCause::NoCabinet, named);
    }
    if issue == 0 {
        return refused(SliceCause::IssueZero, named);
    }
    if out.len() < whole {
        return refused(SliceCause::OutputShort, named);
    }
    sources.write_record::<F>(plan, cabinet, issue, &mut out[..whole]);
    Ok(whole)
}
