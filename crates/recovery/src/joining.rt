ghost use Rattle.std.specs.Prelude.{◌≡◌, length, drop};
ghost use Rattle.base.specs.Answers.{leaves};
ghost use Rattle.base.specs.Bytes.{over};
ghost use Rattle.erasure.specs.Records.{columns, record_length};
ghost use Rattle.erasure.specs.Whole.{coding_of};
ghost use Rattle.recovery.specs.Formula.{package_from, rebuilt, recovered};
ghost use Rattle.recovery.specs.Answers.{join_rest, join_answer, rebuild_rest, rebuild_answer};
ghost use Rattle.recovery.specs.Joins.{Joins, Rebuilds};

use crate::checking::Checked;
use algebra::Field;
use erasure::{Head, Plan, SliceCause, SliceFault, cut_from, refused};

impl<F: Field> Checked<'_, F> {
    // Rebuilds the record of a cabinet.
    fn rebuild(&self, cabinet: usize, out: &mut [u8]) -> Result<usize, SliceFault>
        ensures answers { result ≡ rebuild_rest (coding_of F.Field self.now.plan.now) self.now.plan.now.n self.now.bytes self.now.records.now cabinet (length out.old) }
        ensures fills { out.new ≡ leaves result out.old (over (rebuilt (coding_of F.Field self.now.plan.now) self.now.bytes self.now.positions.now self.now.records.now cabinet) out.old) }
    {
        let named = Some(cabinet);
        if cabinet >= self.plan.fitted() {
            return refused(SliceCause::NoCabinet, named);
        }
        if !self.codes_fit() {
            return refused(SliceCause::SymbolMisfit, named);
        }
        let issue = Head::read(self.records).issue;
        let sources = self.sources();
        cut_from::<F>(self.plan, self.bytes, &sources, cabinet, issue, out)
    }

    // Writes the slices of the package, one after the other, into a buffer that is lent, since an array that is returned would take
    // the stack of its copies.
    fn slices(&self, slices: &mut [u8; 6400])
        ensures { slices.new ≡ over (recovered (coding_of F.Field self.now.plan.now) self.now.positions.now (drop 6 self.now.records.now) (record_length (coding_of F.Field self.now.plan.now) self.now.bytes) (columns (coding_of F.Field self.now.plan.now) self.now.bytes)) slices.old }
    {
        let size = self.slice_length();
        let sources = self.sources();
        // by places: after a loop over chunks_exact_mut a proof knows nothing of what stands in the chunks
        for i in 0..self.plan.needed() {
            sources.symbols_at::<F>(self.plan, i as u32, &mut slices[i * size..(i + 1) * size]);
        }
    }

    // Joins the package.
    fn join(&self, out: &mut [u8]) -> Result<usize, SliceFault>
        ensures answers { result ≡ join_rest (coding_of F.Field self.now.plan.now) self.now.bytes self.now.positions.now self.now.records.now (length out.old) }
        ensures fills { out.new ≡ leaves result out.old (over (package_from (coding_of F.Field self.now.plan.now) self.now.bytes self.now.positions.now self.now.records.now) out.old) }
    {
        if !self.codes_fit() {
            return refused(SliceCause::SymbolMisfit, None);
        }
        let mut slices = [0u8; 6400];
        self.slices(&mut slices);
        if !self.slices_fit(&slices) {
            return refused(SliceCause::SymbolMisfit, None);
        }
        if out.len() < self.bytes {
            return refused(SliceCause::OutputShort, None);
        }
        self.gather(&slices, &mut out[..self.bytes]);
        Ok(self.bytes)
    }
}

// Rebuilds the record of a cabinet from k records end to end, those of the cabinets at the positions, of a package of so many
// bytes. It goes into the front of the output, and its length is answered; the rest of the output stays as it was, and all of it
// on a refusal: no package has that length, there are not k differing positions of fitted cabinets and k records of the due
// length and number and of one issue, no such cabinet is fitted, a stored number is no code, or the output is too short, in that
// order.
pub fn rebuild<F: Field>(
    plan: &Plan,
    bytes: usize,
    positions: &[u8],
    records: &[u8],
    cabinet: usize,
    out: &mut [u8],
) -> Result<usize, SliceFault>
    ensures answers { result ≡ rebuild_answer (coding_of F.Field plan.now) plan.now.n bytes positions.now records.now cabinet (length out.old) }
    ensures fills { out.new ≡ leaves result out.old (over (rebuilt (coding_of F.Field plan.now) bytes positions.now records.now cabinet) out.old) }
    ensures exact { Rebuilds (coding_of F.Field plan.now) plan.now.n bytes positions.now records.now cabinet }
{
    let checked = Checked::<F>::check(plan, bytes, positions, records, Some(cabinet))?;
    checked.rebuild(cabinet, out)
}

// Joins a package of so many bytes from k records end to end, those of the cabinets at the positions. It goes into the front of
// the output, and its length is answered; the rest of the output stays as it was, and all of it on a refusal: no package has that
// length, there are not k differing positions of fitted cabinets and k records of the due length and number and of one issue,
// the records are those of no package, or the output is too short, in that order.
pub fn join<F: Field>(
    plan: &Plan,
    bytes: usize,
    positions: &[u8],
    records: &[u8],
    out: &mut [u8],
) -> Result<usize, SliceFault>
    ensures answers { result ≡ join_answer (coding_of F.Field plan.now) plan.now.n bytes positions.now records.now (length out.old) }
    ensures fills { out.new ≡ leaves result out.old (over (package_from (coding_of F.Field plan.now) bytes positions.now records.now) out.old) }
    ensures exact { Joins (coding_of F.Field plan.now) plan.now.n bytes positions.now records.now }
{
    let checked = Checked::<F>::check(plan, bytes, positions, records, None)?;
    checked.join(out)
}
