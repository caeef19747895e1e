// A package from its slices: whether they are a package's, and its bytes.
ghost use Rattle.std.specs.Prelude.{◌≡◌, ◌+◌, ◌*◌, ◌/◌, ◌^◌, ◌<◌, ◌≤◌, length, if◌then◌else◌, nat_lt};
ghost use Rattle.base.specs.Bytes.{over};
ghost use Rattle.base.specs.Tests.{every};
ghost use Rattle.algebra.specs.Slices.{stored_at};
ghost use Rattle.erasure.specs.Records.{columns};
ghost use Rattle.erasure.specs.Whole.{coding_of};
ghost use Rattle.recovery.specs.Gathered.{slices_whole, gathered};

use crate::checking::Checked;
use algebra::Field;
use base::{le_at, put_le};

// The least number that is no symbol of a package: past its end only 0 is one.
fn symbol_limit<F: Field>(within: bool) -> u32
    ensures { result ≡ (if within then 256 ^ F.width else 1) }
{
    if within {
        1 << (8 * F::data_width())
    } else {
        1
    }
}

impl<F: Field> Checked<'_, F> {
    // Whether these are numbers of slice i of the package: its symbols, and past the package's end zeros.
    fn slice_fits(&self, slice: &[u8], i: usize) -> bool
        ensures { result ≡ every (length slice.now / F.stored) (λ j. nat_lt (stored_at F.stored slice.now (j * F.stored)) (if nat_lt (j * self.now.plan.now.k + i) (self.now.bytes / F.width) then 256 ^ F.width else 1)) }
    {
        let symbols = self.bytes / F::data_width();
        let own = symbols.saturating_sub(i).div_ceil(self.plan.needed());
        let stored = F::stored_width();
        slice.chunks_exact(stored).enumerate().all(|(j, code)| le_at(code, 0, stored)
            < symbol_limit::<F>(j < own))
    }

    // Whether the slices are those of the package.
    pub(crate) fn slices_fit(&self, slices: &[u8]) -> bool
        requires { length slices.now ≡ 6400 }
        ensures { result ≡ slices_whole (coding_of F.Field self.now.plan.now) (self.now.bytes / F.width) (columns (coding_of F.Field self.now.plan.now) self.now.bytes) (columns (coding_of F.Field self.now.plan.now) self.now.bytes * F.stored) slices.now }
    {
        let size = self.slice_length();
        slices[..self.plan.needed() * size]
            .chunks_exact(size)
            .enumerate()
            .all(|(i, slice)| self.slice_fits(slice, i))
    }

    // Writes the package whose slices these are, as much of it as the output has room for.
    pub(crate) fn gather(&self, slices: &[u8], out: &mut [u8])
        requires { length out.old ≤ self.now.bytes }
        ensures { out.new ≡ over (gathered (coding_of F.Field self.now.plan.now) (columns (coding_of F.Field self.now.plan.now) self.now.bytes * F.stored) slices.now (length out.old / F.width)) out.old }
    {
        let k = self.plan.needed();
        let width = F::data_width();
        let stored = F::stored_width();
        let size = self.slice_length();
        // by places: after a loop over chunks_exact_mut a proof knows nothing of what stands in the chunks
        for j in 0..self.count {
            for i in 0..k {
                // a symbol past the end of the output is not written
                put_le(
                    out,
                    (j * k + i) * width,
                    width,
                    le_at(slices, i * size + j * stored, stored),
                );
            }
        }
    }
}
