// Getting a file.
ghost use Rattle.std.specs.Prelude.{◌≡◌, ◌<◌, length, take, IfOk, Some, None, OnOk, is_none};
ghost use Rattle.base.specs.Answers.{leaves};
ghost use Rattle.base.specs.Bytes.{over};
ghost use Rattle.memory.specs.Lent.{Wiped, is_short};
ghost use Rattle.aont.specs.Seals.{unseal_answer, unsealed};
ghost use Rattle.recovery.specs.Answers.{join_answer};
ghost use Rattle.recovery.specs.Formula.{package_from};
ghost use Rattle.site.specs.Model.{kept};
ghost use Rattle.site.specs.Calls.{get_answer, got_file};
ghost use Rattle.site.specs.Faults.{named};
ghost use Rattle.site.specs.Steps.{opened_answer, restored_answer, sized_answer};
ghost use Rattle.erasure.specs.Whole.{coding_of};
ghost use Rattle.site.specs.Whole.{model_of};

use crate::fault::{SiteCause, SiteFault};
use crate::files::Kept;
use crate::site::{Site, told};
use algebra::Field;
use aont::{SealFault, length_of_package, unseal};
use cipher::Cipher;
use erasure::{Plan, SliceFault};
use memory::{Buffers, Work, wipe_all};
use recovery::join;
use rows::row::Row;

// Joins a package from records, over the whole of a buffer of just its length. It takes no Source, which would say that length again.
fn join_over<F: Field>(
    plan: &Plan,
    positions: &[u8],
    records: &[u8],
    sealed: &mut [u8],
) -> Result<usize, SliceFault>
    ensures answers { result ≡ join_answer (coding_of F.Field plan.now) plan.now.n (length sealed.old) positions.now records.now (length sealed.old) }
    ensures fills { OnOk result (sealed.new ≡ package_from (coding_of F.Field plan.now) (length sealed.old) positions.now records.now) }
{
    join::<F>(plan, sealed.len(), positions, records, sealed)
}

// Unseals a file of so many bytes into the front of a buffer; a file of another length is none.
fn unseal_sized<C: Cipher>(sealed: &[u8], size: u16, opened: &mut [u8]) -> Result<usize, SiteCause>
    ensures answers { result ≡ sized_answer (unseal_answer C.Cipher.encrypted C.Cipher.number sealed.now (length opened.old)) size }
    ensures opens { OnOk result (opened.new ≡ over (unsealed C.Cipher.encrypted C.Cipher.number sealed.now) opened.old) }
{
    let length = unseal::<C>(sealed, opened)?;
    if length != usize::from(size) {
        return Err(SiteCause::Seal(SealFault::NoSuchFile));
    }
    Ok(length)
}

// Joins a package of just the one buffer's length from records, and unseals a file of so many bytes into the front of the other.
fn open<C: Cipher, F: Field>(
    plan: &Plan,
    positions: &[u8],
    records: &[u8],
    size: u16,
    sealed: &mut [u8],
    opened: &mut [u8],
) -> Result<usize, SiteCause>
    ensures answers { result ≡ opened_answer (coding_of F.Field plan.now) plan.now.n C.Cipher.encrypted C.Cipher.number (length sealed.old) positions.now records.now (length opened.old) size }
    ensures opens { OnOk result (opened.new ≡ over (unsealed C.Cipher.encrypted C.Cipher.number (package_from (coding_of F.Field plan.now) (length sealed.old) positions.now records.now)) opened.old) }
{
    join_over::<F>(plan, positions, records, sealed)?;
    unseal_sized::<C>(sealed, size, opened)
}

impl<R: Row, C: Cipher, F: Field> Site<R, C, F> {
    // Restores a file, of which this is kept, into the front of its buffer.
    fn restore(
        &self,
        file: usize,
        last: Kept,
        buffers: &mut Buffers<'_>,
    ) -> Result<usize, SiteCause>
        requires there { file < 8 }
        requires same { last ≡ kept (model_of R.ReadRow F.Field C.Cipher self.now) file }
        ensures answers { result ≡ restored_answer (model_of R.ReadRow F.Field C.Cipher self.now) file }
        ensures restores { let model = model_of R.ReadRow F.Field C.Cipher in IfOk result (λ n. (n ≡ length (got_file (model self.now) file)) × (take n buffers.new.opened.now ≡ got_file (model self.now) file)) }
    {
        let lowest = self.collect(file, last, buffers.records)?;
        let k = self.plan.needed();
        let whole = usize::from(self.due(last).whole);
        let bytes = length_of_package(last.size);
        let records = &*buffers.records;
        let sealed = &mut *buffers.sealed;
        let opened = &mut *buffers.opened;
        open::<C, F>(
            &self.plan,
            lowest.positions(),
            &records[0..k * whole],
            last.size,
            &mut sealed[0..bytes],
            &mut opened[0..4092],
        )
    }

    fn get_in(
        &self,
        file: usize,
        out: &mut [u8],
        buffers: Option<&mut Buffers<'_>>,
    ) -> Result<usize, SiteCause>
        ensures answers { result ≡ get_answer (model_of R.ReadRow F.Field C.Cipher self.now) file (length out.old) (is_none buffers.entry) }
        ensures fills { out.new ≡ leaves result out.old (over (got_file (model_of R.ReadRow F.Field C.Cipher self.now) file) out.old) }
    {
        let last = self.current(file)?;
        let Some(buffers) = buffers else {
            return Err(SiteCause::MemoryShort);
        };
        if out.len() < usize::from(last.size) {
            return Err(SiteCause::OutputShort);
        }
        let size = self.restore(file, last, buffers)?;
        let opened = &*buffers.opened;
        out[0..size].copy_from_slice(&opened[0..size]);
        Ok(size)
    }

    // Gets a file into the front of the output, and answers its length. The rest of the output stays as it was, and all of it on a
    // refusal: there is no such file, it is not current, the working memory or the output is too short, too few cabinets stand for
    // it, their records are those of no package, or the package is that of no file of that length, in that order. The working
    // memory is zero afterwards.
    pub fn get(&self, file: usize, out: &mut [u8], work: Work<'_>) -> Result<usize, SiteFault>
        ensures answers { result ≡ named None (Some file) (get_answer (model_of R.ReadRow F.Field C.Cipher self.now) file (length out.old) (is_short work.entry)) }
        ensures fills { out.new ≡ leaves result out.old (over (got_file (model_of R.ReadRow F.Field C.Cipher self.now) file) out.old) }
        ensures wiped { Wiped work.entry work.exit }
    {
        let Work {
            sealed,
            spread,
            records,
            opened,
        } = work;
        let mut buffers = Buffers::of(sealed, spread, records, opened);
        let answer = self.get_in(file, out, buffers.as_mut());
        wipe_all(sealed, spread, records, opened);
        told(answer, None, Some(file))
    }
}
