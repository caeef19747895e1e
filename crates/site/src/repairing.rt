// Records that cabinets lack, made anew from those of the others.
ghost use Rattle.std.specs.Prelude.{◌≡◌, ◌<◌, ◌≤◌, true, ◌&&◌, length, Some, None, Ok, is_none, nat_lt};
ghost use Rattle.base.specs.Answers.{leaves, pass};
ghost use Rattle.recovery.specs.Answers.{rebuild_answer};
ghost use Rattle.recovery.specs.Formula.{rebuilt};
ghost use Rattle.rows.specs.Model.{Held, with_slot};
ghost use Rattle.site.specs.declared.fault.SiteCause.TheVariants.{Slice};
ghost use Rattle.standing.specs.Sets.{members};
ghost use Rattle.memory.specs.Lent.{Wiped, is_short};
ghost use Rattle.site.specs.Calls.{repair_after, repair_answer};
ghost use Rattle.site.specs.Faults.{named};
ghost use Rattle.site.specs.Model.{record_bytes, with_slots};
ghost use Rattle.site.specs.Steps.{lacks, rebuild_for, rewrites};
ghost use Rattle.erasure.specs.Whole.{coding_of};
ghost use Rattle.site.specs.Whole.{model_of};

use crate::fault::{SiteCause, SiteFault};
use crate::site::{Site, told};
use algebra::Field;
use aont::length_of_package;
use cipher::Cipher;
use erasure::{Head, Plan};
use memory::{Buffers, LEAST, Work, wipe_all};
use recovery::rebuild;
use rows::row::{ReadRow, Row};
use standing::{cause_at, in_reach};

// Whether a cabinet is to get the record that is due: it is in reach and does not stand, and the row takes the record.
pub(crate) fn lacks<R: ReadRow>(row: &R, cabinet: usize, file: usize, due: Head) -> bool
    ensures { result ≡ lacks (R.ReadRow.model row.now) due file cabinet }
{
    in_reach(row, cabinet)
        && cause_at(row, cabinet, file, due).is_some()
        && usize::from(due.whole) <= row.room()
}

// What a record is rebuilt from: the records of k cabinets, end to end, and the bytes of their package.
#[derive(Clone, Copy)]
pub(crate) struct Source<'a> {
    pub(crate) plan: &'a Plan,
    pub(crate) bytes: usize,
    pub(crate) positions: &'a [u8],
    pub(crate) records: &'a [u8],
}

// Rebuilds a cabinet's record from those of others, and writes it to the cabinet. Refuses as `rebuild` does.
pub(crate) fn rewrite<R: Row, F: Field>(
    row: &mut R,
    source: &Source<'_>,
    cabinet: usize,
    file: usize,
    out: &mut [u8],
) -> Result<(), SiteCause>
    requires there { file < 8 }
    requires near { (R.ReadRow.model row.old).reach cabinet ≡ true }
    requires due { length out.old ≡ record_bytes (coding_of F.Field source.now.plan.now) source.now.bytes }
    requires room { length out.old ≤ (R.ReadRow.model row.old).room }
    ensures answers { result ≡ pass Slice (rebuild_answer (coding_of F.Field source.now.plan.now) source.now.plan.now.n source.now.bytes source.now.positions.now source.now.records.now cabinet (length out.old)) (λ _. Ok tt) }
    ensures becomes { R.ReadRow.model row.new ≡ leaves result (R.ReadRow.model row.old) (with_slot (R.ReadRow.model row.old) cabinet file (Held (rebuilt (coding_of F.Field source.now.plan.now) source.now.bytes source.now.positions.now source.now.records.now cabinet))) }
{
    rebuild::<F>(
        source.plan,
        source.bytes,
        source.positions,
        source.records,
        cabinet,
        out,
    )?;
    let _ = row.write(cabinet, file, out);
    Ok(())
}

// Rewrites the record of each fitted cabinet that lacks it, and answers how many these were. Refuses at the first, or not at all.
fn rewrite_lacking<R: Row, F: Field>(
    row: &mut R,
    source: &Source<'_>,
    file: usize,
    due: Head,
    spread: &mut [u8; LEAST],
) -> Result<usize, SiteCause>
    requires there { file < 8 }
    requires due { due.whole ≡ record_bytes (coding_of F.Field source.now.plan.now) source.now.bytes }
    ensures answers { result ≡ rewrites (rebuild_for (coding_of F.Field source.now.plan.now) source.now.plan.now.n source.now.bytes source.now.positions.now source.now.records.now due.whole) (members (lacks (R.ReadRow.model row.old) due file) source.now.plan.now.n) }
    ensures becomes { R.ReadRow.model row.new ≡ leaves result (R.ReadRow.model row.old) (with_slots (R.ReadRow.model row.old) (λ c. nat_lt c source.now.plan.now.n && lacks (R.ReadRow.model row.old) due file c) file (λ c. Held (rebuilt (coding_of F.Field source.now.plan.now) source.now.bytes source.now.positions.now source.now.records.now c))) }
{
    let whole = usize::from(due.whole);
    let mut count = 0;
    for c in 0..source.plan.fitted() {
        if lacks(row, c, file, due) {
            rewrite::<R, F>(row, source, c, file, &mut spread[0..whole])?;
            count += 1;
        }
    }
    Ok(count)
}

impl<R: Row, C: Cipher, F: Field> Site<R, C, F> {
    fn repair_in(
        &mut self,
        file: usize,
        mut buffers: Option<Buffers<'_>>,
    ) -> Result<usize, SiteCause>
        ensures answers { result ≡ repair_answer (model_of R.ReadRow F.Field C.Cipher self.old) file (is_none buffers.entry) }
        ensures becomes { let model = model_of R.ReadRow F.Field C.Cipher in model self.new ≡ leaves result (model self.old) (repair_after (model self.old) file) }
    {
        let last = self.current(file)?;
        let buffers = buffers.as_mut().ok_or(SiteCause::MemoryShort)?;
        let lowest = self.collect(file, last, buffers.records)?;
        let due = self.due(last);
        let plan = self.plan;
        let k = plan.needed();
        let source = Source {
            plan: &plan,
            bytes: length_of_package(last.size),
            positions: lowest.positions(),
            records: &buffers.records[0..k * usize::from(due.whole)],
        };
        rewrite_lacking::<R, F>(&mut self.row, &source, file, due, buffers.spread)
    }

    // Rebuilds the records of a file that cabinets in reach lack, each from those of the k lowest cabinets that stand, and answers
    // how many it wrote. Refuses a file that is not there or not current, working memory that is too short, fewer than k cabinets
    // that stand, and records of which one has no code; then nothing is written. The working memory is zero afterwards.
    pub fn repair(&mut self, file: usize, work: Work<'_>) -> Result<usize, SiteFault>
        ensures answers { result ≡ named None (Some file) (repair_answer (model_of R.ReadRow F.Field C.Cipher self.old) file (is_short work.entry)) }
        ensures becomes { let model = model_of R.ReadRow F.Field C.Cipher in model self.new ≡ leaves result (model self.old) (repair_after (model self.old) file) }
        ensures wiped { Wiped work.entry work.exit }
    {
        let Work {
            sealed,
            spread,
            records,
            opened,
        } = work;
        let answer = self.repair_in(file, Buffers::of(sealed, spread, records, opened));
        wipe_all(sealed, spread, records, opened);
        told(answer, None, Some(file))
    }
}
