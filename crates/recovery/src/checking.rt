// The checks of records that are to be joined.
ghost use Rattle.std.specs.Prelude.{◌≡◌, ℕ, ◌+◌, ◌-◌, ◌*◌, ◌/◌, ◌<◌, ◌≤◌, true, false, not, ◌&&◌, length, drop, IfOk, Result, ◌==◌, nat_lt};
ghost use Rattle.base.specs.Answers.{pass};
ghost use Rattle.base.specs.Sizes.{misfit};
ghost use Rattle.base.specs.Tests.{every};
ghost use Rattle.algebra.specs.Polynomials.{at};
ghost use Rattle.algebra.specs.Slices.{stored_at};
ghost use Rattle.erasure.specs.declared.fault.SliceFault.{SliceFault};
ghost use Rattle.erasure.specs.Records.{columns, record_length};
ghost use Rattle.erasure.specs.Whole.{coding_of};
ghost use Rattle.recovery.specs.Answers.{given_records, positions_fit, records_fit, codes_fit};

use algebra::Field;
use base::le_at;
use erasure::head::HEAD_LENGTH;
use erasure::{Head, Plan, SliceCause, SliceFault, Sources, record_length, refused};
use std::marker::PhantomData;

fn all_positions_fit(n: usize, positions: &[u8]) -> bool
    ensures { result ≡ every (length positions.now) (λ i. nat_lt (at positions.now i) n && every i (λ j. not ((at positions.now i) == (at positions.now j)))) }
{
    positions.iter().enumerate().all(|(i, position)| usize::from(*position) < n
        && !positions[..i].contains(position))
}

// Whether there are k differing positions, all below n.
fn positions_fit(plan: &Plan, positions: &[u8]) -> bool
    ensures { result ≡ positions_fit plan.now.k plan.now.n positions.now }
{
    positions.len() == plan.needed() && all_positions_fit(plan.fitted(), positions)
}

// Whether there are k records end to end, of the due length and number and of one issue, not 0.
fn records_fit<F: Field>(plan: &Plan, bytes: usize, whole: usize, records: &[u8]) -> bool
    requires due { whole ≡ record_length (coding_of F.Field plan.now) bytes }
    requires small { whole ≤ 6406 }
    ensures { result ≡ records_fit (coding_of F.Field plan.now) bytes records.now }
{
    let due = Head {
        whole: whole as u16,
        number: F::field_number(),
        issue: Head::read(records).issue,
    };
    records.len() == plan.needed() * whole
        && due.issue != 0
        && records
            .chunks_exact(whole)
            .all(|record| Head::read(record) == due)
}

// Whether each number that a record holds behind its head is a code.
fn record_codes_fit<F: Field>(record: &[u8]) -> bool
    requires { 6 ≤ length «record».now }
    ensures { result ≡ every ((length «record».now - 6) / F.stored) (λ j. nat_lt (stored_at F.stored «record».now (6 + j * F.stored)) F.ops.size) }
{
    let width = F::stored_width();
    record[HEAD_LENGTH..]
        .chunks_exact(width)
        .all(|code| le_at(code, 0, width) < F::size())
}

// k positions and as many records, one for each, that belong together: of a package of so many bytes, which has `count` columns.
#[derive(Drop)]
pub(crate) struct Checked<'a, F: Field> {
    pub(crate) plan: &'a Plan,
    pub(crate) bytes: usize,
    pub(crate) count: usize,
    pub(crate) positions: &'a [u8],
    pub(crate) records: &'a [u8],
    field: PhantomData<F>,
    ghost counted: { count ≡ columns (coding_of F.Field plan.now) bytes },
    ghost sized: { misfit bytes ≡ false },
    ghost placed: { positions_fit plan.now.k plan.now.n positions.now ≡ true },
    ghost headed: { records_fit (coding_of F.Field plan.now) bytes records.now ≡ true },
}

impl<'a, F: Field> Checked<'a, F> {
    // Checks a package's length, positions and records that are given together.
    pub(crate) fn check(
        plan: &'a Plan,
        bytes: usize,
        positions: &'a [u8],
        records: &'a [u8],
        named: Option<usize>,
    ) -> Result<Checked<'a, F>, SliceFault>
        ensures answers { (next : Result ℕ SliceFault) → given_records (coding_of F.Field plan.now) plan.now.n bytes positions.now records.now named next ≡ pass (λ e. e) result (λ _. next) }
        ensures same { IfOk result (λ c. (c.plan.now ≡ plan.now) × (c.bytes ≡ bytes) × (c.positions.now ≡ positions.now) × (c.records.now ≡ records.now)) }
    {
        let Some(whole) = record_length::<F>(plan, bytes) else {
            return refused(SliceCause::PackageMisfit, named);
        };
        if !(positions_fit(plan, positions) && records_fit::<F>(plan, bytes, whole, records)) {
            return refused(SliceCause::RecordsMisfit, named);
        }
        Ok(Checked {
            plan,
            bytes,
            count: (whole - HEAD_LENGTH) / F::stored_width(),
            positions,
            records,
            field: PhantomData,
        })
    }

    // How long each slice of the package is.
    pub(crate) fn slice_length(&self) -> usize
        ensures value { result ≡ columns (coding_of F.Field self.now.plan.now) self.now.bytes * F.stored }
        ensures some { 0 < result }
        ensures few { self.now.count ≤ result }
        ensures one { result ≤ 6400 }
        ensures all { self.now.plan.now.k * result ≤ 6400 }
    {
        self.count * F::stored_width()
    }

    // The symbols that the records hold behind their heads.
    pub(crate) fn sources(&self) -> Sources<'a>
        ensures positions { result.positions.now ≡ self.now.positions.now }
        ensures slices { result.slices.now ≡ drop 6 self.now.records.now }
        ensures stride { result.stride ≡ record_length (coding_of F.Field self.now.plan.now) self.now.bytes }
    {
        Sources {
            positions: self.positions,
            slices: &self.records[HEAD_LENGTH..],
            stride: HEAD_LENGTH + self.slice_length(),
        }
    }

    // Whether each number of all records is a code.
    pub(crate) fn codes_fit(&self) -> bool
        ensures { result ≡ codes_fit (coding_of F.Field self.now.plan.now) self.now.bytes self.now.records.now }
    {
        self.records
            .chunks_exact(HEAD_LENGTH + self.slice_length())
            .all(|record| record_codes_fit::<F>(record))
    }
}
