// Putting a file.
ghost use Rattle.std.specs.Prelude.{◌≡◌, ◌<◌, ◌≤◌, true, false, ◌&&◌, length, IfOk, Some, None, is_none, nat_lt};
ghost use Rattle.base.specs.Answers.{leaves};
ghost use Rattle.base.specs.Bytes.{Bytes, over};
ghost use Rattle.base.specs.Sizes.{misfit};
ghost use Rattle.memory.specs.Lent.{Wiped, is_short};
ghost use Rattle.aont.specs.Package.{package_length, sealed};
ghost use Rattle.aont.specs.Seals.{seal_answer};
ghost use Rattle.erasure.specs.Records.{record_length};
ghost use Rattle.erasure.specs.Formula.{record_from, record_of};
ghost use Rattle.rows.specs.Model.{Held, with_slot};
ghost use Rattle.site.specs.Calls.{put_after, put_answer};
ghost use Rattle.site.specs.Faults.{named};
ghost use Rattle.site.specs.Model.{code, with_slots};
ghost use Rattle.site.specs.Steps.{put_reached, put_sized};
ghost use Rattle.erasure.specs.Whole.{coding_of};
ghost use Rattle.site.specs.Whole.{model_of};

use crate::checks::check_file;
use crate::fault::{SiteCause, SiteFault};
use crate::files::Kept;
use crate::site::{Site, told};
use algebra::Field;
use aont::{SealFault, length_of_package, seal, sealed_length};
use cipher::Cipher;
use erasure::{Plan, cut_spread, record_length, spread};
use memory::{Buffers, LEAST, Work, wipe_all};
use rows::row::Row;
use standing::{Absent, away, in_reach, reached};

// What `sealed_length` answers, which is the length of a package.
fn package_size(key: &[u8], bytes: &[u8]) -> Result<usize, SealFault>
    ensures answers { result ≡ seal_answer (length bytes.now) (length key.now) (package_length (length bytes.now)) }
    ensures fits { IfOk result (λ size. misfit size ≡ false) }
{
    sealed_length(key, bytes)
}

// Writes the record of a cabinet in reach, cut from the slices of a package of so many bytes.
// Its parameters are those of cut_spread and of a row's write, and no struct: each is passed on as it is, once.
fn write_at<R: Row, F: Field>(
    row: &mut R,
    cabinet: usize,
    file: usize,
    plan: &Plan,
    size: usize,
    slices: &[u8],
    issue: u16,
    out: &mut [u8; LEAST],
)
    requires fitted { cabinet < plan.now.n }
    requires near { (R.ReadRow.model row.old).reach cabinet ≡ true }
    requires there { file < 8 }
    requires issued { 1 ≤ issue }
    requires fits { misfit size ≡ false }
    requires room { record_length (coding_of F.Field plan.now) size ≤ (R.ReadRow.model row.old).room }
    ensures { R.ReadRow.model row.new ≡ with_slot (R.ReadRow.model row.old) cabinet file (Held (record_from (coding_of F.Field plan.now) size slices.now cabinet issue)) }
{
    if let Ok(whole) = cut_spread::<F>(plan, size, slices, cabinet, issue, out) {
        let _ = row.write(cabinet, file, &out[0..whole]);
    }
}

// The same for each fitted cabinet that is in reach.
fn write_all<R: Row, F: Field>(
    row: &mut R,
    file: usize,
    plan: &Plan,
    size: usize,
    slices: &[u8],
    issue: u16,
    out: &mut [u8; LEAST],
)
    requires there { file < 8 }
    requires issued { 1 ≤ issue }
    requires fits { misfit size ≡ false }
    requires room { record_length (coding_of F.Field plan.now) size ≤ (R.ReadRow.model row.old).room }
    ensures { R.ReadRow.model row.new ≡ with_slots (R.ReadRow.model row.old) (λ c. nat_lt c plan.now.n && (R.ReadRow.model row.old).reach c) file (λ c. Held (record_from (coding_of F.Field plan.now) size slices.now c issue)) }
{
    for c in 0..plan.fitted() {
        if in_reach(row, c) {
            write_at::<R, F>(row, c, file, plan, size, slices, issue, out);
        }
    }
}

// Seals a file into the front of an output that has room for it.
fn seal_file<C: Cipher>(key: &[u8], bytes: &[u8], package: &mut [u8])
    requires few { length bytes.now ≤ 4092 }
    requires wide { length key.now ≡ 16 }
    requires room { 6400 ≤ length «package».old }
    ensures fills { «package».new ≡ over (sealed C.Cipher.encrypted C.Cipher.number key.now bytes.now) «package».old }
    ensures bytes { Bytes (sealed C.Cipher.encrypted C.Cipher.number key.now bytes.now) }
{
    let _ = seal::<C>(key, bytes, package);
}

// Seals a file and lays the slices of its package out, from which the record of each cabinet can be cut.
fn seal_and_spread<C: Cipher, F: Field>(
    plan: &Plan,
    key: &[u8],
    bytes: &[u8],
    package: &mut [u8; LEAST],
    slices: &mut [u8; LEAST],
)
    requires few { length bytes.now ≤ 4092 }
    requires wide { length key.now ≡ 16 }
    ensures { (c issue : _) → record_from (coding_of F.Field plan.now) (package_length (length bytes.now)) slices.new c issue ≡ record_of (coding_of F.Field plan.now) (sealed C.Cipher.encrypted C.Cipher.number key.now bytes.now) c issue }
{
    let size = length_of_package(bytes.len() as u16);
    seal_file::<C>(key, bytes, package);
    let _ = spread::<F>(plan, &package[0..size], slices);
}

impl<R: Row, C: Cipher, F: Field> Site<R, C, F> {
    // Whether a record of a package of so many bytes is longer than the room.
    fn lacks_room(&self, size: usize) -> bool
        requires { misfit size ≡ false }
        ensures { result ≡ nat_lt (R.ReadRow.model self.now.row).room (record_length (code (model_of R.ReadRow F.Field C.Cipher self.now)) size) }
    {
        record_length::<F>(&self.plan, size).is_some_and(|whole| self.row.room() < whole)
    }

    // The bytes of the package of a file that may be put, or the refusal.
    fn package_to_put(
        &self,
        file: usize,
        issue: u16,
        key: &[u8],
        bytes: &[u8],
    ) -> Result<usize, SiteCause>
        ensures answers { result ≡ put_sized (model_of R.ReadRow F.Field C.Cipher self.now) file issue (length key.now) (length bytes.now) }
        ensures fits { IfOk result (λ size. misfit size ≡ false) }
    {
        check_file(file)?;
        let last = self.files[file].last;
        if issue <= last {
            return Err(SiteCause::IssueOld(last));
        }
        Ok(package_size(key, bytes)?)
    }

    // How many cabinets would get a record of a package of so many bytes, or the refusal.
    fn cabinets_to_put(&self, size: usize) -> Result<usize, SiteCause>
        requires { misfit size ≡ false }
        ensures { result ≡ put_reached (model_of R.ReadRow F.Field C.Cipher self.now) size }
    {
        if self.lacks_room(size) {
            return Err(SiteCause::RoomShort);
        }
        let n = self.plan.fitted();
        let near = reached(&self.row, n);
        if near < self.plan.needed() {
            return Err(SiteCause::TooFew(Absent {
                away: away(&self.row, n),
                condemned: 0,
                empty: 0,
                old: 0,
            }));
        }
        Ok(near)
    }

    // Seals the file and writes the record of each fitted cabinet in reach.
    fn write_file(
        &mut self,
        file: usize,
        issue: u16,
        key: &[u8],
        bytes: &[u8],
        buffers: &mut Buffers<'_>,
    )
        requires there { file < 8 }
        requires issued { 1 ≤ issue }
        requires few { length bytes.now ≤ 4092 }
        requires wide { length key.now ≡ 16 }
        requires room { record_length (code (model_of R.ReadRow F.Field C.Cipher self.old)) (package_length (length bytes.now)) ≤ (R.ReadRow.model self.old.row).room }
        ensures { let model = model_of R.ReadRow F.Field C.Cipher in model self.new ≡ put_after (model self.old) file issue key.now bytes.now }
    {
        let plan = self.plan;
        seal_and_spread::<C, F>(&plan, key, bytes, buffers.sealed, buffers.spread);
        let size = bytes.len() as u16;
        write_all::<R, F>(
            &mut self.row,
            file,
            &plan,
            length_of_package(size),
            buffers.spread,
            issue,
            buffers.records,
        );
        self.files[file] = Kept {
            last: issue,
            current: true,
            size,
        };
    }

    // The call, with the working memory that is long enough, if it is.
    fn put_in(
        &mut self,
        file: usize,
        issue: u16,
        key: &[u8],
        bytes: &[u8],
        mut buffers: Option<Buffers<'_>>,
    ) -> Result<usize, SiteCause>
        ensures answers { result ≡ put_answer (model_of R.ReadRow F.Field C.Cipher self.old) file issue (length key.now) (length bytes.now) (is_none buffers.entry) }
        ensures becomes { let model = model_of R.ReadRow F.Field C.Cipher in model self.new ≡ leaves result (model self.old) (put_after (model self.old) file issue key.now bytes.now) }
    {
        let size = self.package_to_put(file, issue, key, bytes)?;
        let buffers = buffers.as_mut().ok_or(SiteCause::MemoryShort)?;
        let near = self.cabinets_to_put(size)?;
        self.write_file(file, issue, key, bytes, buffers);
        Ok(near)
    }

    // Puts a file under a key that the caller draws: seals it, writes the record of each fitted cabinet in reach, and answers how
    // many these are. The file is then current, with this issue. The working memory is zero afterwards, and nothing else changes
    // on a refusal: of a file that is not there, an issue that is not above the last, a file or a key that cannot be sealed,
    // short working memory, a record that is longer than the room, and then of fewer cabinets in reach than are needed.
    pub fn put(
        &mut self,
        file: usize,
        issue: u16,
        key: &[u8],
        bytes: &[u8],
        work: Work<'_>,
    ) -> Result<usize, SiteFault>
        ensures answers { result ≡ named None (Some file) (put_answer (model_of R.ReadRow F.Field C.Cipher self.old) file issue (length key.now) (length bytes.now) (is_short work.entry)) }
        ensures becomes { let model = model_of R.ReadRow F.Field C.Cipher in model self.new ≡ leaves result (model self.old) (put_after (model self.old) file issue key.now bytes.now) }
        ensures wiped { Wiped work.entry work.exit }
    {
        let Work {
            sealed,
            spread,
            records,
            opened,
        } = work;
        let buffers = Buffers::of(sealed, spread, records, opened);
        let answer = self.put_in(file, issue, key, bytes, buffers);
        wipe_all(sealed, spread, records, opened);
        told(answer, None, Some(file))
    }
}
