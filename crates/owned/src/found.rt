// Records of a package that were found, and what they give.
ghost use Rattle.std.specs.Prelude.{◌≡◌, ◌≤◌, ◌↔◌, [], ◌∷◌, ◌++◌, IsTrue, IfOk, OnOk, vec_len};
ghost use Rattle.erasure.specs.Whole.{coding_of};
ghost use Rattle.recovery.specs.Answers.{join_answer, rebuild_answer};
ghost use Rattle.recovery.specs.Formula.{package_from, rebuilt};
ghost use Rattle.owned.specs.Fronts.{front_of_zeros, Gives};

use crate::{LONGEST_PACKAGE, LONGEST_RECORD, front};
use algebra::Field;
use erasure::{Plan, SliceFault};
use std::alloc::{AllocError, Global};

// Records, end to end, of a package of so many bytes, and the cabinets that they are of: two lists of bytes, since joining takes
// them so.
#[derive(Drop)]
pub struct Found {
    pub plan: Plan,
    pub bytes: usize,
    pub positions: Vec<u8>,
    pub records: Vec<u8>,
}

impl Found {
    // No records yet.
    pub fn new(alloc: Global, plan: Plan, bytes: usize) -> Self
        ensures of { (result.plan ≡ plan) × (result.bytes ≡ bytes) }
        ensures none { (result.positions.items ≡ []) × (result.records.items ≡ []) }
    {
        Found {
            plan,
            bytes,
            positions: Vec::new(alloc),
            records: Vec::new(alloc),
        }
    }

    // Adds a cabinet's record. Where memory runs out, what there is then is left open.
    pub fn add(&mut self, position: u8, bytes: &[u8]) -> Result<(), AllocError>
        ensures of { (self.new.plan ≡ self.old.plan) × (self.new.bytes ≡ self.old.bytes) }
        ensures positions { OnOk result (self.new.positions.items ≡ self.old.positions.items ++ position ∷ []) }
        ensures records { OnOk result (self.new.records.items ≡ self.old.records.items ++ bytes.now) }
    {
        self.positions.push(position)?;
        self.records.extend_from_slice(bytes)
    }

    // Whether there are as many as the plan needs.
    pub fn is_enough(&self) -> bool
        ensures { IsTrue result ↔ (self.now.plan.k ≤ vec_len self.now.positions) }
    {
        self.positions.len() >= self.plan.needed()
    }

    // The package.
    pub fn join<F: Field>(&self, alloc: Global) -> Result<Result<Vec<u8>, SliceFault>, AllocError>
        ensures { IfOk result (Gives (front_of_zeros (join_answer (coding_of F.Field self.now.plan) self.now.plan.n self.now.bytes self.now.positions.items self.now.records.items 4128) (package_from (coding_of F.Field self.now.plan) self.now.bytes self.now.positions.items self.now.records.items) 4128)) }
    {
        let mut output = [0u8; LONGEST_PACKAGE];
        let (positions, records) = (self.positions.as_slice(), self.records.as_slice());
        let answer = recovery::join::<F>(&self.plan, self.bytes, positions, records, &mut output);
        front(alloc, &output, answer)
    }

    // The record of a cabinet, one of these or another.
    pub fn rebuild<F: Field>(
        &self,
        alloc: Global,
        cabinet: usize,
    ) -> Result<Result<Vec<u8>, SliceFault>, AllocError>
        ensures { IfOk result (Gives (front_of_zeros (rebuild_answer (coding_of F.Field self.now.plan) self.now.plan.n self.now.bytes self.now.positions.items self.now.records.items cabinet 6198) (rebuilt (coding_of F.Field self.now.plan) self.now.bytes self.now.positions.items self.now.records.items cabinet) 6198)) }
    {
        let mut output = [0u8; LONGEST_RECORD];
        let (positions, records) = (self.positions.as_slice(), self.records.as_slice());
        let answer = recovery::rebuild::<F>(
            &self.plan,
            self.bytes,
            positions,
            records,
            cabinet,
            &mut output,
        );
        front(alloc, &output, answer)
    }
}
