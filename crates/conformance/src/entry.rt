// What a case's file is sealed and cut to, and the way back from some of its records.
use crate::cases::Case;
use algebra::Field;
use anyhow::{Context, Error, Result, ensure};
use cipher::Cipher;
use erasure::Plan;
use owned::{Found, cut, unseal};
use std::alloc::Global;

// A package, and the record that each cabinet of a plan keeps of it.
#[derive(Drop)]
pub struct Entry {
    plan: Plan,
    package: Vec<u8>,
    pub records: Vec<Vec<u8>>,
}

impl Entry {
    // The entry of a case, whose package this is.
    pub fn of<F: Field>(alloc: Global, case: &Case, package: Vec<u8>) -> Result<Entry> {
        let plan = Plan::new(case.k, case.n).map_err(Error::msg)?;
        let mut records = Vec::new(alloc);
        for cabinet in 0..plan.fitted() {
            let record = cut::<F>(alloc, &plan, package.as_slice(), cabinet, case.issue)?;
            records.push(record.map_err(Error::msg)?)?;
        }
        Ok(Entry {
            plan,
            package,
            records,
        })
    }

    // The records of some cabinets.
    fn records_at(&self, alloc: Global, positions: &[u8]) -> Result<Found> {
        let mut found = Found::new(alloc, self.plan, self.package.len());
        for position in positions {
            let record = self.records.get(usize::from(*position));
            let record = record.context("no such cabinet is fitted")?;
            found.add(*position, record.as_slice())?;
        }
        Ok(found)
    }

    // Fails unless the records at the case's positions give the package, its file and each record.
    pub fn check<C: Cipher, F: Field>(
        &self,
        alloc: Global,
        case: &Case,
        file: &[u8],
    ) -> Result<()> {
        let found = self.records_at(alloc, case.joined)?;
        let joined = found.join::<F>(alloc)?.map_err(Error::msg)?;
        ensure!(
            joined == self.package,
            "records were joined to another package"
        );
        let unsealed = unseal::<C>(alloc, joined.as_slice())?.map_err(Error::msg)?;
        ensure!(
            unsealed.as_slice() == file,
            "a package was unsealed to another file"
        );
        for (cabinet, record) in self.records.iter().enumerate() {
            let rebuilt = found.rebuild::<F>(alloc, cabinet)?.map_err(Error::msg)?;
            ensure!(rebuilt == *record, "a record was rebuilt to another one");
        }
        Ok(())
    }
}
