// A bay map kept in a row of five cabinets, any three of which restore it.
ghost use Rattle.std.specs.Prelude.{◌≡◌, ℕ, ◌<◌, false, Ok, length, IfOk, OnOk};
ghost use Rattle.aes128.specs.Aes.{aes};
ghost use Rattle.aont.specs.Package.{sealed};
ghost use Rattle.aont.specs.Seals.{seal_answer};
ghost use Rattle.owned.specs.Fronts.{Gives, front_of_zeros};
ghost use Rattle.rows.specs.Model.{Condemned, Held, with_reach, with_slot};
ghost use Rattle.bay_map.specs.Kept.{KeepsWhatFits, or_blank, record_within, restocked};

use crate::BAY_MAP;
use crate::showing::{KEY, blank_package, report, sealed};
use aes128::Aes128;
use anyhow::Error;
use erasure::{Plan, SliceFault, cut};
use gf256::Gf256;
use owned::front;
use rows::row::Row;
use rows::table::Table;
use std::alloc::{AllocError, Global};
use std::io;

// A bay map, its package, and the cabinets, each of which keeps a record of the package. Where a call fails, what the cabinets
// hold is left open.
#[derive(Drop)]
pub struct Garage<R> {
    pub file: Vec<u8>,
    pub package: Vec<u8>,
    pub plan: Plan,
    pub cabinets: R,
}

impl<R: Row + Drop> Garage<R> {
    // Seals the bay map, and stores a record of the package in each cabinet, swapped in for it. A file that is too long is not
    // sealed, and a record that is longer than the row's room is not stored: that is printed, and it goes on with a package of
    // zeros, and with a cabinet that keeps nothing.
    pub fn stocked_past_refusals(
        rt: &(impl Print + AllocGlobal),
        file: Vec<u8>,
        cabinets: R,
    ) -> anyhow::Result<Self>
        ensures file { IfOk result (λ g. g.file ≡ file) }
        ensures plan { IfOk result (λ g. (g.plan.k ≡ 3) × (g.plan.n ≡ 5)) }
        ensures package { IfOk result (λ g. g.package.items ≡ or_blank (front_of_zeros (seal_answer (length file.items) 16 4128) (sealed aes 11 KEY file.items) 4128)) }
        ensures kept { IfOk result (λ g. (c : ℕ) → c < 5 → KeepsWhatFits (R.ReadRow.model g.cabinets) 3 5 g.package.items c) }
    {
        let package = match sealed::<Aes128>(rt, file.as_slice())? {
            Ok(package) => package,
            Err(fault) => blank_package(rt, fault)?,
        };
        report(rt, "cut", "the package", package.len())?;
        let plan = Plan::new(3, 5).map_err(Error::msg)?;
        let mut garage = Garage {
            file,
            package,
            plan,
            cabinets,
        };
        garage.fill_past_refusals(rt)?;
        println!(rt; "\nThe shelf: the bytes that each slot holds")?;
        garage.print_table(rt)?;
        Ok(garage)
    }

    // The record that a cabinet is to keep, or the refusal where the row has no room for it.
    fn cut_record(
        &self,
        alloc: Global,
        cabinet: usize,
    ) -> Result<Result<Vec<u8>, SliceFault>, AllocError>
        ensures { IfOk result (Gives (record_within (R.ReadRow.model self.now.cabinets).room self.now.plan.k self.now.plan.n self.now.package.items cabinet)) }
    {
        let mut output = vec![in alloc; 0u8; self.cabinets.room()]?;
        let package = self.package.as_slice();
        let answer = cut::<Gf256>(&self.plan, package, cabinet, 1, output.as_mut_slice());
        front(alloc, output.as_slice(), answer)
    }

    // Swaps a cabinet in, and stores its record in it, or prints why the row has no room for one.
    fn keep(&mut self, rt: &(impl Print + AllocGlobal), cabinet: usize) -> anyhow::Result<()>
        ensures stays { self.new ≡ record self.old { cabinets = self.new.cabinets } }
        ensures kept { OnOk result (R.ReadRow.model self.new.cabinets ≡ restocked (R.ReadRow.model self.old.cabinets) self.old.plan.k self.old.plan.n self.old.package.items cabinet) }
    {
        self.cabinets.swap(cabinet).map_err(Error::msg)?;
        match self.cut_record(rt.alloc(), cabinet)? {
            Ok(record) => self.store(rt, cabinet, record.as_slice())?,
            Err(fault) => println!(rt; "  cut     {fault}")?,
        }
        Ok(())
    }

    // Swaps each cabinet in, and stores its record in it where the row has room for it.
    fn fill_past_refusals(&mut self, rt: &(impl Print + AllocGlobal)) -> anyhow::Result<()>
        ensures stays { self.new ≡ record self.old { cabinets = self.new.cabinets } }
        ensures kept { OnOk result ((c : ℕ) → c < self.new.plan.n → KeepsWhatFits (R.ReadRow.model self.new.cabinets) self.new.plan.k self.new.plan.n self.new.package.items c) }
    {
        for cabinet in 0..self.plan.fitted() {
            self.keep(rt, cabinet)?;
        }
        Ok(())
    }

    // Writes a cabinet's record to it.
    pub fn store(
        &mut self,
        rt: &(impl Print + AllocGlobal),
        cabinet: usize,
        bytes: &[u8],
    ) -> anyhow::Result<()>
        ensures stays { self.new ≡ record self.old { cabinets = self.new.cabinets } }
        ensures stored { OnOk result (R.ReadRow.model self.new.cabinets ≡ with_slot (R.ReadRow.model self.old.cabinets) cabinet 0 (Held bytes.now)) }
    {
        self.cabinets
            .write(cabinet, BAY_MAP, bytes)
            .map_err(Error::msg)?;
        let what = format!(in rt.alloc(); "the record of cabinet {cabinet}")?;
        report(rt, "write", what.as_str(), bytes.len())?;
        Ok(())
    }

    // Loses the records of two cabinets, which the plan allows.
    pub fn lose_two(&mut self, rt: &impl Print) -> anyhow::Result<()>
        ensures stays { self.new ≡ record self.old { cabinets = self.new.cabinets } }
        ensures lost { OnOk result (R.ReadRow.model self.new.cabinets ≡ with_slot (with_reach (R.ReadRow.model self.old.cabinets) 1 false) 4 0 Condemned) }
    {
        println!(rt; "\nCabinet 1 is pulled, and the bay map's slot of cabinet 4 is condemned")?;
        self.cabinets.pull(1).map_err(Error::msg)?;
        self.cabinets.condemn(4, BAY_MAP).map_err(Error::msg)
    }

    // Prints what each slot holds; it does nothing else.
    pub fn print_table(&self, rt: &impl Print) -> io::Result<()> {
        let table = Table::new(&self.cabinets);
        print!(rt; "{table}")
    }
}
