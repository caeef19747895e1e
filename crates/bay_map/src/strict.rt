// A garage that keeps all of a bay map's records, or none is answered: the first refusal ends the stocking.
ghost use Rattle.std.specs.Prelude.{◌≡◌, ℕ, ◌<◌, Ok, length, IfOk, OnOk};
ghost use Rattle.aes128.specs.Aes.{aes};
ghost use Rattle.aont.specs.Package.{sealed};
ghost use Rattle.aont.specs.Seals.{seal_answer};
ghost use Rattle.owned.specs.Fronts.{front_of_zeros};
ghost use Rattle.bay_map.specs.Kept.{Keeps};

use crate::garage::Garage;
use crate::showing::{KEY, report, sealed};
use aes128::Aes128;
use anyhow::Error;
use erasure::Plan;
use gf256::Gf256;
use rows::row::Row;

impl<R: Row + Drop> Garage<R> {
    // Prints a heading, seals the bay map, and stores a record of the package in each cabinet, swapped in for it.
    pub fn stocked(
        rt: &(impl Print + AllocGlobal),
        file: Vec<u8>,
        cabinets: R,
    ) -> anyhow::Result<Self>
        ensures file { IfOk result (λ g. g.file ≡ file) }
        ensures plan { IfOk result (λ g. (g.plan.k ≡ 3) × (g.plan.n ≡ 5)) }
        ensures package { IfOk result (λ g. front_of_zeros (seal_answer (length file.items) 16 4128) (sealed aes 11 KEY file.items) 4128 ≡ Ok g.package.items) }
        ensures kept { IfOk result (λ g. (c : ℕ) → c < 5 → Keeps (R.ReadRow.model g.cabinets) 3 5 g.package.items c) }
    {
        println!(rt; "Cut for 5 cabinets, any 3 of which restore it, over GF(256)")?;
        let package = sealed::<Aes128>(rt, file.as_slice())?.map_err(Error::msg)?;
        report(rt, "cut", "the package", package.len())?;
        let plan = Plan::new(3, 5).map_err(Error::msg)?;
        let mut garage = Garage {
            file,
            package,
            plan,
            cabinets,
        };
        garage.fill(rt)?;
        println!(rt; "\nThe shelf: the bytes that each slot holds")?;
        garage.print_table(rt)?;
        Ok(garage)
    }

    // Swaps each cabinet in, and stores its record in it.
    fn fill(&mut self, rt: &(impl Print + AllocGlobal)) -> anyhow::Result<()>
        ensures stays { self.new ≡ record self.old { cabinets = self.new.cabinets } }
        ensures kept { OnOk result ((c : ℕ) → c < self.new.plan.n → Keeps (R.ReadRow.model self.new.cabinets) self.new.plan.k self.new.plan.n self.new.package.items c) }
    {
        for cabinet in 0..self.plan.fitted() {
            self.cabinets.swap(cabinet).map_err(Error::msg)?;
            let package = self.package.as_slice();
            let record = owned::cut::<Gf256>(rt.alloc(), &self.plan, package, cabinet, 1)?.map_err(
                Error::msg,
            )?;
            self.store(rt, cabinet, record.as_slice())?;
        }
        Ok(())
    }
}
