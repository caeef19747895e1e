// The table as it is printed.
use crate::cases::Case;
use crate::entry::Entry;
use algebra::Field;
use anyhow::{Error, Result};
use cipher::Cipher;
use owned::{Hex, counted_file, seal};

// Prints entries, each with its number.
#[derive(Drop)]
pub struct Table<'a> {
    rt: &'a HostRuntime,
    printed: u32,
}

impl<'a> Table<'a> {
    pub fn new(rt: &'a HostRuntime) -> Table<'a> {
        Table { rt, printed: 0 }
    }

    // Prints the entry of each case, or fails where a case's records do not restore it.
    pub fn entries<C: Cipher, F: Field>(&mut self, cases: &[Case]) -> Result<()> {
        for case in cases {
            self.entry::<C, F>(case)?;
        }
        Ok(())
    }

    fn entry<C: Cipher, F: Field>(&mut self, case: &Case) -> Result<()> {
        self.printed = self.printed.saturating_add(1);
        let (number, cipher, field) = (self.printed, C::cipher_number(), F::field_number());
        println!(self.rt; "entry {number}\ncipher {cipher}\nfield {field}\n{case}")?;
        let whole = counted_file();
        let file = &whole[..case.bytes.min(whole.len())];
        self.bytes("key", &case.key)?;
        self.bytes("file", file)?;
        let package = seal::<C>(self.rt.alloc(), &case.key, file)?.map_err(Error::msg)?;
        self.bytes("package", package.as_slice())?;
        let entry = Entry::of::<F>(self.rt.alloc(), case, package)?;
        for (cabinet, record) in entry.records.iter().enumerate() {
            let shown = Hex(record.as_slice());
            println!(self.rt; "record {cabinet} {shown}")?;
        }
        entry.check::<C, F>(self.rt.alloc(), case, file)?;
        self.joined(case.joined)
    }

    fn bytes(&self, name: &str, bytes: &[u8]) -> Result<()> {
        if bytes.is_empty() {
            println!(self.rt; "{name}")?;
        } else {
            let shown = Hex(bytes);
            println!(self.rt; "{name} {shown}")?;
        }
        Ok(())
    }

    fn joined(&self, positions: &[u8]) -> Result<()> {
        print!(self.rt; "join")?;
        for position in positions {
            print!(self.rt; " {position}")?;
        }
        println!(self.rt; "\n")?;
        Ok(())
    }
}
