// The report as it is printed: what was computed, line for line, and whether it is what it ought to be.
use hex::FromHex;
use owned::Hex;
use std::fmt::Display;
use std::io;

// The block that 32 hex digits spell.
pub fn block(digits: &str) -> io::Result<[u8; 16]> {
    <[u8; 16]>::from_hex(digits).map_err(|_| io::Error::other("these are not 32 hex digits"))
}

// Prints the lines, and counts those that are right and those that are wrong.
#[derive(Drop)]
pub struct Report<'a> {
    rt: &'a HostRuntime,
    right: u32,
    wrong: u32,
}

impl<'a> Report<'a> {
    pub fn new(rt: &'a HostRuntime) -> Report<'a> {
        Report {
            rt,
            right: 0,
            wrong: 0,
        }
    }

    // Prints a line that claims nothing.
    pub fn heading(&self, line: impl Display + Drop) -> io::Result<()> {
        self.rt.println(line)
    }

    // Prints a line with its verdict.
    pub fn claim(&mut self, right: bool, line: impl Display + Drop) -> io::Result<()> {
        if right {
            self.right = self.right.saturating_add(1);
            println!(self.rt; "{line}  ok")
        } else {
            self.wrong = self.wrong.saturating_add(1);
            println!(self.rt; "{line}  WRONG")
        }
    }

    // Prints a block in hex behind what it is, compared with the block that it ought to be.
    pub fn block(
        &mut self,
        what: impl Display + Drop,
        block: &[u8],
        expected: &[u8],
    ) -> io::Result<()> {
        let shown = Hex(block);
        self.claim(block == expected, format_args!("  {what}  {shown}"))
    }

    // Prints the counts.
    pub fn end(&self) -> io::Result<()> {
        println!(self.rt; "{} ok, {} wrong", self.right, self.wrong)
    }
}
