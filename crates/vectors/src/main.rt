// Published vectors and packages beside what this library computes, for a person to read.
#![tactic(auto)]

use report::Report;
use std::io;

mod ciphers;
mod packages;
mod report;

fn main(rt: HostRuntime) -> io::Result<()> {
    let mut report = Report::new(&rt);
    ciphers::print(&mut report)?;
    report.heading("")?;
    packages::print(&mut report)?;
    report.heading("")?;
    report.end()
}
