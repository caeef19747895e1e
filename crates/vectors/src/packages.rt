// Packages: how long they are, that they unseal to what was sealed, and their bytes, which a second program made too
// (tools/reference.py, from docs/FORMATS.md).
use crate::report::{Report, block};
use aes128::Aes128;
use aont::{LONGEST_FILE, SealFault, seal, unseal};
use cipher::Cipher;
use owned::{LONGEST_PACKAGE, counted_file};
use speck128::Speck128;
use std::io;

// the lengths of a file and of its package
const LENGTHS: [(usize, usize); 4] = [(0, 48), (12, 48), (13, 64), (4092, 4128)];

// What is sealed.
#[derive(Clone, Copy)]
enum File {
    Text(&'static str),
    Longest,
}

// What a file is to be sealed to under a key: a package of that length that ends, by each cipher, in these blocks.
#[derive(Clone, Copy)]
struct Sealed {
    file: File,
    key: &'static str,
    length: usize,
    aes128: &'static [&'static str],
    speck128: &'static [&'static str],
}

const PACKAGES: [Sealed; 4] = [
    Sealed {
        file: File::Text(""),
        key: "000102030405060708090a0b0c0d0e0f",
        length: 48,
        aes128: &[
            "e37cd863dd7c87a09aff0e3e60e09c82",
            "b9cbba56e48bb7fede7103d363963f63",
            "2f9ddfabd22f813c49b97fff13daa7ea",
        ],
        speck128: &[
            "fee3b77508c8120c1df8edaa3c2e18f1",
            "edf44a4a61b62037e597f06c376b9db3",
            "8e45bdcfcd028610a4e087bd26fed5b0",
        ],
    },
    Sealed {
        file: File::Text("bay 7: signs"),
        key: "2b7e151628aed2a6abf7158809cf4f3c",
        length: 48,
        aes128: &[
            "72593c9b3052efbd129f8d5f8a52a54d",
            "5df19b76935987c257a4e5de6cc7a788",
            "3b88651c4791fc3eb3ec31186f956809",
        ],
        speck128: &[
            "4cf6887be6f54a01eae4765f2c172c0b",
            "971426778a7ce05390b8008d887e30b2",
            "aa58ad0d6619e4274500c3b95b72c547",
        ],
    },
    Sealed {
        file: File::Text("bay 12: ramps"),
        key: "ffeeddccbbaa99887766554433221100",
        length: 64,
        aes128: &[
            "9990f0348b04146ac297aed9f523aa92",
            "773fa88ce942d11e50274deb77be286d",
            "92d4d16b5b1c49b56a59f25cde29117d",
            "6dc70402e72d5be2b68b99c6bfd6138d",
        ],
        speck128: &[
            "3369fd69495db169d570fd8119f76131",
            "289f5e6c43bbc3b87e994246811237c5",
            "54419eea7d396e04f5082a51f90a8960",
            "89bc3e614485fde780a6e2d3acdaf6c2",
        ],
    },
    Sealed {
        file: File::Longest,
        key: "2b7e151628aed2a6abf7158809cf4f3c",
        length: 4128,
        aes128: &["2aee4e6772589fd15d89eea6b3e8c4d3"],
        speck128: &["0fc5a72fdd09a127b02bdf04eba1c1cd"],
    },
];

fn refused(_fault: SealFault) -> io::Error {
    io::Error::other("a file was not sealed and unsealed")
}

// As much of an output's front as a call answered that it wrote.
fn front(output: &[u8], written: usize) -> &[u8] {
    &output[..written.min(output.len())]
}

// Seals the front of the longest file and unseals it, and prints the lengths.
fn lengths<C: Cipher>(
    report: &mut Report<'_>,
    name: &str,
    file: &[u8],
    expected: usize,
) -> io::Result<()> {
    let mut package = [0u8; LONGEST_PACKAGE];
    let mut back = [0u8; LONGEST_FILE];
    let sealed = seal::<C>(&[7; 16], file, &mut package).map_err(refused)?;
    let unsealed = unseal::<C>(front(&package, sealed), &mut back).map_err(refused)?;
    let length = file.len();
    let right = sealed == expected && front(&back, unsealed) == file;
    report.claim(
        right,
        format_args!("  {name:12}  {length:8}  {sealed:8}  {unsealed:8}"),
    )
}

fn all_lengths<C: Cipher>(report: &mut Report<'_>, name: &str) -> io::Result<()> {
    let whole = counted_file();
    for (file, package) in LENGTHS {
        lengths::<C>(report, name, &whole[..file.min(whole.len())], package)?;
    }
    Ok(())
}

// Seals a file, and prints the blocks that its package ends in.
fn package<C: Cipher>(
    report: &mut Report<'_>,
    name: &str,
    expected: &Sealed,
    blocks: &[&str],
) -> io::Result<()> {
    let whole = counted_file();
    let file = match expected.file {
        File::Text(text) => text.as_bytes(),
        File::Longest => &whole,
    };
    let mut package = [0u8; LONGEST_PACKAGE];
    let sealed = seal::<C>(&block(expected.key)?, file, &mut package).map_err(refused)?;
    let (key, length) = (expected.key, file.len());
    report.claim(
        sealed == expected.length,
        format_args!("{name}: {length} bytes sealed to {sealed} under {key}"),
    )?;
    let before = (expected.length / 16).saturating_sub(blocks.len());
    let ours = front(&package, sealed).chunks_exact(16).skip(before);
    for (number, (ours, theirs)) in (before + 1..).zip(ours.zip(blocks)) {
        report.block(format_args!("block {number:3}"), ours, &block(theirs)?)?;
    }
    Ok(())
}

// Prints the lengths of packages, and packages beside those of the second program.
pub fn print(report: &mut Report<'_>) -> io::Result<()> {
    report.heading("bytes of a          file   package  unsealed")?;
    all_lengths::<Aes128>(report, "AES-128")?;
    all_lengths::<Speck128>(report, "Speck128/128")?;
    report.heading("")?;
    for sealed in &PACKAGES {
        package::<Aes128>(report, "AES-128", sealed, sealed.aes128)?;
    }
    for sealed in &PACKAGES {
        package::<Speck128>(report, "Speck128/128", sealed, sealed.speck128)?;
    }
    Ok(())
}
