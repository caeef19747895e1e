// The published vectors of both ciphers.
use crate::report::{Report, block};
use aes128::Aes128;
use cipher::Cipher;
use speck128::Speck128;
use std::{fmt, io};

// One published encryption, in hex.
#[derive(Clone, Copy)]
struct Vector {
    source: &'static str,
    key: &'static str,
    block: &'static str,
    answer: &'static str,
}

// What it is an encryption of, and where it was published.
impl fmt::Display for Vector {
    fn fmt<W: fmt::Write>(&self, f: &mut fmt::Formatter<W>) -> fmt::Result {
        let Vector {
            source,
            key,
            block,
            ..
        } = *self;
        write!(f, "{source:12}  {key}  {block}")
    }
}

// the key that appendix A.1 of FIPS 197 expands, and its round keys
const EXPANDED_KEY: &str = "2b7e151628aed2a6abf7158809cf4f3c";

const ROUND_KEYS: [&str; 11] = [
    "2b7e151628aed2a6abf7158809cf4f3c",
    "a0fafe1788542cb123a339392a6c7605",
    "f2c295f27a96b9435935807a7359f67f",
    "3d80477d4716fe3e1e237e446d7a883b",
    "ef44a541a8525b7fb671253bdb0bad00",
    "d4d1c6f87c839d87caf2b8bc11f915bc",
    "6d88a37a110b3efddbf98641ca0093fd",
    "4e54f70e5f5fc9f384a64fb24ea6dc4f",
    "ead27321b58dbad2312bf5607f8d292f",
    "ac7766f319fadc2128d12941575c006e",
    "d014f9a8c9ee2589e13f0cc8b6630ca6",
];

// the appendices B and C.1 of FIPS 197, and known answers of NIST's AES validation suite in ECB mode
const AES_VECTORS: [Vector; 16] = [
    Vector {
        source: "FIPS 197 B",
        key: "2b7e151628aed2a6abf7158809cf4f3c",
        block: "3243f6a8885a308d313198a2e0370734",
        answer: "3925841d02dc09fbdc118597196a0b32",
    },
    Vector {
        source: "FIPS 197 C.1",
        key: "000102030405060708090a0b0c0d0e0f",
        block: "00112233445566778899aabbccddeeff",
        answer: "69c4e0d86a7b0430d8cdb78070b4c55a",
    },
    Vector {
        source: "GFSbox 0",
        key: "00000000000000000000000000000000",
        block: "f34481ec3cc627bacd5dc3fb08f273e6",
        answer: "0336763e966d92595a567cc9ce537f5e",
    },
    Vector {
        source: "GFSbox 1",
        key: "00000000000000000000000000000000",
        block: "9798c4640bad75c7c3227db910174e72",
        answer: "a9a1631bf4996954ebc093957b234589",
    },
    Vector {
        source: "GFSbox 2",
        key: "00000000000000000000000000000000",
        block: "96ab5c2ff612d9dfaae8c31f30c42168",
        answer: "ff4f8391a6a40ca5b25d23bedd44a597",
    },
    Vector {
        source: "GFSbox 3",
        key: "00000000000000000000000000000000",
        block: "6a118a874519e64e9963798a503f1d35",
        answer: "dc43be40be0e53712f7e2bf5ca707209",
    },
    Vector {
        source: "GFSbox 4",
        key: "00000000000000000000000000000000",
        block: "cb9fceec81286ca3e989bd979b0cb284",
        answer: "92beedab1895a94faa69b632e5cc47ce",
    },
    Vector {
        source: "KeySbox 0",
        key: "10a58869d74be5a374cf867cfb473859",
        block: "00000000000000000000000000000000",
        answer: "6d251e6944b051e04eaa6fb4dbf78465",
    },
    Vector {
        source: "KeySbox 1",
        key: "caea65cdbb75e9169ecd22ebe6e54675",
        block: "00000000000000000000000000000000",
        answer: "6e29201190152df4ee058139def610bb",
    },
    Vector {
        source: "KeySbox 2",
        key: "a2e2fa9baf7d20822ca9f0542f764a41",
        block: "00000000000000000000000000000000",
        answer: "c3b44b95d9d2f25670eee9a0de099fa3",
    },
    Vector {
        source: "VarKey 0",
        key: "80000000000000000000000000000000",
        block: "00000000000000000000000000000000",
        answer: "0edd33d3c621e546455bd8ba1418bec8",
    },
    Vector {
        source: "VarKey 1",
        key: "c0000000000000000000000000000000",
        block: "00000000000000000000000000000000",
        answer: "4bc3f883450c113c64ca42e1112a9e87",
    },
    Vector {
        source: "VarKey 127",
        key: "ffffffffffffffffffffffffffffffff",
        block: "00000000000000000000000000000000",
        answer: "a1f6258c877d5fcd8964484538bfc92c",
    },
    Vector {
        source: "VarTxt 0",
        key: "00000000000000000000000000000000",
        block: "80000000000000000000000000000000",
        answer: "3ad78e726c1ec02b7ebfe92b23d9ec34",
    },
    Vector {
        source: "VarTxt 1",
        key: "00000000000000000000000000000000",
        block: "c0000000000000000000000000000000",
        answer: "aae5939c8efdf2f04e60b9fe7117b2c2",
    },
    Vector {
        source: "VarTxt 127",
        key: "00000000000000000000000000000000",
        block: "ffffffffffffffffffffffffffffffff",
        answer: "3f5b8cc9ea855a0afa7347d23e8d664e",
    },
];

// the vector of Speck128/128 that its designers published
const SPECK_VECTORS: [Vector; 1] = [Vector {
    source: "designers",
    key: "000102030405060708090a0b0c0d0e0f",
    block: "206d616465206974206571756976616c",
    answer: "180d575cdffe60786532787951985da6",
}];

fn round_keys(report: &mut Report<'_>) -> io::Result<()> {
    report.heading(format_args!("FIPS 197 A.1: the round keys of {EXPANDED_KEY}"))?;
    let cipher = Aes128::with_key(&block(EXPANDED_KEY)?);
    for (round, expected) in ROUND_KEYS.iter().enumerate() {
        report.block(
            format_args!("round {round:3}"),
            &cipher.round_key(round),
            &block(expected)?,
        )?;
    }
    Ok(())
}

fn encryptions<C: Cipher>(
    report: &mut Report<'_>,
    name: &str,
    vectors: &[Vector],
) -> io::Result<()> {
    report.heading(format_args!("{name:14}  {:32}  {:32}  answer", "key", "block"))?;
    for vector in vectors {
        let cipher = C::with_key(&block(vector.key)?);
        let answer = cipher.encrypt(&block(vector.block)?);
        report.block(vector, &answer, &block(vector.answer)?)?;
    }
    Ok(())
}

// Prints the published key expansion and encryptions beside ours.
pub fn print(report: &mut Report<'_>) -> io::Result<()> {
    round_keys(report)?;
    report.heading("")?;
    encryptions::<Aes128>(report, "AES-128", &AES_VECTORS)?;
    report.heading("")?;
    encryptions::<Speck128>(report, "Speck128/128", &SPECK_VECTORS)
}
