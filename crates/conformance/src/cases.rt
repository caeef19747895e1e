// What is sealed and cut: keys, files, plans and issues, and the cabinets whose records are joined again.
use owned::LONGEST_FILE;
use std::fmt;

// The counted file's first bytes, sealed under a key, cut by the plan k, n, and joined from k cabinets in some order.
#[derive(Clone, Copy)]
pub struct Case {
    pub k: usize,
    pub n: usize,
    pub issue: u16,
    pub key: [u8; 16],
    pub bytes: usize,
    pub joined: &'static [u8],
}

// made with both ciphers and both fields
pub const CASES: [Case; 7] = [
    Case {
        k: 1,
        n: 1,
        issue: 1,
        key: [0, 1, 2, 3, 4, 5, 6, 7, 8, 9, 10, 11, 12, 13, 14, 15],
        bytes: 0,
        joined: &[0],
    },
    Case {
        k: 1,
        n: 3,
        issue: 65535,
        key: [
            255, 238, 221, 204, 187, 170, 153, 136, 119, 102, 85, 68, 51, 34, 17, 0,
        ],
        bytes: 12,
        joined: &[2],
    },
    // zero symbols fill the last column up
    Case {
        k: 3,
        n: 5,
        issue: 258,
        key: *b"a key drawn once",
        bytes: 13,
        joined: &[4, 0, 3],
    },
    Case {
        k: 4,
        n: 4,
        issue: 1,
        key: [0; 16],
        bytes: 1,
        joined: &[3, 1, 0, 2],
    },
    Case {
        k: 16,
        n: 16,
        issue: 65535,
        key: [255; 16],
        bytes: 0,
        joined: &[15, 14, 13, 12, 11, 10, 9, 8, 7, 6, 5, 4, 3, 2, 1, 0],
    },
    // in GF(65537) the records that are joined have the symbol 65,536, with AES-128 in cabinet 2 and with Speck128/128 in 12
    Case {
        k: 2,
        n: 16,
        issue: 2,
        key: *b"third byte132115",
        bytes: 12,
        joined: &[12, 2],
    },
    Case {
        k: 7,
        n: 9,
        issue: 40000,
        key: *b"a key drawn once",
        bytes: 257,
        joined: &[8, 7, 6, 5, 4, 3, 2],
    },
];

// made with Speck128/128 and GF(65537): the longest file, package and record
pub const LONGEST: Case = Case {
    k: 1,
    n: 1,
    issue: 1,
    key: *b"a key drawn once",
    bytes: LONGEST_FILE,
    joined: &[0],
};

// The plan and the issue, as the table has them.
impl fmt::Display for Case {
    fn fmt<W: fmt::Write>(&self, f: &mut fmt::Formatter<W>) -> fmt::Result {
        let Case { k, n, issue, .. } = *self;
        write!(f, "k {k}\nn {n}\nissue {issue}")
    }
}
