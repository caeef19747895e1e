// The static library for C. Each exported function takes a slice as a pointer and a length, and answers a length, or the number
// of a refusal negated; it is the call of the same name of crate `capi`, and promises what that does. include/runnelpan.h
// declares them.
#![tactic(auto)]

ghost use Rattle.std.specs.Prelude.{◌≡◌, length};
ghost use Rattle.capi.specs.Sealing.{seal_call, seal_leaves, unseal_call, unseal_leaves, UnsealsExactly};
ghost use Rattle.capi.specs.Slicing.{cut_call, cut_leaves, CutsExactly, join_call, join_leaves, JoinsExactly};

use capi::{sealing, slicing};

// Seals a file under a key of sixteen bytes into the front of the output, and answers the package's length. The rest
// of the output stays as it was, and all of it on a refusal: the cipher is unknown, the file is too long, the key has
// not sixteen bytes, or the output is too short, in that order.
#[unsafe(no_mangle)]
pub extern "C" fn runnelpan_seal(cipher: u32, key: &[u8], file: &[u8], out: &mut [u8]) -> i64
    ensures answers { result ≡ seal_call cipher (length key.now) (length file.now) (length out.old) }
    ensures fills { out.new ≡ seal_leaves cipher key.now file.now out.old }
{
    sealing::runnelpan_seal(cipher, key, file, out)
}

// Unseals a package into the front of the output, and answers the file's length. The rest of the output stays as it
// was, and all of it on a refusal: the cipher is unknown, no package has that length, the canary is wrong, no file of
// this cipher has the frame, or the output is too short, in that order.
#[unsafe(no_mangle)]
pub extern "C" fn runnelpan_unseal(cipher: u32, package: &[u8], out: &mut [u8]) -> i64
    ensures answers { result ≡ unseal_call cipher «package».now (length out.old) }
    ensures fills { out.new ≡ unseal_leaves cipher «package».now out.old }
    ensures exact { UnsealsExactly cipher «package».now out.old out.new }
{
    sealing::runnelpan_unseal(cipher, package, out)
}

// Cuts the record of a cabinet from a package, into the front of the output, and answers the record's length. The rest of the
// output stays as it was, and all of it on a refusal: the field is unknown or k and n are no plan, no package has that length,
// no such cabinet is fitted, the issue is 0, or the output is too short, in that order.
#[unsafe(no_mangle)]
pub extern "C" fn runnelpan_cut(
    field: u32,
    k: u32,
    n: u32,
    package: &[u8],
    cabinet: u32,
    issue: u16,
    out: &mut [u8],
) -> i64
    ensures answers { result ≡ cut_call field k n (length «package».now) cabinet issue (length out.old) }
    ensures fills { out.new ≡ cut_leaves field k n «package».now cabinet issue out.old }
    ensures exact { CutsExactly field k n «package».now cabinet issue (length out.old) }
{
    slicing::runnelpan_cut(field, k, n, package, cabinet, issue, out)
}

// Joins a package of so many bytes from k records end to end, those of the cabinets at the positions, into the front of the
// output, and answers its length. The rest of the output stays as it was, and all of it on a refusal: the field is unknown or k
// and n are no plan, no package has that length, there are not k differing positions of fitted cabinets and k records of the due
// length and number and of one issue, the records are those of no package, or the output is too short, in that order.
#[unsafe(no_mangle)]
pub extern "C" fn runnelpan_join(
    field: u32,
    k: u32,
    n: u32,
    bytes: usize,
    positions: &[u8],
    records: &[u8],
    out: &mut [u8],
) -> i64
    ensures answers { result ≡ join_call field k n bytes positions.now records.now (length out.old) }
    ensures fills { out.new ≡ join_leaves field k n bytes positions.now records.now out.old }
    ensures exact { JoinsExactly field k n bytes positions.now records.now }
{
    slicing::runnelpan_join(field, k, n, bytes, positions, records, out)
}
