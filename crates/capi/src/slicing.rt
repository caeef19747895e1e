// Cutting and joining for C.
ghost use Rattle.std.specs.Prelude.{◌≡◌, ◌^◌, ◌<◌, length, IfOk};
ghost use Rattle.capi.specs.Calls.{signed};
ghost use Rattle.capi.specs.Faults.{call_number};
ghost use Rattle.capi.specs.Slicing.{cut_call, cut_leaves, CutsExactly, join_call, join_leaves, JoinsExactly};

use crate::answers::{CallFault, FieldKind, in_one_number};
use erasure::{Plan, cut};
use gf256::Gf256;
use gf65537::Gf65537;
use recovery::join;

// The match stands in each call: it names the call's own instance, and no closure is generic in a field.
fn cut_by(
    field: u32,
    k: u32,
    n: u32,
    package: &[u8],
    cabinet: u32,
    issue: u16,
    out: &mut [u8],
) -> Result<usize, CallFault>
    ensures answers { signed call_number result ≡ cut_call field k n (length «package».now) cabinet issue (length out.old) }
    ensures fills { out.new ≡ cut_leaves field k n «package».now cabinet issue out.old }
    ensures exact { CutsExactly field k n «package».now cabinet issue (length out.old) }
    ensures small { IfOk result (λ n. n < 2 ^ 63) }
{
    let plan = Plan::new(k as usize, n as usize)?;
    let cabinet = cabinet as usize;
    let length = match FieldKind::try_from(field)? {
        FieldKind::Gf256 => cut::<Gf256>(&plan, package, cabinet, issue, out)?,
        FieldKind::Gf65537 => cut::<Gf65537>(&plan, package, cabinet, issue, out)?,
    };
    Ok(length)
}

// Cuts the record of a cabinet from a package, into the front of the output, and answers the record's length. The rest of the
// output stays as it was, and all of it on a refusal: the field is unknown or k and n are no plan, no package has that length,
// no such cabinet is fitted, the issue is 0, or the output is too short, in that order.
pub fn runnelpan_cut(
    field: u32,
    k: u32,
    n: u32,
    package: &[u8],
    cabinet: u32,
    issue: u16,
    out: &mut [u8],
) -> i64
    ensures answers { result ≡ cut_call field k n (length «package».now) cabinet issue (length out.old) }
    ensures fills { out.new ≡ cut_leaves field k n «package».now cabinet issue out.old }
    ensures exact { CutsExactly field k n «package».now cabinet issue (length out.old) }
{
    in_one_number(cut_by(field, k, n, package, cabinet, issue, out))
}

fn join_by(
    field: u32,
    k: u32,
    n: u32,
    bytes: usize,
    positions: &[u8],
    records: &[u8],
    out: &mut [u8],
) -> Result<usize, CallFault>
    ensures answers { signed call_number result ≡ join_call field k n bytes positions.now records.now (length out.old) }
    ensures fills { out.new ≡ join_leaves field k n bytes positions.now records.now out.old }
    ensures exact { JoinsExactly field k n bytes positions.now records.now }
    ensures small { IfOk result (λ n. n < 2 ^ 63) }
{
    let plan = Plan::new(k as usize, n as usize)?;
    let length = match FieldKind::try_from(field)? {
        FieldKind::Gf256 => join::<Gf256>(&plan, bytes, positions, records, out)?,
        FieldKind::Gf65537 => join::<Gf65537>(&plan, bytes, positions, records, out)?,
    };
    Ok(length)
}

// Joins a package of so many bytes from k records end to end, those of the cabinets at the positions, into the front of the
// output, and answers its length. The rest of the output stays as it was, and all of it on a refusal: the field is unknown or k
// and n are no plan, no package has that length, there are not k differing positions of fitted cabinets and k records of the due
// length and number and of one issue, the records are those of no package, or the output is too short, in that order.
pub fn runnelpan_join(
    field: u32,
    k: u32,
    n: u32,
    bytes: usize,
    positions: &[u8],
    records: &[u8],
    out: &mut [u8],
) -> i64
    ensures answers { result ≡ join_call field k n bytes positions.now records.now (length out.old) }
    ensures fills { out.new ≡ join_leaves field k n bytes positions.now records.now out.old }
    ensures exact { JoinsExactly field k n bytes positions.now records.now }
{
    in_one_number(join_by(field, k, n, bytes, positions, records, out))
}
