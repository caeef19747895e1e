// Spreading, and cutting from slices, for the benchmark, which is in C and joins by the C call itself. Each exported function takes
// the number of a field and the two figures of a plan, and answers a length, or 0 on a refusal.
#![tactic(auto)]

ghost use Rattle.std.specs.Prelude.{◌≡◌, length};
ghost use Rattle.base.specs.Answers.{leaves};
ghost use Rattle.base.specs.Bytes.{over};
ghost use Rattle.capi.specs.Calls.{by_field};
ghost use Rattle.erasure.specs.Formula.{spread, record_from};
ghost use Rattle.erasure.specs.Slices.{spread_answer, cut_answer};
ghost use Rattle.benchcalls.specs.Calls.{length_of};

use capi::answers::{CallFault, FieldKind};
use erasure::{Plan, cut_spread, spread};
use gf256::Gf256;
use gf65537::Gf65537;

// The match stands in each call: it names the call's own instance, and no closure is generic in a field.
fn spread_by(
    field: u32,
    k: usize,
    n: usize,
    package: &[u8],
    slices: &mut [u8],
) -> Result<usize, CallFault>
    ensures answers { length_of result ≡ by_field field k n 0 (λ C. length_of (spread_answer C (length «package».now) (length slices.old))) }
    ensures fills { slices.new ≡ by_field field k n slices.old (λ C. leaves (spread_answer C (length «package».now) (length slices.old)) slices.old (over (spread C «package».now) slices.old)) }
{
    let plan = Plan::new(k, n)?;
    let length = match FieldKind::try_from(field)? {
        FieldKind::Gf256 => spread::<Gf256>(&plan, package, slices)?,
        FieldKind::Gf65537 => spread::<Gf65537>(&plan, package, slices)?,
    };
    Ok(length)
}

// Spreads a package into slices.
#[unsafe(no_mangle)]
pub extern "C" fn bench_spread(
    field: u32,
    k: usize,
    n: usize,
    package: &[u8],
    slices: &mut [u8],
) -> usize
    ensures answers { result ≡ by_field field k n 0 (λ C. length_of (spread_answer C (length «package».now) (length slices.old))) }
    ensures fills { slices.new ≡ by_field field k n slices.old (λ C. leaves (spread_answer C (length «package».now) (length slices.old)) slices.old (over (spread C «package».now) slices.old)) }
{
    spread_by(field, k, n, package, slices).unwrap_or(0)
}

fn cut_by(
    field: u32,
    k: usize,
    n: usize,
    bytes: usize,
    slices: &[u8],
    cabinet: usize,
    out: &mut [u8],
) -> Result<usize, CallFault>
    ensures answers { length_of result ≡ by_field field k n 0 (λ C. length_of (cut_answer C n bytes cabinet 1 (length out.old))) }
    ensures fills { out.new ≡ by_field field k n out.old (λ C. leaves (cut_answer C n bytes cabinet 1 (length out.old)) out.old (over (record_from C bytes slices.now cabinet 1) out.old)) }
{
    let plan = Plan::new(k, n)?;
    let length = match FieldKind::try_from(field)? {
        FieldKind::Gf256 => cut_spread::<Gf256>(&plan, bytes, slices, cabinet, 1, out)?,
        FieldKind::Gf65537 => cut_spread::<Gf65537>(&plan, bytes, slices, cabinet, 1, out)?,
    };
    Ok(length)
}

// Cuts a cabinet's record of issue 1 from slices.
#[unsafe(no_mangle)]
pub extern "C" fn bench_cut(
    field: u32,
    k: usize,
    n: usize,
    bytes: usize,
    slices: &[u8],
    cabinet: usize,
    out: &mut [u8],
) -> usize
    ensures answers { result ≡ by_field field k n 0 (λ C. length_of (cut_answer C n bytes cabinet 1 (length out.old))) }
    ensures fills { out.new ≡ by_field field k n out.old (λ C. leaves (cut_answer C n bytes cabinet 1 (length out.old)) out.old (over (record_from C bytes slices.now cabinet 1) out.old)) }
{
    cut_by(field, k, n, bytes, slices, cabinet, out).unwrap_or(0)
}
