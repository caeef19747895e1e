// Sums of weighted slices. Where all places of a sum lie in the sources, its codes are read with no check at each byte, and the
// sum of the products is reduced once.
ghost use Rattle.std.specs.Prelude.{◌≡◌, ◌+◌, ◌-◌, ◌*◌, ◌/◌, ◌<◌, ◌≤◌, length};
ghost use Rattle.base.specs.Bytes.{over};
ghost use Rattle.algebra.specs.Fields.{code};
ghost use Rattle.algebra.specs.Slices.{stored_at, combined_at, combined};
ghost use Rattle.gf65537.specs.Gf65537.{gf65537};

use crate::{Code, Gf65537};
use algebra::{Field, WeightedSum};
use base::put_le;

fn code_within(sources: &[u8], at: usize) -> Code
    requires { at + 3 ≤ length sources.now }
    ensures { result.value ≡ code 65537 (stored_at 3 sources.now at) }
{
    Code::of(u32::from_le_bytes([sources[at], sources[at + 1], sources[at + 2], 0]))
}

fn sum_within(sum: &WeightedSum<'_>, place: usize) -> u32
    requires few { length sum.now.weights.now ≤ 16 }
    requires inside { (length sum.now.weights.now - 1) * sum.now.stride + place + 3 ≤ length sum.now.sources.now }
    ensures { result ≡ combined_at gf65537 3 sum.now.weights.now sum.now.sources.now sum.now.stride place }
{
    let mut total = 0u64;
    for (i, weight) in sum.weights.iter().enumerate() {
        let code = code_within(sum.sources, i * sum.stride + place);
        total += u64::from(code.value) * u64::from(Code::of(*weight).value);
    }
    (total % 65537) as u32
}

fn sum_at(sum: &WeightedSum<'_>, place: usize) -> u32
    ensures { result ≡ combined_at gf65537 3 sum.now.weights.now sum.now.sources.now sum.now.stride place }
{
    let n = sum.weights.len();
    if 1 <= n
        && n <= 16
        && sum.stride <= 65536
        && place <= 65536
        && (n - 1) * sum.stride + place + 3 <= sum.sources.len()
    {
        sum_within(sum, place)
    } else {
        Gf65537::combine_at(sum, place)
    }
}

pub(crate) fn combine_sums(sum: &WeightedSum<'_>, out: &mut [u8])
    ensures { out.new ≡ over (combined gf65537 3 sum.now.weights.now sum.now.sources.now sum.now.stride (length out.old / 3)) out.old }
{
    // by index: of what is written through chunks_exact_mut a proof knows only how long it is
    for j in 0..out.len() / 3 {
        put_le(out, j * 3, 3, sum_at(sum, j * 3));
    }
}
