// Sums of weighted slices, bit by bit of the weights from the top down: the sum is doubled, and each slice is added whose
// weight has the bit. Each step goes over a whole slice, in a loop that the compiler turns into vector code.
ghost use Rattle.std.specs.Prelude.{◌≡◌, ◌/◌, ◌<◌, length, ◌==◌};
ghost use Rattle.algebra.specs.Slices.{combined};
ghost use Rattle.base.specs.Bytes.{over};
ghost use Rattle.binary.specs.Binary.{product};
ghost use Rattle.gf256.specs.Gf256.{gf256};
ghost use Rattle.gf256.specs.Slices.{doubled, added, bit_of, bits_added};

use crate::coded;
use algebra::WeightedSum;
use base::holds_bytes;

fn double(a: u8) -> u8
    ensures { result ≡ product 8 0x11d a 2 }
{
    if a < 128 { a * 2 } else { (a - 128) * 2 ^ 0x1d }
}

fn double_all(out: &mut [u8])
    ensures { out.new ≡ doubled out.old }
{
    for byte in out.iter_mut() {
        *byte = double(*byte);
    }
}

fn add_all(out: &mut [u8], slice: &[u8])
    ensures { out.new ≡ added out.old slice.now 0 }
{
    // by index: of what is written through a zip of iter_mut a proof knows nothing
    for j in 0..out.len().min(slice.len()) {
        out[j] = out[j] ^ slice[j];
    }
}

fn add_from(out: &mut [u8], sources: &[u8], begin: usize)
    ensures { out.new ≡ added out.old sources.now begin }
{
    if begin < sources.len() {
        add_all(out, &sources[begin..]);
    }
}

fn has_bit(weight: u32, bit: usize) -> bool
    requires { bit < 8 }
    ensures { result ≡ (bit_of weight bit == 1) }
{
    (coded(weight) >> bit) % 2 == 1
}

fn add_bit(sum: &WeightedSum<'_>, bit: usize, out: &mut [u8])
    requires { bit < 8 }
    ensures { out.new ≡ bits_added bit out.old sum.now.weights.now sum.now.sources.now sum.now.stride (length sum.now.weights.now) }
{
    for (i, weight) in sum.weights.iter().enumerate() {
        if has_bit(*weight, bit) {
            add_from(out, sum.sources, i.saturating_mul(sum.stride));
        }
    }
}

pub(crate) fn combine_bits(sum: &WeightedSum<'_>, out: &mut [u8])
    ensures { out.new ≡ over (combined gf256 1 sum.now.weights.now sum.now.sources.now sum.now.stride (length out.old / 1)) out.old }
{
    holds_bytes(sum.sources);
    out.fill(0);
    for bit in (0..8usize).rev() {
        double_all(out);
        add_bit(sum, bit, out);
    }
}
