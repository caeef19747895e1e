ghost use Rattle.std.specs.Prelude.{◌≡◌, ℕ, ◌/◌, length};
ghost use Rattle.base.specs.Bytes.{over};
ghost use Rattle.algebra.specs.Fields.{Ops, Laws, Widths};
ghost use Rattle.algebra.specs.Slices.{combined_at, combined};

use base::{le_at, put_le};

// A sum of slices of stored codes, each times its weight: there are as many slices as weights, and slice i begins at i times the
// stride. A byte past the end of the sources counts as 0. Slices are found by the stride and are no chunks: it may be 0, and a place
// may lie past it.
#[derive(Clone, Copy)]
pub struct WeightedSum<'a> {
    pub weights: &'a [u32],
    pub sources: &'a [u8],
    pub stride: usize,
}

// A field over codes, the whole numbers below its size. Each operation answers a code, and reads an argument that is
// not below the size as 0. W data bytes make one symbol, V bytes store one code, and NUMBER stands in what is stored.
pub trait Field {
    const W: usize;

    const V: usize;

    const NUMBER: u16;

    // the size and the four operations, as functions on numbers
    ghost ops: { Ops };

    // W, V and NUMBER, as clauses name them
    ghost width: { ℕ };

    ghost stored: { ℕ };

    ghost number: { ℕ };

    fn data_width() -> usize
        ensures { result ≡ width };

    fn stored_width() -> usize
        ensures { result ≡ stored };

    fn field_number() -> u16
        ensures { result ≡ number };

    fn size() -> u32
        ensures { result ≡ ops.size };

    fn add(a: u32, b: u32) -> u32
        ensures { result ≡ ops.add a b };

    fn sub(a: u32, b: u32) -> u32
        ensures { result ≡ ops.sub a b };

    fn mul(a: u32, b: u32) -> u32
        ensures { result ≡ ops.mul a b };

    fn inv(a: u32) -> u32
        ensures { result ≡ ops.inv a };

    // One place of a weighted sum.
    fn combine_at(sum: &WeightedSum<'_>, place: usize) -> u32
        ensures { result ≡ combined_at ops stored sum.now.weights.now sum.now.sources.now sum.now.stride place }
    {
        let mut total = 0;
        for (i, weight) in sum.weights.iter().enumerate() {
            let begin = i.saturating_mul(sum.stride).saturating_add(place);
            total = Self::add(
                total,
                Self::mul(le_at(sum.sources, begin, Self::stored_width()), *weight),
            );
        }
        total
    }

    // The same at each place of the output, which it overwrites, but for bytes at its end that are no whole place. Cutting
    // and joining spend their time here, so a field may do it in a faster way.
    fn combine(sum: &WeightedSum<'_>, out: &mut [u8])
        ensures { out.new ≡ over (combined ops stored sum.now.weights.now sum.now.sources.now sum.now.stride (length out.old / stored)) out.old }
    {
        let width = Self::stored_width();
        // by index: of what is written through chunks_exact_mut a proof knows only how long it is
        for j in 0..out.len() / width {
            let place = j * width;
            put_le(out, place, width, Self::combine_at(sum, place));
        }
    }

    ghost lawful: { Laws ops };

    ghost widths: { Widths ops width stored number };
}
