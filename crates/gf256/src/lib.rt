// GF(256).
#![tactic(auto)]

ghost use Rattle.std.specs.Prelude.{◌≡◌, ◌<◌};
ghost use Rattle.algebra.specs.Fields.{code, inverse};
ghost use Rattle.binary.specs.Binary.{product};
ghost use Rattle.gf256.specs.Gf256.{gf256};
ghost use Rattle.gf256.specs.Laws256.{gf256_laws, gf256_widths};

use crate::slices::combine_bits;
use crate::tables::{exponent, power_of_two};
use algebra::{Field, WeightedSum};

mod slices;
mod tables;

fn coded(a: u32) -> u8
    ensures { result ≡ code 256 a }
{
    if a < 256 { a as u8 } else { 0 }
}

fn product(a: u8, b: u8) -> u8
    ensures { result ≡ product 8 0x11d a b }
{
    if a == 0 || b == 0 {
        return 0;
    }
    power_of_two(exponent(a) + exponent(b))
}

fn inverse(a: u8) -> u8
    ensures { result ≡ inverse 256 (product 8 0x11d) a }
{
    if a == 0 {
        return 0;
    }
    power_of_two(255 - exponent(a))
}

// The field of bytes: it adds by exclusive or, and multiplies as polynomials over bits modulo hex 11D.
pub struct Gf256;

impl Field for Gf256 {
    const W: usize = 1;

    const V: usize = 1;

    const NUMBER: u16 = 1;

    ghost ops = { gf256 };

    ghost width = { 1 };

    ghost stored = { 1 };

    ghost number = { 1 };

    ghost lawful = { gf256_laws };

    ghost widths = { gf256_widths };

    fn data_width() -> usize {
        Self::W
    }

    fn stored_width() -> usize {
        Self::V
    }

    fn field_number() -> u16 {
        Self::NUMBER
    }

    fn size() -> u32 {
        256
    }

    fn add(a: u32, b: u32) -> u32 {
        u32::from(coded(a) ^ coded(b))
    }

    // each code is its own opposite
    fn sub(a: u32, b: u32) -> u32 {
        Self::add(a, b)
    }

    fn mul(a: u32, b: u32) -> u32 {
        u32::from(product(coded(a), coded(b)))
    }

    fn inv(a: u32) -> u32 {
        u32::from(inverse(coded(a)))
    }

    fn combine(sum: &WeightedSum<'_>, out: &mut [u8]) {
        combine_bits(sum, out);
    }
}
