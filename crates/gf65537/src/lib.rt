// GF(65537).
#![tactic(auto)]

ghost use Rattle.std.specs.Prelude.{◌≡◌, ◌+◌, ◌-◌, ◌%◌, ◌<◌};
ghost use Rattle.algebra.specs.Fields.{code, inverse};
ghost use Rattle.gf65537.specs.Gf65537.{gf65537, times};
ghost use Rattle.gf65537.specs.Laws65537.{gf65537_laws, gf65537_widths};

use crate::slices::combine_sums;
use algebra::{Field, WeightedSum};

mod slices;

const SIZE: u32 = 65537;

// A number below the field's size.
#[derive(Clone, Copy)]
struct Code {
    value: u32,
    ghost small: { value < 65537 },
}

impl Code {
    // The code that a number is read as: itself, or 0 where it is none.
    fn of(a: u32) -> Code
        ensures { result.value ≡ code 65537 a }
    {
        Code {
            value: if a < SIZE { a } else { 0 },
        }
    }

    fn plus(self, other: Code) -> Code
        ensures { result.value ≡ (self.value + other.value) % 65537 }
    {
        let whole = self.value + other.value;
        Code {
            value: if whole < SIZE { whole } else { whole - SIZE },
        }
    }

    fn minus(self, other: Code) -> Code
        ensures { result.value ≡ (self.value + (65537 - other.value)) % 65537 }
    {
        let (a, b) = (self.value, other.value);
        Code {
            value: if a < b { a + (SIZE - b) } else { a - b },
        }
    }

    fn times(self, other: Code) -> Code
        ensures { result.value ≡ times self.value other.value }
    {
        Code {
            value: (u64::from(self.value) * u64::from(other.value) % 65537) as u32,
        }
    }

    // With 65537 = q x + r, the product of x and -q is r. So while a c = x, the same holds of -q c and r, and since 65537
    // is prime, r falls to 1 and not to 0.
    fn inverse(self) -> Code
        ensures { result.value ≡ inverse 65537 times self.value }
    {
        if self.value == 0 {
            return self;
        }
        let mut x = self.value;
        let mut c = Code { value: 1 };
        while x > 1 {
            c = Code {
                value: SIZE - SIZE / x,
            }
            .times(c);
            x = SIZE % x;
        }
        c
    }
}

// The field of 65,537 codes: whole numbers modulo that prime.
pub struct Gf65537;

impl Field for Gf65537 {
    const W: usize = 2;

    const V: usize = 3;

    const NUMBER: u16 = 2;

    ghost ops = { gf65537 };

    ghost width = { 2 };

    ghost stored = { 3 };

    ghost number = { 2 };

    ghost lawful = { gf65537_laws };

    ghost widths = { gf65537_widths };

    fn data_width() -> usize {
        Self::W
    }

    fn stored_width() -> usize {
        Self::V
    }

    fn field_number() -> u16 {
        Self::NUMBER
    }

    fn size() -> u32 {
        SIZE
    }

    fn add(a: u32, b: u32) -> u32 {
        Code::of(a).plus(Code::of(b)).value
    }

    fn sub(a: u32, b: u32) -> u32 {
        Code::of(a).minus(Code::of(b)).value
    }

    fn mul(a: u32, b: u32) -> u32 {
        Code::of(a).times(Code::of(b)).value
    }

    fn inv(a: u32) -> u32 {
        Code::of(a).inverse().value
    }

    fn combine(sum: &WeightedSum<'_>, out: &mut [u8]) {
        combine_sums(sum, out);
    }
}
