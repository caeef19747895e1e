// How a C call names a cipher or a field, why it is refused, and what it answers.
ghost use Rattle.std.specs.Prelude.{◌≡◌, ◌^◌, ◌<◌, IfOk};
ghost use Rattle.capi.specs.declared.answers.CallFault.TheVariants.{Seal, Slice};
ghost use Rattle.capi.specs.Calls.{signed};
ghost use Rattle.capi.specs.Faults.{call_number, cipher_kind, field_kind};

use aont::SealFault;
use erasure::SliceFault;

// Why a call is refused. A fault of a lower layer is inside, whole.
#[derive(Clone, Copy, PartialEq, Eq, Debug)]
pub enum CallFault {
    // no cipher, or no field, has that number
    Unknown,
    Seal(SealFault),
    Slice(SliceFault),
}

impl From<SealFault> for CallFault {
    ghost from_gives = { λ f c. c ≡ Seal f };

    fn from(fault: SealFault) -> CallFault {
        CallFault::Seal(fault)
    }
}

impl From<SliceFault> for CallFault {
    ghost from_gives = { λ f c. c ≡ Slice f };

    fn from(fault: SliceFault) -> CallFault {
        CallFault::Slice(fault)
    }
}

impl CallFault {
    // The number of the refusal; one of a lower layer keeps its own.
    pub fn number(self) -> u16
        ensures { result ≡ call_number self }
    {
        match self {
            CallFault::Unknown => 13,
            CallFault::Seal(fault) => fault.number(),
            CallFault::Slice(fault) => fault.number(),
        }
    }
}

// The cipher that a number names.
#[derive(Clone, Copy, PartialEq, Eq, Debug)]
pub enum CipherKind {
    Aes128,
    Speck128,
}

impl TryFrom<u32> for CipherKind {
    type Error = CallFault;

    ghost try_from_gives = { λ n r. r ≡ cipher_kind n };

    fn try_from(number: u32) -> Result<Self, CallFault> {
        match number {
            11 => Ok(CipherKind::Aes128),
            12 => Ok(CipherKind::Speck128),
            _ => Err(CallFault::Unknown),
        }
    }
}

// The field that a number names.
#[derive(Clone, Copy, PartialEq, Eq, Debug)]
pub enum FieldKind {
    Gf256,
    Gf65537,
}

impl TryFrom<u32> for FieldKind {
    type Error = CallFault;

    ghost try_from_gives = { λ n r. r ≡ field_kind n };

    fn try_from(number: u32) -> Result<Self, CallFault> {
        match number {
            1 => Ok(FieldKind::Gf256),
            2 => Ok(FieldKind::Gf65537),
            _ => Err(CallFault::Unknown),
        }
    }
}

// A length, or a refusal's number negated.
pub(crate) fn in_one_number(answer: Result<usize, CallFault>) -> i64
    requires { IfOk answer (λ n. n < 2 ^ 63) }
    ensures { result ≡ signed call_number answer }
{
    match answer {
        Ok(length) => length as i64,
        Err(fault) => -i64::from(fault.number()),
    }
}
