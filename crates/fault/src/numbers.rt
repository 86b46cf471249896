// The causes by their numbers.
ghost use Rattle.std.specs.Prelude.{◌≡◌, ℕ, IfOk, Ok};
ghost use Rattle.fault.specs.Causes.{number};
ghost use Rattle.fault.specs.declared.kinds.Cause.{Cause};

use crate::kinds::Cause;

// The number is that of no cause of ours.
#[derive(Clone, Copy, Debug, PartialEq, Eq)]
pub struct NoCause;

impl From<Cause> for u32 {
    ghost from_gives = { λ c n. n ≡ number c };

    fn from(cause: Cause) -> u32 {
        cause as u32
    }
}

impl TryFrom<u32> for Cause {
    type Error = NoCause;

    ghost try_from_gives = { λ n r. ((c : Cause) → number c ≡ n → r ≡ Ok c) × IfOk r (λ c. number c ≡ n) };

    fn try_from(n: u32) -> Result<Cause, NoCause> {
        Ok(match n {
            1 => Cause::BadPlan,
            2 => Cause::CatalogueFull,
            3 => Cause::FieldCount,
            4 => Cause::LinkMask,
            5 => Cause::NoCursor,
            6 => Cause::EmptyCursor,
            7 => Cause::NoField,
            8 => Cause::WrongKind,
            9 => Cause::AbsentLink,
            10 => Cause::NoPage,
            12 => Cause::CheckDiffers,
            13 => Cause::HeadTooLarge,
            14 => Cause::UndeclaredType,
            15 => Cause::ObjectTooLong,
            16 => Cause::BadLink,
            17 => Cause::NotZero,
            18 => Cause::NoAddresses,
            19 => Cause::NoObject,
            20 => Cause::PageClosed,
            21 => Cause::NoRoom,
            22 => Cause::NoType,
            23 => Cause::WrongLength,
            _ => return Err(NoCause),
        })
    }
}
