// How a task takes a fault: a strict task is never to be late, even when a job has to be repeated after a fault; a tolerable one may be
// late after faults.
ghost use Rattle.tasks.specs.Kinds.{kind_byte, Named};
ghost use Rattle.std.specs.Prelude.{◌≡◌};

use thiserror::Error;

#[derive(Clone, Copy, PartialEq, Eq, Debug)]
pub enum Kind {
    Tolerable,
    Strict,
}

// A byte that stands for no kind.
#[derive(Clone, Copy, PartialEq, Eq, Debug, Error)]
#[error("the byte {0} stands for no kind")]
pub struct UnknownKind(pub u8);

impl TryFrom<u8> for Kind {
    type Error = UnknownKind;

    ghost try_from_gives = { Named };

    fn try_from(byte: u8) -> Result<Kind, UnknownKind> {
        match byte {
            0 => Ok(Kind::Tolerable),
            1 => Ok(Kind::Strict),
            _ => Err(UnknownKind(byte)),
        }
    }
}

impl From<Kind> for u8 {
    ghost from_gives = { λ kind byte. byte ≡ kind_byte kind };

    fn from(kind: Kind) -> u8 {
        match kind {
            Kind::Tolerable => 0,
            Kind::Strict => 1,
        }
    }
}
