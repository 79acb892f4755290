// Why a file is refused, or not written again.
ghost use Rattle.std.specs.Prelude.{◌≡◌};
ghost use Rattle.roster_file.specs.declared.fault.FileFault.TheVariants.{Entry};
ghost use Rattle.roster_file.specs.declared.fault.RewriteFault.TheVariants.{File, Space};
ghost use Rattle.roster_file.specs.Refusals.{located_tells, file_tells, rewrite_tells};

use tasks::fault::{EntryFault, SpaceFault};
use tasks::refusal::{Fault, Layer, Refusal};
use thiserror::Error;

// A record's own fault, whole, beside the byte offset of the record.
#[derive(Clone, Copy, PartialEq, Eq, Debug, Error)]
#[error("{fault}, in the record at byte {offset}")]
pub struct Located {
    pub offset: usize,
    pub fault: EntryFault,
}

impl Fault for Located {
    ghost tells = { located_tells };

    fn refusal(&self) -> Refusal {
        Refusal {
            layer: Layer::File,
            place: self.offset,
            ..self.fault.refusal()
        }
    }
}

#[derive(Clone, Copy, PartialEq, Eq, Debug, Error)]
pub enum FileFault {
    // 14
    #[error("there is no byte 0, or it is not the edition")]
    Edition,
    // 15, with the length of the file
    #[error("the file is cut at byte {0}")]
    Cut(usize),
    // 16
    #[error("there are more than 32 tasks")]
    Count,
    // 17
    #[error("the byte {0} names no kind")]
    Kind(usize),
    // 1 to 5: a record that does not enter the table
    #[error("{0}")]
    Entry(Located),
    // 18, with the offset of the order's count
    #[error("the order at byte {0} is neither empty nor each task once")]
    Order(usize),
    // 19, with the offset of the first byte too many
    #[error("the file goes on at byte {0}")]
    Trailing(usize),
}

// By hand, like the two below: a derived `From` does not say which case it makes, and contracts name it.
impl From<Located> for FileFault {
    ghost from_gives = { λ e r. r ≡ Entry e };

    fn from(e: Located) -> FileFault {
        FileFault::Entry(e)
    }
}

impl Fault for FileFault {
    ghost tells = { file_tells };

    fn refusal(&self) -> Refusal {
        let (number, place) = match self {
            FileFault::Edition => (14, 0),
            FileFault::Cut(length) => (15, *length),
            FileFault::Count => (16, 1),
            FileFault::Kind(at) => (17, *at),
            FileFault::Entry(located) => return located.refusal(),
            FileFault::Order(at) => (18, *at),
            FileFault::Trailing(at) => (19, *at),
        };
        Refusal::new(number, Layer::File, place)
    }
}

// Why a file was not written again in its canonical form.
#[derive(Clone, Copy, PartialEq, Eq, Debug, Error)]
pub enum RewriteFault {
    // 1 to 5 and 14 to 19: the file's own fault
    #[error("{0}")]
    File(FileFault),
    // 20: the space is shorter than the bytes needed
    #[error("{0}")]
    Space(SpaceFault),
}

impl From<FileFault> for RewriteFault {
    ghost from_gives = { λ e r. r ≡ File e };

    fn from(e: FileFault) -> RewriteFault {
        RewriteFault::File(e)
    }
}

impl From<SpaceFault> for RewriteFault {
    ghost from_gives = { λ e r. r ≡ Space e };

    fn from(e: SpaceFault) -> RewriteFault {
        RewriteFault::Space(e)
    }
}

impl Fault for RewriteFault {
    ghost tells = { rewrite_tells };

    fn refusal(&self) -> Refusal {
        match self {
            RewriteFault::File(fault) => fault.refusal(),
            RewriteFault::Space(fault) => fault.refusal(),
        }
    }
}
