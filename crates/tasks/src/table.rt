// Thirty-two places, one for each task number; a place is empty or holds the row of a lawful record. Written whole.
ghost use Rattle.std.specs.Prelude.{◌≡◌, length, replicate, IfSome, Some, None, slice_index_or, slice_set};
ghost use Rattle.tasks.specs.Bounds.{Times, Window, Section, Bounded, Every};

use crate::record::Record;
use crate::row::Row;

// How many places a table has.
pub const PLACES: usize = 32;

#[derive(Clone, Copy, PartialEq, Eq, Debug)]
pub struct Table {
    pub(crate) places: [Option<Row>; PLACES],
    ghost full: { length places ≡ 32 },
    ghost times: { Every Times places },
    ghost window: { Every Window places },
    ghost section: { Every Section places },
}

impl Table {
    pub fn empty() -> Table
        ensures { result.places ≡ replicate 32 None }
    {
        Table {
            places: [None; PLACES],
        }
    }

    // The row at a place, with its bounds; none above the last number.
    pub fn row(&self, number: u8) -> Option<Row>
        ensures value { result ≡ slice_index_or self.now.places number None }
        ensures bounds { IfSome result Bounded }
    {
        *self.places.get(number as usize)?
    }

    // Puts the record in its place, whatever the place held.
    pub fn put(&mut self, record: Record)
        ensures { self.new.places ≡ slice_set self.old.places «record».number (Some «record».row) }
    {
        let mut places = self.places;
        places[record.number as usize] = Some(record.row);
        *self = Table { places };
    }
}
