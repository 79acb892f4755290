// A record enters a table under an empty number, or is refused by the first question that is answered no.
ghost use Rattle.std.specs.Prelude.{◌≡◌, false, Some, MatchResult, slice_set};
ghost use Rattle.tasks.specs.Bounds.{Lawful};
ghost use Rattle.tasks.specs.Orders.{in_use};
ghost use Rattle.tasks.specs.Tables.{EntryRefused};

use crate::fault::EntryFault;
use crate::record::Record;
use crate::row::Row;
use crate::table::Table;

impl Table {
    // Asks the questions of a record, then whether the place of its number is empty; a refused entry changes nothing.
    pub fn enter(&mut self, number: u8, row: Row) -> Result<(), EntryFault>
        ensures entered { MatchResult result (λ _. Lawful number row × (in_use self.old.places number ≡ false) × (self.new.places ≡ slice_set self.old.places number (Some row))) (λ f. EntryRefused self.old.places number row f × (self.new ≡ self.old)) }
    {
        let record = Record::new(number, row)?;
        if self.row(number).is_some() {
            return Err(EntryFault::Taken(number));
        }
        self.put(record);
        Ok(())
    }
}
