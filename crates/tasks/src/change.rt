// A table changed row by row.
ghost use Rattle.std.specs.Prelude.{◌≡◌};
ghost use Rattle.tasks.specs.Bounds.{Bounded};
ghost use Rattle.tasks.specs.Changes.{changed_places};
ghost use Rattle.tasks.specs.declared.row.Row.{Row};

use crate::row::Row;
use crate::table::Table;

// A change of a row that keeps its bounds. A trait, since for a closure `changed` would need a `requires` that the law `bounded` saves.
pub trait Change {
    ghost changed: { Self → Row → Row };

    fn change(&self, row: Row) -> Row
        ensures { result ≡ changed self.now row };

    ghost bounded: { (s : Self) (r : Row) → Bounded r → Bounded (changed s r) };
}

impl Table {
    // The table with every row in use changed.
    pub fn changed<C: Change>(&self, by: &C) -> Table
        ensures { result.places ≡ changed_places (C.Change.changed by.now) self.now.places }
    {
        let mut places = self.places;
        // in place: the array's own `map` copies every place three times
        for place in places.iter_mut() {
            *place = place.map(|row| by.change(row));
        }
        Table { places }
    }
}
