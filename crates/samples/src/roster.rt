// Tasks taken up one after another.
ghost use Rattle.std.specs.Prelude.{◌≡◌, false, [], ◌∷◌, ◌++◌, replicate, Some, None, MatchResult, slice_set};
ghost use Rattle.tasks.specs.Bounds.{Lawful};
ghost use Rattle.tasks.specs.Orders.{in_use};
ghost use Rattle.tasks.specs.Tables.{EntryRefused};
ghost use Rattle.samples.specs.Rosters.{Holds, Stops};

use tasks::fault::EntryFault;
use tasks::order::Order;
use tasks::row::Row;
use tasks::standing::Standing;
use tasks::table::Table;

// The tasks so far, each below those before it.
#[derive(Clone, Copy)]
pub struct Roster {
    standing: Standing,
}

impl Roster {
    #[tactic(auto, using(crate::proofs::Taking::none_listed, crate::proofs::Taking::stands))]
    pub fn empty() -> Roster
        ensures table { result.standing.table.places ≡ replicate 32 None }
        ensures order { result.standing.order ≡ [] }
    {
        Roster {
            standing: Standing::new(Table::empty(), Order::empty()).unwrap(),
        }
    }

    // The tasks taken up in this sequence, or why the first is refused that is.
    pub fn of(tasks: &[(u8, Row)]) -> Result<Roster, EntryFault>
        ensures { MatchResult result (λ r. Holds tasks.now r.standing) (Stops tasks.now) }
    {
        let mut roster = Roster::empty();
        for (number, row) in tasks {
            roster.add(*number, *row)?;
        }
        Ok(roster)
    }

    // Takes the task up, below the others; one that is refused changes nothing.
    pub fn add(&mut self, number: u8, row: Row) -> Result<(), EntryFault>
        ensures { MatchResult result
            (λ _. Lawful number row × (in_use self.old.standing.table.places number ≡ false) × (self.new.standing.table.places ≡ slice_set self.old.standing.table.places number (Some row)) × (self.new.standing.order ≡ self.old.standing.order ++ number ∷ []))
            (λ f. EntryRefused self.old.standing.table.places number row f × (self.new ≡ self.old)) }
    {
        let mut table = *self.standing.table();
        let mut order = *self.standing.order();
        table.enter(number, row)?;
        order.push(number);
        let standing = Standing::new(table, order).unwrap();
        *self = Roster { standing };
        Ok(())
    }

    pub fn standing(&self) -> Standing
        ensures { result ≡ self.now.standing }
    {
        self.standing
    }
}
