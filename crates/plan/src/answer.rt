// The answer to a file, as text in space handed in.
ghost use Rattle.std.specs.Prelude.{◌≡◌, ℕ, ◌≤◌, List, length, IfOk, MatchResult, Err};
ghost use Rattle.listing.specs.Texts.{listing_text, refusal_text};
ghost use Rattle.listing.specs.declared.line.Line.{Line};
ghost use Rattle.plan.specs.Answers.{len_of, Planned, Unplanned, LinesOf, ListingOf, RefusalOf, AsListing, AsRefusal, Answered};
ghost use Rattle.plan.specs.Refusals.{no_listing_tells};
ghost use Rattle.plan.specs.declared.answer.NoListing.TheVariants.{File, NoOrder};
ghost use Rattle.roster_file.specs.Layout.{Refused};
ghost use Rattle.roster_file.specs.declared.fault.FileFault.{FileFault};
ghost use Rattle.tasks.specs.declared.table.Table.{Table};

use crate::remembering::Remembering;
use demand::mode::Mode;
use demand::response;
use listing::line::Line;
use listing::lines::Lines;
use listing::text::{write_listing, write_refusal};
use priority::fault::PlanFault;
use priority::plan::plan;
use roster_file::fault::FileFault;
use roster_file::read::read;
use tasks::fault::SpaceFault;
use tasks::order::Order;
use tasks::refusal::{Fault, Refusal};
use tasks::set::TaskSet;
use tasks::standing::Standing;
use tasks::table::Table;

// Why there is no listing.
#[derive(Clone, Copy)]
pub(crate) enum NoListing {
    File(FileFault),
    NoOrder(PlanFault),
}

// Both by hand: a derived `From` does not say which case it makes, and contracts name it.
impl From<FileFault> for NoListing {
    ghost from_gives = { λ e r. r ≡ File e };

    fn from(e: FileFault) -> NoListing {
        NoListing::File(e)
    }
}

impl From<PlanFault> for NoListing {
    ghost from_gives = { λ e r. r ≡ NoOrder e };

    fn from(e: PlanFault) -> NoListing {
        NoListing::NoOrder(e)
    }
}

impl Fault for NoListing {
    ghost tells = { no_listing_tells };

    fn refusal(&self) -> Refusal {
        match self {
            NoListing::File(fault) => fault.refusal(),
            NoListing::NoOrder(fault) => fault.refusal(),
        }
    }
}

// What the text in the space is, and how long it is. No `Result`: a refusal is an answer too, and is written as the listing is.
#[derive(Clone, Copy)]
pub(crate) enum Answer {
    Listed(usize),
    Refused(usize),
}

impl Answer {
    pub fn len(self) -> usize
        ensures { result ≡ len_of self }
    {
        match self {
            Answer::Listed(len) | Answer::Refused(len) => len,
        }
    }
}

// Writes the listing of the file's tasks in the order of their plan, or the refusal of the file or of the plan.
pub(crate) fn write_answer(file: &[u8], space: &mut [u8]) -> Result<Answer, SpaceFault>
    ensures text { Answered file.now space.old space.new result }
    ensures listing { (ls : List Line) → ListingOf file.now ls → AsListing (listing_text ls) space.old space.new result }
    ensures refusal { (n : ℕ) → RefusalOf file.now n → AsRefusal (refusal_text n) space.old space.new result }
    ensures fits { IfOk result (λ a. len_of a ≤ length space.old) }
{
    match planned(file) {
        Ok(standing) => Ok(Answer::Listed(write_listing(&lines(&standing), space)?)),
        Err(fault) => Ok(Answer::Refused(write_refusal(fault.innermost(), space)?)),
    }
}

// The tasks of the file in the order of their plan. The order that the file carries is checked, and not used. Planning the tasks together
// ends as admitting them one by one, by rising number, would: an order of all tasks gives one for every part of them.
fn planned(file: &[u8]) -> Result<Standing, NoListing>
    ensures outcome { MatchResult result (λ s. Planned file.now s.table s.order) (Unplanned file.now) }
    ensures only { (t : Table) (o : List ℕ) → Planned file.now t o → MatchResult result (λ s. (s.table ≡ t) × (s.order ≡ o)) (λ _. ⊥) }
    ensures refusal { (f : FileFault) → Refused file.now f → result ≡ Err (File f) }
{
    let mut table = Table::empty();
    let mut order = Order::empty();
    read(file, &mut table, &mut order)?;
    let order = plan(&table, &mut Remembering::nothing())?;
    // a plan lists each task once
    Ok(Standing::new(table, order).unwrap())
}

// A line for each task, with its response times below the tasks before it.
fn lines(standing: &Standing) -> Lines
    ensures { LinesOf standing.now.table standing.now.order result }
{
    let table = standing.table();
    let mut lines = Lines::new();
    let mut above = TaskSet::empty();
    for (i, &number) in standing.order().as_slice().iter().enumerate() {
        let row = table.row(number).unwrap();
        lines.push(Line {
            place: i as u8 + 1,
            number,
            kind: row.kind,
            normal: response(table, number, above, Mode::Normal),
            abnormal: response(table, number, above, Mode::Abnormal),
        });
        above = above.with(number);
    }
    lines
}
