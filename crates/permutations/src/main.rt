// Compares the plan of small tables with every order of their tasks, and the judging of every order with asking at each place, for
// several tests. What agrees here is measured, and not proved.
#![tactic(auto)]

mod cases;
mod compare;
mod naive;
mod tables;

use crate::cases::worked_cases;
use crate::compare::compare;
use crate::naive::orders_of;
use crate::tables::any_table;
use demand::mode::Mode;
use own_test::few_above::FewAbove;
use own_test::layered::layered;
use samples::draws::Draws;
use schedulability::pair::Pair;
use schedulability::reserve::Reserve;
use schedulability::strict_only::StrictOnly;
use schedulability::test::Test;
use tests::guarantee::guarantee;
use tests::load::Load;
use tests::response::InTime;
use tests::sections::Sections;

// Tables have 0 to 6 tasks, in turn.
const SIZES: u32 = 7;

const TABLES: u32 = 300 * SIZES;

// The tables are the same for every test, and go by their number from 0.
fn tell<T: Test + Drop>(rt: &HostRuntime, name: &str, mut test: T) -> anyhow::Result<()> {
    let mut draws = Draws::new(2_024);
    let mut planned = 0u32;
    let mut judged = 0usize;
    for number in 0..TABLES {
        let size = (number % SIZES) as u8;
        let table = any_table(&mut draws, size)?;
        match compare(rt.alloc(), &table, &mut test) {
            Ok(has_plan) => planned = planned.saturating_add(has_plan as u32),
            Err(difference) => {
                eprintln!(rt; "{name}, table {number}")?;
                return Err(difference);
            }
        }
        judged = judged.saturating_add(orders_of(size as usize).get());
    }
    let refused = TABLES.saturating_sub(planned);
    println!(rt;
        "{name}: {TABLES} tables, {planned} planned, {refused} refused, {judged} orders judged"
    )?;
    Ok(())
}

fn run(rt: &HostRuntime) -> anyhow::Result<()> {
    worked_cases(rt.alloc())?;
    println!(rt; "worked cases: as worked out")?;
    tell(rt, "guarantee", guarantee())?;
    tell(rt, "sections", Sections)?;
    tell(rt, "normal", InTime::new(Mode::Normal))?;
    let both = Pair {
        first: InTime::new(Mode::Normal),
        second: Sections,
    };
    tell(
        rt,
        "load and pair",
        Pair {
            first: Load::new(900_000).unwrap(),
            second: both,
        },
    )?;
    let reserve = Reserve::new(4, guarantee()).unwrap();
    tell(rt, "reserve over guarantee", reserve)?;
    tell(
        rt,
        "guarantee and sections",
        Pair {
            first: guarantee(),
            second: Sections,
        },
    )?;
    tell(
        rt,
        "strict-only over sections",
        StrictOnly { below: Sections },
    )?;
    tell(rt, "few above", FewAbove::new(2))?;
    tell(
        rt,
        "layered",
        layered(FewAbove::new(2), InTime::new(Mode::Normal)),
    )
}

fn main(rt: HostRuntime) -> anyhow::Result<()> {
    run(&rt)
}
