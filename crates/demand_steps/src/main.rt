// Counts the demand sums that the search for a response time makes below bad sets of tasks, with the longest deadline. The counts are
// measured here, over the public call of the library, and not proved.
#![tactic(auto)]

use anyhow::ensure;
use demand::mode::{Mode, WHOLE};
use demand::{demand, response};
use samples::row::row;
use tasks::kind::Kind;
use tasks::record::{LAST, LONGEST};
use tasks::set::TaskSet;
use tasks::table::Table;

// The last task, the tasks above it, and where the search begins, if it does.
#[derive(Clone, Copy)]
struct Search {
    table: Table,
    above: TaskSet,
    first: Option<u64>,
}

#[derive(Clone, Copy)]
struct Walk {
    sums: u32,
    answer: Option<u32>,
}

impl Search {
    // Each task above is its cost and its period.
    fn new(cost: u32, loads: &[(u32, u32)]) -> anyhow::Result<Search> {
        let mut table = Table::empty();
        table.enter(LAST, row(Kind::Strict, cost, cost, 0, LONGEST))?;
        let mut taken = 0u64;
        for (number, (cost, period)) in (0..LAST).zip(loads) {
            table.enter(number, row(Kind::Strict, *cost, *cost, 0, *period))?;
            taken = taken.saturating_add(*cost as u64 * WHOLE / *period as u64);
        }
        Ok(Search {
            table,
            above: table.tasks().without(LAST),
            first: (taken < WHOLE).then(|| (cost as u64 * WHOLE).div_ceil(WHOLE - taken)),
        })
    }

    fn demand(&self, t: u32) -> u64 {
        demand(&self.table, LAST, self.above, Mode::Normal, t).unwrap_or(0)
    }

    // The walk of `response`, with its sums counted.
    fn walk(&self) -> Walk {
        let end = LONGEST as u64;
        let mut t = match self.first {
            Some(first) if first <= end => first as u32,
            _ => return Walk {
                sums: 0,
                answer: None,
            },
        };
        // t rises with each sum, so the walk ends within these turns
        for sums in 1..=LONGEST {
            let asked = self.demand(t);
            if asked <= t as u64 {
                return Walk {
                    sums,
                    answer: Some(t),
                };
            }
            if asked > end {
                return Walk { sums, answer: None };
            }
            t = asked as u32;
        }
        Walk {
            sums: LONGEST,
            answer: None,
        }
    }

    // One sum for each value of the demand up to the deadline, and one that finds the last value again.
    fn most_sums(&self) -> u32 {
        let mut most = 1;
        let mut last = 0;
        for t in 1..=LONGEST {
            let asked = self.demand(t);
            if asked > last {
                most += 1;
                last = asked;
            }
        }
        most
    }
}

fn tell(rt: &HostRuntime, name: &str, cost: u32, loads: &[(u32, u32)]) -> anyhow::Result<()> {
    let search = Search::new(cost, loads)?;
    let Walk { sums, answer } = search.walk();
    let most = search.most_sums();
    ensure!(
        answer == response(&search.table, LAST, search.above, Mode::Normal),
        "the walk does not end at the response time"
    );
    ensure!(
        sums <= most,
        "the walk makes more sums than the demand has values"
    );
    match answer {
        Some(time) => println!(rt; "{name}: {sums} of at most {most}, response {time}")?,
        None => println!(rt; "{name}: {sums} of at most {most}, response absent")?,
    }
    Ok(())
}

fn run(rt: &HostRuntime) -> anyhow::Result<()> {
    tell(rt, "nothing above", 1_000_000, &[])?;
    tell(rt, "period 1", 1, &[(1, 1)])?;
    tell(rt, "above the processor", 1, &[(2, 3), (2, 3)])?;
    tell(rt, "exactly the processor", 1, &[(1, 2), (1, 3), (1, 6)])?;
    tell(rt, "one task of 999 in 1000", 1_000, &[(999, 1_000)])?;
    tell(rt, "31 tasks of 1 in 32", 31_250, &[(1, 32); 31])?;
    tell(rt, "31 tasks of 1 in 31", 1, &[(1, 31); 31])?;
    tell(
        rt,
        "31 bursts, no slack",
        31_281,
        &[(31_249, 1_000_000); 31],
    )?;
    tell(
        rt,
        "burst, short jobs",
        250_000,
        &[(1, 2), (249_999, 1_000_000)],
    )?;
    tell(rt, "doubled periods", 1, &[(1, 2), (1, 4), (1, 8), (1, 16)])?;
    tell(rt, "four periods", 1, &[(1, 2), (1, 3), (1, 7), (1, 43)])?;
    let mut five = [(1, 2), (1, 3), (1, 7), (1, 43), (1, 1_810)];
    tell(rt, "five periods", 1, &five)?;
    five[4] = (1, 1_809);
    tell(rt, "five periods, tighter", 1, &five)?;
    five[4] = (1, 1_900);
    let mut all = [(1, 1_000_000); 31];
    all[0..5].copy_from_slice(&five);
    tell(rt, "five periods and 26 long", 1, &all)?;
    Ok(())
}

fn main(rt: HostRuntime) -> anyhow::Result<()> {
    run(&rt)
}
