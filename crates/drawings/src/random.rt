// Small job lists at random.
use crate::lists::{Lengths, hold};
use crate::rosters::{job, timed};
use crate::ticks::finishes;
use samples::draws::Draws;
use samples::roster::Roster;
use schedule::job::Job;
use std::alloc::{AllocError, Global};
use tasks::standing::Standing;
use tasks::table::PLACES;

const LISTS: u32 = 4_000;

// One to four tasks, with any numbers.
fn any_tasks(draws: &mut Draws) -> Standing {
    let mut roster = Roster::empty();
    for _ in 0..1 + draws.below(4) {
        let period = 3 + draws.below(10);
        let row = timed(1 + draws.below(6), 1 + draws.below(period), period);
        // a number that is taken makes a task less
        let _ = roster.add(draws.below(32) as u8, row);
    }
    roster.standing()
}

// A job of any task, in time after those before; `next` has the earliest release for each task number.
fn any_job(draws: &mut Draws, standing: &Standing, next: &mut [u32; PLACES]) -> Option<Job> {
    let order = standing.order().as_slice();
    let number = *order.get(draws.below(12) as usize % order.len().max(1))?;
    let row = standing.table().row(number)?;
    let next = next.get_mut(number as usize)?;
    let release = next.saturating_add(draws.below(5));
    *next = release.saturating_add(row.period);
    Some(job(number, release, 1 + draws.below(row.abnormal)))
}

// One to ten jobs, each put anywhere among those before it.
fn any_jobs(heap: Global, draws: &mut Draws, standing: &Standing) -> Result<Vec<Job>, AllocError> {
    let mut jobs = Vec::new(heap);
    let mut next = [0; PLACES];
    for _ in 0..1 + draws.below(10) {
        if let Some(job) = any_job(draws, standing, &mut next) {
            let at = draws.below(10) as usize;
            jobs.insert(at.min(jobs.len()), job)?;
        }
    }
    Ok(jobs)
}

// Draws one list of jobs at random, and tells how many are late.
fn draw_one(heap: Global, draws: &mut Draws) -> anyhow::Result<usize> {
    let standing = any_tasks(draws);
    let jobs = any_jobs(heap, draws, &standing)?;
    let due = finishes(heap, &standing, &jobs)?;
    let lengths = Lengths {
        finishes: 12,
        coming: 10,
        waiting: 11,
    };
    hold(heap, &standing, &jobs, &due, lengths)?;
    Ok(due.iter().filter(|finish| finish.lateness > 0).count())
}

pub(crate) fn draw_many(rt: &HostRuntime) -> anyhow::Result<()> {
    let mut draws = Draws::new(2_026);
    let mut late = 0usize;
    for _ in 0..LISTS {
        late = late.saturating_add(draw_one(rt.alloc(), &mut draws)?);
    }
    println!(rt; "tick by tick: {LISTS} lists of jobs agree, with {late} late jobs")?;
    Ok(())
}
