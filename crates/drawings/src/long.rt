// The longest job lists, where every finish is known beforehand.
use crate::lists::{Lengths, hold};
use crate::rosters::{job, standing_of, timed};
use schedule::job::{Finish, Job};
use std::alloc::{AllocError, Global};
use tasks::record::LONGEST;
use tasks::row::Row;
use tasks::standing::Standing;

const JOBS: usize = 4_096;

const TASKS: u8 = 32;
// of each task, where there are 32
const ROUNDS: u32 = 128;

// As many jobs as a timetable is drawn for, and the finish that each is to have. A drawing takes the jobs alone and gives the finishes
// alone, so they stand in two lists and not in pairs.
#[derive(Drop)]
struct Plan {
    jobs: Vec<Job>,
    finishes: Vec<Finish>,
}

impl Plan {
    fn new(heap: Global) -> Plan {
        Plan {
            jobs: Vec::new(heap),
            finishes: Vec::new(heap),
        }
    }

    // A job that is to end at a tick; its deadline is its period.
    fn push(&mut self, job: Job, period: u32, end: u64) -> Result<(), AllocError> {
        self.jobs.push(job)?;
        self.finishes.push(Finish {
            finish: end,
            lateness: end.saturating_sub(job.release as u64 + period as u64),
        })?;
        Ok(())
    }
}

// Draws the plan, also with the jobs listed the other way round.
fn tell(rt: &HostRuntime, name: &str, standing: &Standing, mut plan: Plan) -> anyhow::Result<()> {
    let lengths = Lengths::all(JOBS);
    hold(rt.alloc(), standing, &plan.jobs, &plan.finishes, lengths)?;
    plan.jobs.reverse();
    plan.finishes.reverse();
    hold(rt.alloc(), standing, &plan.jobs, &plan.finishes, lengths)?;
    let ends = plan.finishes.iter().map(|finish| finish.finish);
    let last = ends.max().unwrap_or(0);
    println!(rt; "{name}: last finish {last}")?;
    Ok(())
}

// The first tasks in this order, all with one period.
fn first_tasks(heap: Global, count: u8, period: u32) -> anyhow::Result<Standing> {
    let row = timed(LONGEST, period, period);
    let tasks = (0..count)
        .map(|number| (number, row))
        .collect::<Vec<(u8, Row)>>(heap)?;
    Ok(standing_of(&tasks)?)
}

// Each job waits for all that are released before it.
fn one_task(heap: Global, first: u32, period: u32) -> Result<Plan, AllocError> {
    let mut plan = Plan::new(heap);
    let mut release = first;
    let mut end = first as u64;
    for _ in 0..JOBS {
        end = end.saturating_add(LONGEST as u64);
        plan.push(job(0, release, LONGEST), period, end)?;
        release = release.saturating_add(period);
    }
    Ok(plan)
}

// The tasks release together and each job keeps the processor for a whole period or more, so that the tasks are done one after the other.
fn task_by_task(heap: Global, first: u32, period: u32) -> Result<Plan, AllocError> {
    let mut plan = Plan::new(heap);
    let mut end = first as u64;
    for task in 0..TASKS {
        let mut release = first;
        for _ in 0..ROUNDS {
            end = end.saturating_add(LONGEST as u64);
            plan.push(job(task, release, LONGEST), period, end)?;
            release = release.saturating_add(period);
        }
    }
    Ok(plan)
}

// In each round the lowest task is released first, and every 10,000 ticks the next higher one interrupts it: they end from the highest
// down, the highest after its 30,000 ticks and each other after the 20,000 that it has left.
fn interrupted(heap: Global, first: u32) -> Result<Plan, AllocError> {
    let mut plan = Plan::new(heap);
    let mut round = first;
    for _ in 0..ROUNDS {
        let mut release = round.saturating_add(310_000);
        let mut end = release as u64 + 30_000;
        for task in 0..TASKS {
            plan.push(job(task, release, 30_000), LONGEST, end)?;
            release = release.saturating_sub(10_000);
            end = end.saturating_add(20_000);
        }
        round = round.saturating_add(LONGEST);
    }
    Ok(plan)
}

pub(crate) fn draw_longest(rt: &HostRuntime) -> anyhow::Result<()> {
    let heap = rt.alloc();
    let standing = first_tasks(heap, 1, 244_140)?;
    tell(rt, "one task", &standing, one_task(heap, 0, 244_140)?)?;
    let standing = first_tasks(heap, TASKS, 1)?;
    tell(
        rt,
        "one task of 32, late",
        &standing,
        one_task(heap, 999_995_905, 1)?,
    )?;
    tell(
        rt,
        "32 tasks, late",
        &standing,
        task_by_task(heap, 999_999_873, 1)?,
    )?;
    let standing = first_tasks(heap, TASKS, LONGEST)?;
    tell(
        rt,
        "32 tasks",
        &standing,
        task_by_task(heap, 873_000_000, LONGEST)?,
    )?;
    tell(
        rt,
        "32 tasks, interrupted",
        &standing,
        interrupted(heap, 872_690_000)?,
    )
}
