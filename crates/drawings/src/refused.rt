// Job lists for which no timetable is drawn. Each leaves all three lists as they were.
use crate::lists::{Lengths, Lists};
use crate::rosters::{job, two_tasks};
use anyhow::{bail, ensure};
use schedule::job::Job;
use std::alloc::Global;
use tasks::refusal::{Fault, Layer, Refusal};
use tasks::standing::Standing;

// Ends with an error unless the drawing is refused with this number and place, and leaves the lists alone.
fn refuse(
    heap: Global,
    standing: &Standing,
    jobs: &[Job],
    lengths: Lengths,
    number: u8,
    place: usize,
) -> anyhow::Result<()> {
    let mut lists = Lists::new(heap, lengths)?;
    let Err(fault) = lists.fill(standing, jobs) else {
        bail!("a drawing is accepted");
    };
    // written out, and not made by the library
    let told = Refusal {
        number,
        layer: Layer::Timetable,
        place,
        innermost: number,
    };
    ensure!(fault.refusal() == told, "another refusal is told");
    ensure!(lists.is_untouched(), "a refused drawing changed a list");
    Ok(())
}

// The space is asked about before any job is.
fn refuse_space(heap: Global, standing: &Standing) -> anyhow::Result<()> {
    let jobs = [job(40, 0, 0); 2];
    let two = Lengths::all(2);
    // one at least is too short for two jobs
    let short = [
        Lengths { finishes: 1, ..two },
        Lengths { coming: 1, ..two },
        Lengths { waiting: 1, ..two },
        Lengths::all(0),
    ];
    for lengths in short {
        refuse(heap, standing, &jobs, lengths, 8, 2)?;
    }
    let many = vec![in heap; job(1, 0, 1); 4_097]?;
    refuse(heap, standing, &many, Lengths::all(4_097), 8, 4_097)
}

fn refuse_jobs(heap: Global, standing: &Standing) -> anyhow::Result<()> {
    let good = job(2, 0, 6);
    // three jobs, and the number and the index that are told
    let cases = [
        // a job's questions come before those of the next job, and its task before its times
        (job(1, 0, 10), job(3, 0, 1), good, 10, 0),
        (job(3, 0, 0), job(1, 0, 10), good, 9, 0),
        (good, job(40, 0, 1), job(1, 0, 0), 9, 1),
        (good, job(1, 0, 9), job(255, 0, 1), 9, 2),
        (good, job(1, 1_000_000_001, 1), job(1, 0, 1), 10, 1),
        (good, job(1, 0, 0), job(1, 0, 1), 10, 1),
        (good, job(2, 1, 7), job(1, 0, 1), 10, 1),
        // of two jobs too close the later listed is told, whichever is released first
        (job(1, 0, 1), job(1, 9, 1), good, 11, 1),
        (job(1, 9, 1), job(1, 0, 1), good, 11, 1),
        (job(1, 5, 1), job(1, 5, 1), good, 11, 1),
        (job(1, 20, 1), job(2, 20, 1), job(1, 29, 1), 11, 2),
        (job(2, 30, 1), job(1, 20, 1), job(2, 19, 1), 11, 2),
    ];
    for (a, b, c, number, place) in cases {
        refuse(heap, standing, &[a, b, c], Lengths::all(3), number, place)?;
    }
    Ok(())
}

pub(crate) fn refuse_all(rt: &HostRuntime) -> anyhow::Result<()> {
    let standing = two_tasks()?;
    refuse_space(rt.alloc(), &standing)?;
    refuse_jobs(rt.alloc(), &standing)?;
    println!(rt; "refusals: 17 as told, each with its lists kept")?;
    Ok(())
}
