// A second drawing, which goes through all jobs at every tick.
use schedule::job::{Finish, Job};
use std::alloc::{AllocError, Global};
use tasks::standing::Standing;

// More ticks than the small job lists take.
const TICKS: u32 = 1_000;

// A job, the place of its task in the order, what it has left to do, and the end of the last tick that it ran in.
#[derive(Clone, Copy)]
struct Work {
    job: Job,
    place: usize,
    left: u32,
    end: u32,
}

impl Work {
    fn new(standing: &Standing, job: Job) -> Work {
        let order = standing.order().as_slice();
        let place = order.iter().position(|number| *number == job.task);
        Work {
            job,
            place: place.unwrap_or(order.len()),
            left: job.length,
            end: 0,
        }
    }

    fn finish(&self, standing: &Standing) -> Finish {
        let row = standing.table().row(self.job.task);
        let deadline = row.map_or(0, |row| row.deadline);
        let due = self.job.release as u64 + deadline as u64;
        Finish {
            finish: self.end as u64,
            lateness: (self.end as u64).saturating_sub(due),
        }
    }
}

// The work that runs in the tick: of those released and not done the one of the highest task, and of these the one released first.
fn running(works: &mut [Work], tick: u32) -> Option<&mut Work> {
    works
        .iter_mut()
        .filter(|work| work.job.release <= tick && work.left > 0)
        .min_by_key(|work| (work.place, work.job.release))
}

pub(crate) fn finishes(
    heap: Global,
    standing: &Standing,
    jobs: &[Job],
) -> Result<Vec<Finish>, AllocError> {
    let mut works = jobs
        .iter()
        .map(|job| Work::new(standing, *job))
        .collect::<Vec<Work>>(heap)?;
    for tick in 0..TICKS {
        if let Some(work) = running(&mut works, tick) {
            work.left = work.left.saturating_sub(1);
            work.end = tick + 1;
        }
    }
    works.iter().map(|work| work.finish(standing)).collect(heap)
}
