// The case worked by hand.
use crate::lists::{Lengths, hold};
use crate::rosters::{job, two_tasks};
use schedule::job::Finish;

fn finish(finish: u64, lateness: u64) -> Finish {
    Finish { finish, lateness }
}

pub(crate) fn draw_case(rt: &HostRuntime) -> anyhow::Result<()> {
    let jobs = [job(1, 0, 9), job(2, 0, 6), job(2, 12, 6), job(1, 10, 3)];
    let finishes = [finish(21, 11), finish(6, 0), finish(18, 0), finish(24, 4)];
    let standing = two_tasks()?;
    let longer = Lengths {
        finishes: 7,
        coming: 6,
        waiting: 9,
    };
    hold(rt.alloc(), &standing, &jobs, &finishes, longer)?;
    hold(rt.alloc(), &standing, &[], &[], longer)?;
    println!(rt; "worked case: finishes 21, 6, 18, 24, lateness 11, 0, 0, 4\nno jobs: accepted")?;
    Ok(())
}
