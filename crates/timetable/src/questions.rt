// The questions that a list of jobs is asked before a timetable is drawn.
ghost use Rattle.std.specs.Prelude.{◌≡◌, ℕ, ◌<◌, length, Ok, Err, Decides, MatchResult};
ghost use Rattle.schedule.specs.Jobs.{job_at, InBounds, Apart};
ghost use Rattle.timetable.specs.Questions.{Room, Accepted, Refused, OneAnswer};
ghost use Rattle.timetable.specs.declared.fault.TimetableFault.{TimetableFault};

use crate::fault::TimetableFault;
use schedule::job::Job;
use tasks::row::Row;
use tasks::standing::Standing;

// The most jobs that a timetable is drawn for.
pub const MOST_JOBS: usize = 4_096;

// The last tick in which a job may be released.
pub const LAST_RELEASE: u32 = 1_000_000_000;

// Whether a timetable can be drawn of these jobs with a finish list and two working lists of these lengths; if not, the first question that
// is answered no.
pub fn check(
    standing: &Standing,
    jobs: &[Job],
    finishes: usize,
    coming: usize,
    waiting: usize,
) -> Result<(), TimetableFault>
    ensures outcome { MatchResult result (λ _. Accepted standing.now.table.places jobs.now finishes coming waiting) (Refused standing.now.table.places jobs.now finishes coming waiting) }
    ensures one_refusal { (f : TimetableFault) → Refused standing.now.table.places jobs.now finishes coming waiting f → result ≡ Err f }
{
    if !has_room(jobs.len(), finishes, coming, waiting) {
        return Err(TimetableFault::Space(jobs.len()));
    }
    for (i, job) in jobs.iter().enumerate() {
        let row = standing
            .table()
            .row(job.task)
            .ok_or(TimetableFault::Task(i))?;
        if !is_in_bounds(row, *job) {
            return Err(TimetableFault::Times(i));
        }
        if !is_spaced(row, *job, &jobs[..i]) {
            return Err(TimetableFault::Distance(i));
        }
    }
    Ok(())
}

// Whether there are not too many jobs, and the lists are as long as theirs or longer. The three lengths stay numbers, since each is asked
// for once, here: a struct would be filled for one line.
fn has_room(jobs: usize, finishes: usize, coming: usize, waiting: usize) -> bool
    ensures { Decides result (Room jobs finishes coming waiting) }
{
    jobs <= MOST_JOBS && jobs <= finishes && jobs <= coming && jobs <= waiting
}

// Whether the release and the length of a job of this task are within their bounds.
fn is_in_bounds(row: Row, job: Job) -> bool
    ensures { Decides result (InBounds row job) }
{
    job.release <= LAST_RELEASE && 1 <= job.length && job.length <= row.abnormal
}

// Whether a job is at least a period from each job of its task among the earlier ones.
fn is_spaced(row: Row, job: Job, earlier: &[Job]) -> bool
    ensures { Decides result ((e : ℕ) → e < length earlier.now → (job_at earlier.now e).task ≡ job.task → Apart row (job_at earlier.now e) job) }
{
    earlier.iter().all(|other| other.task != job.task
        || row.period <= other.release.abs_diff(job.release))
}

// A job list is accepted, or refused by one question. Holds a contract; there is nothing to run.
pub fn one_answer()
    ensures { OneAnswer }
{}
