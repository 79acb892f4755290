// A timetable drawn from event to event, where an event is a release or an end.
ghost use Rattle.std.specs.Prelude.{◌≡◌, ℕ, ◌+◌, ◌-◌, ◌<◌, ◌≤◌, true, false, List, [], length, drop, replicate, if◌then◌else◌, Some, None, Err, sum_by, MatchOption, MatchResult, nat_lt, slice_index_or};
ghost use Rattle.queue.specs.Queues.{entries, capacity, front, SameSpace};
ghost use Rattle.schedule.specs.Jobs.{no_finish, lateness, last_release, JobsLawful};
ghost use Rattle.schedule.specs.Schedule.{Schedule, place, IsSchedule};
ghost use Rattle.std.specs.List.{AllByRecursion};
ghost use Rattle.schedule.specs.declared.job.Finish.{Finish};
ghost use Rattle.timetable.specs.Drawing.{Drawn, Finishes, Comes, is_for, Reached};
ghost use Rattle.timetable.specs.Questions.{most_jobs, Accepted, Refused};
ghost use Rattle.timetable.specs.declared.fault.TimetableFault.{TimetableFault};
ghost use Rattle.timetable.specs.Ranking.{no_coming, no_waiting};
ghost use Rattle.timetable.specs.Workloads.{JobsLawful-prop};
ghost use Rattle.timetable.specs.declared.entry.Coming.{Coming};
ghost use Rattle.tasks.specs.declared.row.Row.{Row};

use crate::entry::{Coming, Waiting};
use crate::fault::TimetableFault;
use crate::questions::check;
use queue::queue::Queue;
use schedule::job::{Finish, Job};
use tasks::order::Order;
use tasks::standing::Standing;

// How many tasks stand before the task in the order.
fn place_of(order: &Order, task: u8) -> usize
    ensures { result ≡ place order.now task }
{
    let numbers = order.as_slice();
    numbers
        .iter()
        .position(|number| *number == task)
        .unwrap_or(numbers.len())
}

// The finish of a job that ends at a tick.
fn finish_at(standing: &Standing, job: Job, end: u64) -> Finish
    ensures finish { result.finish ≡ end }
    ensures lateness { (row : Row) → slice_index_or standing.now.table.places job.task None ≡ Some row → result.lateness ≡ lateness row job end }
{
    let lateness = standing.table().row(job.task).map_or(
        0,
        |row| end.saturating_sub(job.release as u64 + row.deadline as u64),
    );
    Finish {
        finish: end,
        lateness,
    }
}

// The next job to be released, if that is before the tick.
fn first_before(coming: &Queue<'_, Coming>, tick: u64) -> Option<Coming>
    ensures { MatchOption result
        (AllByRecursion (λ (c : Coming). tick ≤ c.release) (entries coming.now))
        (λ n. (Some n ≡ front (entries coming.now)) × (n.release < tick) × AllByRecursion (λ (c : Coming). n.release ≤ c.release) (entries coming.now)) }
{
    coming.first().filter(|next| (next.release as u64) < tick)
}

// The jobs that a timetable is drawn for, with the tasks that they are of. The finish list and the two queues travel apart: the proof of
// `draw` does not learn what a struct of several lent slices leaves in them, be it of one lifetime or of five.
#[derive(Clone, Copy)]
struct Workload<'a> {
    standing: &'a Standing,
    jobs: &'a [Job],
    ghost lawful: { JobsLawful standing.now.table.places jobs.now } by { JobsLawful-prop standing.now jobs.now },
    ghost few: { length jobs.now ≤ most_jobs },
}

impl Workload<'_> {
    // Whether a job is due; it then waits for its turn.
    fn let_in(
        self,
        coming: &mut Queue<'_, Coming>,
        waiting: &mut Queue<'_, Waiting>,
        time: u64,
    ) -> bool
        requires coming { AllByRecursion (Comes self.jobs.now time) (entries coming.old) }
        requires room { length (entries coming.old) + length (entries waiting.old) ≤ capacity waiting.old }
        ensures none { result ≡ false → (coming.new ≡ coming.old) × (waiting.new ≡ waiting.old) × AllByRecursion (λ (c : Coming). time < c.release) (entries coming.old) }
        ensures moved { result ≡ true → (length (entries coming.old) ≡ length (entries coming.new) + 1) × (length (entries waiting.new) ≡ length (entries waiting.old) + 1) }
        ensures reached { (fs : List Finish) → Reached self.entry.standing.now self.entry.jobs.now fs time (entries coming.old) (entries waiting.old) → Reached self.entry.standing.now self.entry.jobs.now fs time (entries coming.new) (entries waiting.new) }
        ensures coming { SameSpace coming.old coming.new }
        ensures waiting { SameSpace waiting.old waiting.new }
    {
        let Some(next) = coming.first() else {
            return false;
        };
        if next.release as u64 > time {
            return false;
        }
        let _ = coming.take_first();
        let job = self.jobs[next.index];
        waiting.insert(Waiting {
            place: place_of(self.standing.order(), job.task),
            release: next.release,
            index: next.index,
            left: job.length as u64,
        })
    }

    // Goes on to the next event, where no job is due: the first of the waiting jobs runs until it ends or the next one is released, and the
    // processor is idle where none waits.
    fn advance(
        self,
        finishes: &mut [Finish],
        coming: &Queue<'_, Coming>,
        waiting: &mut Queue<'_, Waiting>,
        time: u64,
    ) -> u64
        requires finishes { length self.jobs.now ≤ length finishes.old }
        requires reached { Reached self.standing.now self.jobs.now finishes.old time (entries coming.now) (entries waiting.old) }
        requires later { AllByRecursion (λ (c : Coming). time < c.release) (entries coming.now) }
        requires some { 1 ≤ length (entries coming.now) + length (entries waiting.old) }
        ensures reached { Reached self.entry.standing.now self.entry.jobs.now finishes.new result (entries coming.now) (entries waiting.new) }
        ensures less { last_release - result + length (entries waiting.new) < last_release - time + length (entries waiting.old) }
        ensures few { length (entries waiting.new) ≤ length (entries waiting.old) }
        ensures waiting { SameSpace waiting.old waiting.new }
        ensures beyond { (k : ℕ) → length self.entry.jobs.now ≤ k → slice_index_or finishes.new k no_finish ≡ slice_index_or finishes.old k no_finish }
    {
        let Some(mut running) = waiting.take_first() else {
            return coming.first().map_or(time, |next| next.release as u64);
        };
        let end = time + running.left;
        if let Some(next) = first_before(coming, end) {
            running.left = end - next.release as u64;
            waiting.insert(running);
            return next.release as u64;
        }
        finishes[running.index] = finish_at(self.standing, self.jobs[running.index], end);
        end
    }

    // From event to event, until every job is finished.
    fn run(
        self,
        finishes: &mut [Finish],
        coming: &mut Queue<'_, Coming>,
        waiting: &mut Queue<'_, Waiting>,
    )
        requires finishes { length self.jobs.now ≤ length finishes.old }
        requires room { length (entries coming.old) + length (entries waiting.old) ≤ capacity waiting.old }
        requires reached { Reached self.standing.now self.jobs.now finishes.old 0 (entries coming.old) (entries waiting.old) }
        ensures finishes { (σ : Schedule) → IsSchedule self.entry.standing.now.order self.entry.jobs.now σ → Finishes self.entry.standing.now.table.places self.entry.jobs.now σ finishes.new }
        ensures beyond { (k : ℕ) → length self.entry.jobs.now ≤ k → slice_index_or finishes.new k no_finish ≡ slice_index_or finishes.old k no_finish }
        ensures coming { (entries coming.new ≡ []) × SameSpace coming.old coming.new }
        ensures waiting { (entries waiting.new ≡ []) × SameSpace waiting.old waiting.new }
    {
        let mut time = 0;
        while !coming.is_empty() || !waiting.is_empty() {
            if self.let_in(coming, waiting, time) {
                continue;
            }
            time = self.advance(finishes, coming, waiting, time);
        }
    }
}

// An entry for each job.
fn fill(jobs: &[Job], coming: &mut Queue<'_, Coming>)
    requires empty { entries coming.old ≡ [] }
    requires room { length jobs.now ≤ capacity coming.old }
    ensures coming { AllByRecursion (Comes jobs.now 0) (entries coming.new) }
    ensures once { (j : ℕ) → sum_by (λ (c : Coming). is_for j c.index) (entries coming.new) ≡ (if nat_lt j (length jobs.now) then 1 else 0) }
    ensures len { length (entries coming.new) ≡ length jobs.now }
    ensures space { SameSpace coming.old coming.new }
{
    for (i, job) in jobs.iter().enumerate() {
        coming.insert(Coming {
            release: job.release,
            index: i,
        });
    }
}

// The finish and the lateness of each job, in the sequence of the job list; the entries of the finish list beyond the jobs keep what they
// hold. The two working lists are overwritten, and hold nothing but zeros in the end. A refused drawing leaves all three as they were.
pub fn draw(
    standing: &Standing,
    jobs: &[Job],
    finishes: &mut [Finish],
    coming: &mut [Coming],
    waiting: &mut [Waiting],
) -> Result<(), TimetableFault>
    ensures outcome { MatchResult result
        (λ _. Accepted standing.now.table.places jobs.now (length finishes.old) (length coming.old) (length waiting.old) × Drawn standing.now jobs.now finishes.new)
        (Refused standing.now.table.places jobs.now (length finishes.old) (length coming.old) (length waiting.old)) }
    ensures beyond { drop (length jobs.now) finishes.new ≡ drop (length jobs.now) finishes.old }
    ensures lists { MatchResult result
        (λ _. (coming.new ≡ replicate (length coming.old) no_coming) × (waiting.new ≡ replicate (length waiting.old) no_waiting))
        (λ _. (finishes.new ≡ finishes.old) × (coming.new ≡ coming.old) × (waiting.new ≡ waiting.old)) }
    ensures one_refusal { (f : TimetableFault) → Refused standing.now.table.places jobs.now (length finishes.old) (length coming.old) (length waiting.old) f → result ≡ Err f }
{
    check(standing, jobs, finishes.len(), coming.len(), waiting.len())?;
    let mut releases = Queue::new(coming, Coming::default());
    let mut turns = Queue::new(waiting, Waiting::default());
    fill(jobs, &mut releases);
    let accepted = Workload { standing, jobs };
    accepted.run(finishes, &mut releases, &mut turns);
    Ok(())
}
