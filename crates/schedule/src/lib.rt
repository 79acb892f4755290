// Jobs, the schedule that an order of tasks gives them, and what the analysis of demand says of it.
#![tactic(auto)]

ghost use Rattle.schedule.specs.Analysis.{AnalysisSound};
ghost use Rattle.schedule.specs.Existence.{OneSchedule};

pub mod job;

// Every lawful list of jobs has one schedule, and in it every job has one finish. Holds a contract; there is nothing to run.
pub fn one_schedule()
    ensures { OneSchedule }
{}

// In every schedule of a lawful list of jobs, a task that passes the demand test is never late. Holds a contract.
pub fn analysis_sound()
    ensures { AnalysisSound }
{}
