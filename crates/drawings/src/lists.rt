// The three lists that a drawing writes.
use anyhow::ensure;
use schedule::job::{Finish, Job};
use std::alloc::{AllocError, Global};
use tasks::standing::Standing;
use timetable::drawing::draw;
use timetable::entry::{Coming, Waiting};
use timetable::fault::TimetableFault;

// What stands in the lists before a drawing.
const OLD_FINISH: Finish = Finish {
    finish: 7,
    lateness: 11,
};

const OLD_COMING: Coming = Coming {
    release: 77,
    index: 5_000,
};

const OLD_WAITING: Waiting = Waiting {
    place: 5,
    release: 13,
    index: 5_000,
    left: 3,
};

// All zeros, written out and not made by the library.
const NO_COMING: Coming = Coming {
    release: 0,
    index: 0,
};

const NO_WAITING: Waiting = Waiting {
    place: 0,
    release: 0,
    index: 0,
    left: 0,
};

#[derive(Clone, Copy)]
pub(crate) struct Lengths {
    pub(crate) finishes: usize,
    pub(crate) coming: usize,
    pub(crate) waiting: usize,
}

impl Lengths {
    // The same for each list.
    pub(crate) fn all(len: usize) -> Lengths {
        Lengths {
            finishes: len,
            coming: len,
            waiting: len,
        }
    }
}

#[derive(Drop)]
pub(crate) struct Lists {
    finishes: Vec<Finish>,
    coming: Vec<Coming>,
    waiting: Vec<Waiting>,
}

impl Lists {
    // Lists of these lengths that hold rubbish.
    pub(crate) fn new(heap: Global, lengths: Lengths) -> Result<Lists, AllocError> {
        Ok(Lists {
            finishes: vec![in heap; OLD_FINISH; lengths.finishes]?,
            coming: vec![in heap; OLD_COMING; lengths.coming]?,
            waiting: vec![in heap; OLD_WAITING; lengths.waiting]?,
        })
    }

    pub(crate) fn fill(&mut self, standing: &Standing, jobs: &[Job]) -> Result<(), TimetableFault> {
        draw(
            standing,
            jobs,
            &mut self.finishes,
            &mut self.coming,
            &mut self.waiting,
        )
    }

    // Whether the finish list begins with these finishes and then holds what it held.
    fn begins_with(&self, finishes: &[Finish]) -> bool {
        self.finishes
            .strip_prefix(finishes)
            .is_some_and(|rest| rest.iter().all(|finish| *finish == OLD_FINISH))
    }

    // Whether the working lists hold nothing but these two entries.
    fn works_hold(&self, release: Coming, turn: Waiting) -> bool {
        self.coming.iter().all(|entry| *entry == release)
            && self.waiting.iter().all(|entry| *entry == turn)
    }

    pub(crate) fn is_untouched(&self) -> bool {
        self.begins_with(&[]) && self.works_hold(OLD_COMING, OLD_WAITING)
    }
}

// Draws the jobs with lists of these lengths, and ends with an error unless all three lists are then as they are to be.
pub(crate) fn hold(
    heap: Global,
    standing: &Standing,
    jobs: &[Job],
    finishes: &[Finish],
    lengths: Lengths,
) -> anyhow::Result<()> {
    let mut lists = Lists::new(heap, lengths)?;
    lists.fill(standing, jobs)?;
    ensure!(
        finishes.len() == jobs.len() && lists.begins_with(finishes),
        "a finish list differs"
    );
    ensure!(
        lists.works_hold(NO_COMING, NO_WAITING),
        "a working list is not all zeros"
    );
    Ok(())
}
