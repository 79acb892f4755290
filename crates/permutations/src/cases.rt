// Tables whose plans are worked out by hand.
use crate::compare::{compare, is_answer};
use anyhow::ensure;
use priority::judge::judge;
use priority::plan::plan;
use samples::roster::Roster;
use samples::row::row;
use schedulability::reserve::Reserve;
use schedulability::test::Test;
use std::alloc::Global;
use tasks::kind::Kind;
use tasks::record::LAST;
use tasks::row::Row;
use tasks::set::TaskSet;
use tests::guarantee::guarantee;
use tests::sections::Sections;

// Tasks 1 and 2, written out and not made by the library.
const BOTH: TaskSet = TaskSet {
    bits: 1 << 1 | 1 << 2,
};

// What plan is to answer: an order, or the tasks that are left where it is refused.
fn check<T: Test>(
    heap: Global,
    tasks: &[(u8, Row)],
    test: &mut T,
    wanted: Result<&[u8], TaskSet>,
) -> anyhow::Result<()> {
    let roster = Roster::of(tasks)?;
    let standing = roster.standing();
    let planned = plan(standing.table(), test);
    ensure!(
        is_answer(&planned, wanted),
        "a worked case has another plan"
    );
    compare(heap, standing.table(), test)?;
    Ok(())
}

// Task 1 is tolerable and task 2 strict; only the order 2, 1 keeps the guarantee, with 4 ticks to spare.
fn spare_ticks(heap: Global) -> anyhow::Result<()> {
    let tasks = [
        (1, row(Kind::Tolerable, 3, 9, 0, 10)),
        (2, row(Kind::Strict, 3, 6, 0, 12)),
    ];
    check(heap, &tasks, &mut guarantee(), Ok(&[2, 1]))?;
    let mut four = Reserve::new(4, guarantee()).unwrap();
    check(heap, &tasks, &mut four, Ok(&[2, 1]))?;
    let mut five = Reserve::new(5, guarantee()).unwrap();
    check(heap, &tasks, &mut five, Err(BOTH))
}

// A tolerable task of 160 ticks may take 40 of them above a strict one, and not 60; of equal deadlines the higher number is lower.
fn guaranteed(heap: Global) -> anyhow::Result<()> {
    let mut test = guarantee();
    let strict = (2, row(Kind::Strict, 110, 121, 0, 240));
    let long = [(1, row(Kind::Tolerable, 60, 61, 0, 160)), strict];
    check(heap, &long, &mut test, Err(BOTH))?;
    let short = [(1, row(Kind::Tolerable, 40, 41, 0, 160)), strict];
    check(heap, &short, &mut test, Ok(&[1, 2]))?;
    let same = row(Kind::Strict, 1, 1, 0, 4);
    let equal = [(5, same), (6, same)];
    check(heap, &equal, &mut test, Ok(&[5, 6]))?;
    check(heap, &[], &mut test, Ok(&[]))
}

// Task 3 has 3 ticks to wait for the section of task 4.
fn held_up(heap: Global) -> anyhow::Result<()> {
    let quick = (3, row(Kind::Strict, 2, 2, 0, 5));
    let three = [quick, (4, row(Kind::Strict, 4, 4, 3, 20))];
    check(heap, &three, &mut Sections, Ok(&[3, 4]))?;
    let four = [quick, (4, row(Kind::Strict, 4, 4, 4, 20))];
    check(heap, &four, &mut Sections, Err(TaskSet { bits: 1 << 3 }))
}

// Every place is in use, and the shorter deadline is higher. There are too many orders to look at each.
fn full() -> anyhow::Result<()> {
    let mut roster = Roster::empty();
    for number in (0..=LAST).rev() {
        roster.add(number, row(Kind::Strict, 1, 2, 1, 100 - number as u32))?;
    }
    let standing = roster.standing();
    let table = standing.table();
    let order = standing.order().as_slice();
    let mut test = guarantee();
    ensure!(
        is_answer(&plan(table, &mut test), Ok(order)) && judge(table, order, &mut test) == Ok(None),
        "the full table has another plan"
    );
    Ok(())
}

pub(crate) fn worked_cases(heap: Global) -> anyhow::Result<()> {
    spare_ticks(heap)?;
    guaranteed(heap)?;
    held_up(heap)?;
    full()
}
