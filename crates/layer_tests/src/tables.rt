// The tables that the cases are about.
use samples::roster::Roster;
use samples::row::row;
use std::test::Fail;
use tasks::kind::Kind;
use tasks::row::Row;
use tasks::set::TaskSet;
use tasks::table::Table;

fn table_of(tasks: &[(u8, Row)]) -> Result<Table, Fail> {
    Ok(*Roster::of(tasks)?.standing().table())
}

// Task 1 is tolerable and task 2 strict, and both are in time in any order.
pub(crate) fn roomy() -> Result<Table, Fail> {
    table_of(&[
        (1, row(Kind::Tolerable, 1, 1, 0, 100)),
        (2, row(Kind::Strict, 1, 1, 0, 100)),
    ])
}

// Task 1 is tolerable and task 2 strict, and only the order 2, 1 keeps the guarantee.
pub(crate) fn tight() -> Result<Table, Fail> {
    table_of(&[
        (1, row(Kind::Tolerable, 3, 9, 0, 10)),
        (2, row(Kind::Strict, 3, 6, 0, 12)),
    ])
}

// Task 4 may hold up task 3 by its section.
pub(crate) fn blocking(section: u32) -> Result<Table, Fail> {
    table_of(&[
        (3, row(Kind::Strict, 2, 2, 0, 5)),
        (4, row(Kind::Strict, 4, 4, section, 20)),
    ])
}

pub(crate) fn only(number: u8) -> TaskSet {
    TaskSet::empty().with(number)
}
