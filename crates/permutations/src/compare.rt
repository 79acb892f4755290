// Plan and judge on one table, against every order of its tasks.
use crate::naive::{Candidate, No, ask_each, candidates, order_at, orders_of};
use anyhow::ensure;
use own_test::few_above::FewAbove;
use priority::fault::PlanFault;
use priority::judge::judge;
use priority::plan::plan;
use schedulability::test::Test;
use std::alloc::Global;
use tasks::order::Order;
use tasks::record::LAST;
use tasks::refusal::{Fault, Layer, Refusal};
use tasks::set::TaskSet;
use tasks::table::Table;

// The number of the first order that passes. Where none does, the tasks above the longest run of places, from the lowest up, that pass in
// any order. Fails at the first order that is not judged as its places are.
fn all_orders<T: Test>(
    heap: Global,
    table: &Table,
    tried: &[Candidate],
    test: &mut T,
) -> anyhow::Result<Result<usize, TaskSet>> {
    let mut first = None;
    let mut highest: Option<No> = None;
    for index in 0..orders_of(tried.len()).get() {
        let order = order_at(heap, tried, index)?;
        let noes = ask_each(table, &order, test);
        ensure!(
            judge(table, &order, test) == Ok(noes.map(|noes| noes.first.place)),
            "an order is judged otherwise"
        );
        match noes {
            None => first = first.or(Some(index)),
            Some(noes) => {
                if highest.is_none_or(|no| noes.last.place < no.place) {
                    highest = Some(noes.last);
                }
            }
        }
    }
    Ok(first.ok_or(highest.map_or(TaskSet::empty(), |no| no.tasks)))
}

// A refusal of the roster's questions that is told with no task, written out and not made by the library.
fn without_task(number: u8) -> Refusal {
    Refusal {
        number,
        layer: Layer::Roster,
        place: 0,
        innermost: number,
    }
}

// Whether plan answers with this order, or with its refusal and these tasks left.
pub(crate) fn is_answer(
    planned: &Result<Order, PlanFault>,
    wanted: Result<&[u8], TaskSet>,
) -> bool {
    match (planned, wanted) {
        (Ok(found), Ok(order)) => found.as_slice() == order,
        (Err(fault), Err(left)) => fault.refusal() == without_task(7) && fault.left == left,
        _ => false,
    }
}

// Whether there is a plan. It is the first order that passes; where none does, it is refused with the tasks above the longest run that
// passes.
pub(crate) fn compare<T: Test>(heap: Global, table: &Table, test: &mut T) -> anyhow::Result<bool> {
    let tried = candidates(heap, table)?;
    let first = all_orders(heap, table, &tried, test)?;
    let order = order_at(heap, &tried, first.unwrap_or(0))?;
    let planned = plan(table, test);
    ensure!(
        is_answer(&planned, first.map(|_| order.as_slice())),
        "the plan is another"
    );
    ensure!(
        refuses_others(table, &order, test) && refuses_unasked(table, &order),
        "a list that is no order is judged"
    );
    Ok(planned.is_ok())
}

fn is_no_order<T: Test>(table: &Table, numbers: &[u8], test: &mut T) -> bool {
    judge(table, numbers, test).is_err_and(|fault| fault.refusal() == without_task(18))
}

// Whether judge refuses the numbers with each of some more after them.
fn refuses_more<T: Test>(table: &Table, numbers: &[u8], more: &[u8], test: &mut T) -> bool {
    more.iter().all(|number| {
        Order::from_slice(numbers).is_some_and(|mut longer| {
            longer.push(*number) && is_no_order(table, longer.as_slice(), test)
        })
    })
}

// The lowest number of an empty place.
fn unknown(table: &Table) -> u8 {
    (0..=LAST)
        .find(|number| table.row(*number).is_none())
        .unwrap_or(LAST + 1)
}

// Whether judge refuses lists with a task missing, a task twice, a number that has no task, and the empty list, made of an order.
fn refuses_others<T: Test>(table: &Table, order: &[u8], test: &mut T) -> bool {
    let strangers = [unknown(table), LAST + 1, u8::MAX];
    let too_many = refuses_more(table, order, &strangers, test)
        && refuses_more(table, order, order, test);
    let [_, rest @ ..] = order else {
        return too_many;
    };
    too_many
        && is_no_order(table, &[], test)
        && is_no_order(table, rest, test)
        && refuses_more(table, rest, &strangers, test)
        && refuses_more(table, rest, rest, test)
}

// Whether it does so before the test is asked.
fn refuses_unasked(table: &Table, order: &[u8]) -> bool {
    let mut test = FewAbove::new(u32::MAX);
    refuses_others(table, order, &mut test) && test.asked() == 0
}
