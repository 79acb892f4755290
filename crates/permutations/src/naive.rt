// Every order of a table's tasks, by its number, and what a test says at each of its places. Nothing of the library's planning is used.
use schedulability::test::Test;
use std::alloc::{AllocError, Global};
use std::num::NonZeroUsize;
use tasks::record::LAST;
use tasks::set::TaskSet;
use tasks::table::Table;

#[derive(Clone, Copy, PartialEq, Eq, PartialOrd, Ord)]
pub(crate) struct Candidate {
    deadline: u32,
    number: u8,
}

// The tasks as they are tried at each place: the longest deadline first, of equal deadlines the higher number.
pub(crate) fn candidates(heap: Global, table: &Table) -> Result<Vec<Candidate>, AllocError> {
    let mut tried = (0..=LAST)
        .filter_map(|number| {
            let deadline = table.row(number)?.deadline;
            Some(Candidate { deadline, number })
        })
        .collect::<Vec<Candidate>>(heap)?;
    tried.sort()?;
    tried.reverse();
    Ok(tried)
}

// How many orders so many tasks have.
pub(crate) fn orders_of(tasks: usize) -> NonZeroUsize {
    (1..=tasks)
        .filter_map(NonZeroUsize::new)
        .fold(NonZeroUsize::MIN, NonZeroUsize::saturating_mul)
}

// The order of a number, in the sequence of what stands at the lowest place, then at the one above it, and so on: at each place each
// choice is followed by every order of the others left.
pub(crate) fn order_at(
    heap: Global,
    tried: &[Candidate],
    index: usize,
) -> Result<Vec<u8>, AllocError> {
    let mut left = Vec::from_slice(heap, tried)?;
    let mut order = Vec::new(heap);
    while !left.is_empty() {
        let choice = index / orders_of(left.len() - 1) % left.len();
        order.push(left.remove(choice).number)?;
    }
    order.reverse();
    Ok(order)
}

// A place, counted from 1, whose task does not pass, and the tasks up to it.
#[derive(Clone, Copy)]
pub(crate) struct No {
    pub(crate) place: usize,
    pub(crate) tasks: TaskSet,
}

// What a test says of an order that does not pass. The places below the last no are the run, from the lowest up, that pass.
#[derive(Clone, Copy)]
pub(crate) struct Noes {
    pub(crate) first: No,
    pub(crate) last: No,
}

// Asks at every place, whatever was said before; none where the order passes.
pub(crate) fn ask_each<T: Test>(table: &Table, order: &[u8], test: &mut T) -> Option<Noes> {
    let mut noes: Option<Noes> = None;
    // bits of its own, and not by the library's `with`
    let mut above = 0;
    for (i, task) in order.iter().enumerate() {
        let passes = test.passes(table, *task, TaskSet { bits: above });
        above |= 1u32.wrapping_shl(u32::from(*task));
        if !passes {
            let last = No {
                place: i + 1,
                tasks: TaskSet { bits: above },
            };
            let first = noes.map_or(last, |noes| noes.first);
            noes = Some(Noes { first, last });
        }
    }
    noes
}
