// Writes rosters and reads them back: tables of 0, 1, 2 and 32 tasks, and the tasks of the shipped examples.
#![tactic(auto)]

use anyhow::Context;
use roster_file::read::read;
use roster_file::round_trip::rewrite;
use roster_file::write::{to_vec, write};
use samples::roster::Roster;
use std::fs;
use tasks::fault::SpaceFault;
use tasks::kind::Kind;
use tasks::order::Order;
use tasks::record::LAST;
use tasks::row::Row;
use tasks::standing::Standing;
use tasks::table::Table;

// Longer than every file, so that there is space beyond each.
const SPACE: usize = 800;

// What the space holds before.
const MARK: u8 = 0xa5;

const EXAMPLES: [&str; 3] = [
    "two_tasks.roster",
    "label_press.roster",
    "film_slitter.roster",
];

// Lawful, and with times whose bytes differ, for each number.
fn row(number: u8) -> Row {
    let n = u32::from(number);
    Row {
        kind: if number % 2 == 0 {
            Kind::Tolerable
        } else {
            Kind::Strict
        },
        normal: 66_051 + n,
        abnormal: 263_430 + n,
        section: 1_800 + n,
        deadline: 526_345 + n,
        period: 789_003 + n,
    }
}

// So many tasks, from the last number down, in the order in which they came.
fn roster(tasks: usize) -> anyhow::Result<Standing> {
    let mut roster = Roster::empty();
    for number in (0..=LAST).rev().take(tasks) {
        roster.add(number, row(number))?;
    }
    Ok(roster.standing())
}

// The tasks of a file, ordered by rising number.
fn example(file: &[u8]) -> anyhow::Result<Standing> {
    let mut table = Table::empty();
    let mut order = Order::empty();
    read(file, &mut table, &mut order)
        .ok()
        .context("an example that is refused")?;
    let mut by_number = Order::empty();
    for number in table.tasks() {
        by_number.push(number);
    }
    Standing::new(table, by_number).context("an order that is none")
}

fn is_read_back(file: &[u8], standing: &Standing) -> bool {
    let mut table = Table::empty();
    let mut order = Order::empty();
    read(file, &mut table, &mut order).is_ok()
        && table == *standing.table()
        && order == *standing.order()
}

fn is_untouched(space: &[u8]) -> bool {
    space.iter().all(|byte| *byte == MARK)
}

// Whether a space one byte shorter is refused, with the length told, and left as it was.
fn is_short_refused(short: &mut [u8], standing: &Standing, needed: usize) -> bool {
    write(standing, short) == Err(SpaceFault { needed }) && is_untouched(short)
}

// Whether the file, written again, is the same, and the space beyond it is as it was.
fn is_rewritten(file: &[u8]) -> bool {
    let mut space = [MARK; SPACE];
    rewrite(file, &mut space) == Ok(Some(file.len()))
        && space.strip_prefix(file).is_some_and(is_untouched)
}

fn tell(rt: &HostRuntime, name: &str, standing: &Standing) -> anyhow::Result<()> {
    let file = to_vec(rt.alloc(), standing)?;
    let len = file.len();
    let mut short = vec![in rt.alloc(); MARK; len.saturating_sub(1)]?;
    // a chain, since no question hands a value on: errors and `?` would name each text a second time
    let verdict = if !is_read_back(&file, standing) {
        "not the same when read back"
    } else if !is_rewritten(&file) {
        "not the same when written again"
    } else if !is_short_refused(short.as_mut_slice(), standing, len) {
        "not refused in a space too short"
    } else {
        "the same when read back and when written again"
    };
    let tasks = standing.table().tasks().len();
    println!(rt; "{name}: {tasks} tasks in {len} bytes, {verdict}")?;
    Ok(())
}

fn run(rt: &HostRuntime) -> anyhow::Result<()> {
    for tasks in [0, 1, 2, 32] {
        let standing = roster(tasks)?;
        tell(rt, "made here", &standing)?;
    }
    for name in EXAMPLES {
        let file = fs::read(rt, name)?;
        let standing = example(&file)?;
        tell(rt, name, &standing)?;
    }
    Ok(())
}

fn main(rt: HostRuntime) -> anyhow::Result<()> {
    run(&rt)
}
