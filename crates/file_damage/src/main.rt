// Damages roster files in every byte and by every cut, and holds what the library says of each against a second reader.
#![tactic(auto)]

mod plain;

use crate::plain::holds;
use roster_file::fault::FileFault;
use roster_file::read::read;
use roster_file::write::to_vec;
use samples::roster::Roster;
use tasks::fault::EntryFault;
use tasks::kind::Kind;
use tasks::order::Order;
use tasks::record::LAST;
use tasks::refusal::{Fault, Refusal};
use tasks::row::Row;
use tasks::standing::Standing;
use tasks::table::Table;

// Two tasks with an order, for which a byte may as well name the other task.
const TWO: [u8; 49] = *b"\
    \x01\x02\
    \x01\x00\x03\x00\x00\x00\x09\x00\x00\x00\x00\x00\x00\x00\x0a\x00\x00\x00\x0a\x00\x00\x00\
    \x02\x01\x03\x00\x00\x00\x06\x00\x00\x00\x00\x00\x00\x00\x0c\x00\x00\x00\x0c\x00\x00\x00\
    \x02\x02\x01";

fn inside(fault: FileFault) -> Option<Refusal> {
    match fault {
        FileFault::Entry(located) => Some(located.fault.refusal()),
        _ => None,
    }
}

// Whether both readers say the same of a file.
fn is_agreed(file: &[u8]) -> bool {
    let mut table = Table::empty();
    let mut order = Order::empty();
    let answer = read(file, &mut table, &mut order);
    match (holds(file, &table, &order), answer) {
        (Ok(same), Ok(())) => same,
        (Err(said), Err(fault)) => said.outer == fault.refusal() && said.inner == inside(fault),
        _ => false,
    }
}

// A count of files, and of those that the readers do not agree on.
#[derive(Clone, Copy)]
struct Tally {
    files: u64,
    other: u64,
}

impl Tally {
    fn take(&mut self, file: &[u8]) {
        self.files = self.files.saturating_add(1);
        if !is_agreed(file) {
            self.other = self.other.saturating_add(1);
        }
    }
}

// Every byte at all values, and every cut.
fn damage(file: &mut [u8]) -> Tally {
    let mut tally = Tally { files: 0, other: 0 };
    // by index: the whole file is read while one of its bytes differs
    for at in 0..file.len() {
        let byte = file[at];
        for value in 0..=u8::MAX {
            file[at] = value;
            tally.take(file);
        }
        file[at] = byte;
    }
    for end in 0..=file.len() {
        tally.take(&file[..end]);
    }
    tally
}

// A task in every place, the last number first in the order.
fn full() -> Result<Standing, EntryFault> {
    let mut roster = Roster::empty();
    for k in (0..=LAST).rev() {
        let time = u32::from(k) + 1;
        let row = Row {
            kind: Kind::Strict,
            normal: time,
            abnormal: 256 * time,
            section: 1,
            deadline: 999_000 + time,
            period: 999_900 + time,
        };
        roster.add(k, row)?;
    }
    Ok(roster.standing())
}

fn tell(rt: &HostRuntime, name: &str, file: &mut [u8]) -> anyhow::Result<()> {
    let Tally { files, other } = damage(file);
    println!(rt; "{name}: {files} files, {other} read otherwise")?;
    Ok(())
}

fn run(rt: &HostRuntime) -> anyhow::Result<()> {
    let mut two = TWO;
    tell(rt, "two tasks", &mut two)?;
    let standing = full()?;
    let mut all = to_vec(rt.alloc(), &standing)?;
    tell(rt, "32 tasks", all.as_mut_slice())
}

fn main(rt: HostRuntime) -> anyhow::Result<()> {
    run(&rt)
}
