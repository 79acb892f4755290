// Reads the roster files of cases.txt, one to a line as `name;hex`, and prints what became of each.
#![tactic(auto)]

ghost use Rattle.std.specs.Prelude.{◌<◌, IfOk};

use anyhow::{Context, bail};
use roster_file::fault::FileFault;
use roster_file::read::read;
use std::alloc::Global;
use std::fs;
use tasks::order::Order;
use tasks::refusal::Fault;
use tasks::table::Table;

// What a reading is handed, and fills.
#[derive(Clone, Copy, PartialEq, Eq)]
struct Held {
    table: Table,
    order: Order,
}

// By hand, since `to_digit` takes capitals too.
fn digit(byte: u8) -> anyhow::Result<u8>
    ensures { IfOk result (λ d. d < 16) }
{
    match byte {
        b'0'..=b'9' => Ok(byte - b'0'),
        b'a'..=b'f' => Ok(byte - b'a' + 10),
        _ => bail!("a byte that is no hexadecimal digit"),
    }
}

fn bytes(heap: Global, hex: &str) -> anyhow::Result<Vec<u8>> {
    let mut file = Vec::new(heap);
    for pair in hex.as_bytes().chunks(2) {
        let [high, low] = pair else {
            bail!("a byte of one digit");
        };
        file.push(digit(*high)? * 16 + digit(*low)?)?;
    }
    Ok(file)
}

fn tell(rt: &HostRuntime, name: &str, file: &[u8], held: &mut Held) -> anyhow::Result<()> {
    let before = *held;
    match read(file, &mut held.table, &mut held.order) {
        Ok(()) => {
            let tasks = held.table.tasks().len();
            let places = held.order.as_slice().len();
            println!(rt; "{name}: accepted {tasks} tasks, order of {places}")?;
        }
        Err(fault) => {
            let outer = fault.refusal();
            print!(rt; "{name}: {outer}")?;
            if let FileFault::Entry(located) = fault {
                let inner = located.fault.refusal();
                print!(rt; ", inside {inner}")?;
            }
            let kept = if *held == before {
                ""
            } else {
                ", table or order changed"
            };
            println!(rt; "{kept}")?;
        }
    }
    Ok(())
}

fn run(rt: &HostRuntime) -> anyhow::Result<()> {
    let cases = fs::read_to_string(rt, "cases.txt")?;
    // each file is read over what the files before it left
    let mut held = Held {
        table: Table::empty(),
        order: Order::empty(),
    };
    for line in cases.as_str().lines() {
        let (name, hex) = line.split_once(';').context("a case with no ;")?;
        let file = bytes(rt.alloc(), hex)?;
        tell(rt, name, &file, &mut held)?;
    }
    Ok(())
}

fn main(rt: HostRuntime) -> anyhow::Result<()> {
    run(&rt)
}
