// Whole files and the answers to them.
ghost use Rattle.std.specs.Prelude.{◌<◌};

use crate::answer::write_answer;
use crate::label_press;
use std::process::Abort;
use std::test::Fail;

// A tolerable task 1 and a strict task 2: the opening, two records and no order.
const TWO_TASKS: &[u8; 47] = b"\
    \x01\x02\
    \x01\x00\x03\x00\x00\x00\x09\x00\x00\x00\x00\x00\x00\x00\x0a\x00\x00\x00\x0a\x00\x00\x00\
    \x02\x01\x03\x00\x00\x00\x06\x00\x00\x00\x00\x00\x00\x00\x0c\x00\x00\x00\x0c\x00\x00\x00\
    \x00";

// The tasks of a film slitter, which have no order.
const FILM_SLITTER: &[u8] = b"\
    \x01\x06\
    \x04\x01\x28\x00\x00\x00\x46\x00\x00\x00\x08\x00\x00\x00\x90\x01\x00\x00\x90\x01\x00\x00\
    \x01\x01\x05\x00\x00\x00\x09\x00\x00\x00\x01\x00\x00\x00\x28\x00\x00\x00\xf4\x01\x00\x00\
    \x09\x00\xc8\x00\x00\x00\x7c\x01\x00\x00\x0a\x00\x00\x00\x10\x27\x00\x00\x10\x27\x00\x00\
    \x06\x00\x3c\x00\x00\x00\x6e\x00\x00\x00\x00\x00\x00\x00\x50\x00\x00\x00\x90\x01\x00\x00\
    \x02\x01\x1e\x00\x00\x00\x37\x00\x00\x00\x05\x00\x00\x00\x96\x00\x00\x00\xc8\x00\x00\x00\
    \x0b\x00\x90\x01\x00\x00\xbc\x02\x00\x00\x19\x00\x00\x00\x50\xc3\x00\x00\x50\xc3\x00\x00\
    \x00";

// The answer to the file is this text.
fn answers(rt: &impl Abort, file: &[u8], text: &[u8]) -> Result<(), Fail> {
    let mut space = [0; 1024];
    let answer = write_answer(file, &mut space)?;
    let len = answer.len();
    assert!(rt; &space[0..len] == text);
    Ok(())
}

// The answer to the two tasks with one byte changed is this text.
fn answers_damage(rt: &impl Abort, at: usize, byte: u8, text: &[u8]) -> Result<(), Fail>
    requires { «at» < 47 }
{
    let mut file = *TWO_TASKS;
    file[at] = byte;
    answers(rt, &file, text)
}

#[test]
fn plans_a_label_press(rt: HostRuntime) -> Result<(), Fail> {
    answers(&rt, label_press::FILE, label_press::LISTING)
}

#[test]
fn refuses_a_film_slitter(rt: HostRuntime) -> Result<(), Fail> {
    answers(&rt, FILM_SLITTER, b"refused 7\n")
}

#[test]
fn refuses_damage(rt: HostRuntime) -> Result<(), Fail> {
    answers(&rt, &[], b"refused 14\n")?;
    answers_damage(&rt, 0, 2, b"refused 14\n")?;
    answers_damage(&rt, 1, 33, b"refused 16\n")?;
    answers_damage(&rt, 3, 2, b"refused 17\n")?;
    answers_damage(&rt, 4, 0, b"refused 2\n")?;
    answers_damage(&rt, 24, 1, b"refused 5\n")
}

#[test]
fn refuses_cuts(rt: HostRuntime) -> Result<(), Fail> {
    let whole = *TWO_TASKS;
    for len in 1..whole.len() {
        answers(&rt, &whole[0..len], b"refused 15\n")?;
    }
    Ok(())
}

#[test]
fn refuses_a_wrong_order(rt: HostRuntime) -> Result<(), Fail> {
    let whole = *TWO_TASKS;
    let mut file = [1; 49];
    file[0..46].copy_from_slice(&whole[0..46]);
    file[46] = 2;
    answers(&rt, &file, b"refused 18\n")
}

#[test]
fn refuses_megabytes_of_zeros(rt: HostRuntime) -> Result<(), Fail> {
    let mut file = vec![in rt.alloc(); 0; 4_000_000]?;
    assert!(rt; file.len() == 4_000_000);
    file[0..47].copy_from_slice(TWO_TASKS);
    answers(&rt, &file, b"refused 19\n")
}

#[test]
fn refuses_a_byte_too_many(rt: HostRuntime) -> Result<(), Fail> {
    let mut file = [0; 48];
    file[0..47].copy_from_slice(TWO_TASKS);
    answers(&rt, &file, b"refused 19\n")
}
