// Answers worked out by hand.
use crate::reserves::reserved;
use crate::tables::{blocking, only, tight};
use demand::mode::Mode;
use demand::response;
use own_test::few_above::FewAbove;
use own_test::layered::layered;
use schedulability::fault::TestFault;
use schedulability::reserve::Reserve;
use schedulability::test::Test;
use std::process::Abort;
use std::test::Fail;
use tasks::refusal::{Fault, Layer, Refusal};
use tasks::set::TaskSet;
use tests::guarantee::guarantee;
use tests::load::Load;
use tests::response::InTime;
use tests::sections::Sections;

// The refusal of a value that is out of bounds, written out and not made by the library.
fn told(number: u8, value: usize) -> Refusal {
    Refusal {
        number,
        layer: Layer::Pile,
        place: value,
        innermost: number,
    }
}

#[test]
fn response_times(rt: HostRuntime) -> Result<(), Fail> {
    let table = tight()?;
    let none = TaskSet::empty();
    assert_eq!(rt; response(&table, 2, none, Mode::Normal), Some(3));
    assert_eq!(rt; response(&table, 2, none, Mode::Abnormal), Some(6));
    assert_eq!(rt; response(&table, 1, only(2), Mode::Normal), Some(6));
    assert_eq!(rt; response(&table, 1, only(2), Mode::Abnormal), None);
    assert!(rt; InTime::new(Mode::Normal).passes(&table, 1, only(2)));
    assert!(rt; !InTime::new(Mode::Abnormal).passes(&table, 1, only(2)));
    Ok(())
}

// The load is 900,000 for task 1 and 500,000 for task 2.
#[test]
fn loads(rt: HostRuntime) -> Result<(), Fail> {
    let table = tight()?;
    for limit in [1, 999_999, 1_000_000] {
        assert!(rt; !Load::new(limit)?.passes(&table, 1, only(2)));
    }
    Ok(())
}

fn load_refused(rt: &impl Abort, limit: u32) -> Result<(), Fail> {
    let Err(fault) = Load::new(limit) else {
        return Err(Fail::new("the limit is taken"));
    };
    assert_eq!(rt; fault, TestFault::Limit(limit));
    assert_eq!(rt; fault.refusal(), told(22, limit as usize));
    Ok(())
}

#[test]
fn limits_out_of_bounds(rt: HostRuntime) -> Result<(), Fail> {
    load_refused(&rt, 0)?;
    load_refused(&rt, 1_000_001)
}

#[test]
fn reserve_out_of_bounds(rt: HostRuntime) -> Result<(), Fail> {
    let Err(rejected) = Reserve::new(1_000_001, FewAbove::new(0)) else {
        return Err(Fail::new("the reserve is taken"));
    };
    assert_eq!(rt; rejected.fault, TestFault::Reserve(1_000_001));
    assert_eq!(rt; rejected.fault.refusal(), told(21, 1_000_001));
    Ok(())
}

#[test]
fn guarantees(rt: HostRuntime) -> Result<(), Fail> {
    let table = tight()?;
    let none = TaskSet::empty();
    let mut test = guarantee();
    assert!(rt; test.passes(&table, 2, none));
    assert!(rt; test.passes(&table, 1, only(2)));
    assert!(rt; !test.passes(&table, 2, only(1)));
    Ok(())
}

// Task 1 takes 6 of its 10 ticks below task 2, and task 2 alone takes 6 of its 12.
#[test]
fn reserves(rt: HostRuntime) -> Result<(), Fail> {
    let table = tight()?;
    let none = TaskSet::empty();
    let mut four = reserved(4, guarantee())?;
    assert!(rt; four.passes(&table, 2, none));
    assert!(rt; four.passes(&table, 1, only(2)));
    let mut five = reserved(5, guarantee())?;
    assert!(rt; five.passes(&table, 2, none));
    assert!(rt; !five.passes(&table, 1, only(2)));
    Ok(())
}

// Task 3 takes 2 of its 5 ticks and waits for the section of task 4, and task 4 takes 8 of its 20 below task 3.
#[test]
fn sections(rt: HostRuntime) -> Result<(), Fail> {
    let none = TaskSet::empty();
    let short = blocking(3)?;
    assert!(rt; Sections.passes(&short, 3, none));
    assert!(rt; Sections.passes(&short, 4, only(3)));
    let long = blocking(4)?;
    assert!(rt; !Sections.passes(&long, 3, none));
    assert!(rt; Sections.passes(&long, 4, only(3)));
    Ok(())
}

// A count is seen after the layers are taken off again.
#[test]
fn own_test_under_every_layer(rt: HostRuntime) -> Result<(), Fail> {
    let table = tight()?;
    let none = TaskSet::empty();
    let mut test = layered(FewAbove::new(0), FewAbove::new(1));
    assert!(rt; test.passes(&table, 1, only(2)));
    assert!(rt; test.passes(&table, 2, none));
    assert!(rt; !test.passes(&table, 2, only(1)));
    let pair = test.into_below();
    // the first is asked about strict tasks only, and the second where the first says yes
    assert_eq!(rt; pair.first.below.asked(), 2);
    assert_eq!(rt; pair.second.asked(), 2);
    Ok(())
}
