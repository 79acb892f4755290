// Every test and every layer refuses the questions that make no sense, where its own rule would say yes.
use crate::always::Always;
use crate::reserves::reserved;
use crate::tables::{only, roomy};
use demand::mode::Mode;
use own_test::few_above::FewAbove;
use own_test::layered::layered;
use schedulability::pair::Pair;
use schedulability::strict_only::StrictOnly;
use schedulability::test::Test;
use std::process::Abort;
use std::test::Fail;
use tasks::set::TaskSet;
use tests::guarantee::guarantee;
use tests::load::Load;
use tests::response::InTime;
use tests::sections::Sections;

// Task 1 is tolerable and task 2 strict, so that a layer for one kind is asked about both.
fn opens<T: Test + Drop>(rt: &impl Abort, name: &str, mut test: T) -> Result<(), Fail> {
    let table = roomy()?;
    let none = TaskSet::empty();
    for (task, above, answer, case) in [
        (1, only(2), true, "a proper question, tolerable"),
        (2, only(1), true, "a proper question, strict"),
        (32, none, false, "the number after the last"),
        (255, none, false, "the largest number"),
        (3, none, false, "an empty place"),
        (1, only(1), false, "above itself, tolerable"),
        (2, only(2), false, "above itself, strict"),
        (1, only(3), false, "an empty place above, tolerable"),
        (2, only(3), false, "an empty place above, strict"),
    ] {
        assert!(rt;
            test.passes(&table, task, above) == answer,
            "{name}: {case}"
        );
    }
    Ok(())
}

// The same for each layer over a test.
fn layers_open<T: Test + Copy>(rt: &impl Abort, test: T) -> Result<(), Fail> {
    opens(rt, "reserve", reserved(4, test)?)?;
    opens(
        rt,
        "pair",
        Pair {
            first: test,
            second: test,
        },
    )?;
    opens(rt, "strict-only", StrictOnly { below: test })?;
    opens(rt, "all three", layered(test, test))
}

#[test]
fn every_test_opens(rt: HostRuntime) -> Result<(), Fail> {
    opens(&rt, "normal", InTime::new(Mode::Normal))?;
    opens(&rt, "abnormal", InTime::new(Mode::Abnormal))?;
    opens(&rt, "sections", Sections)?;
    opens(&rt, "load", Load::new(1_000_000)?)?;
    opens(&rt, "guarantee", guarantee())?;
    opens(&rt, "few above", FewAbove::new(1))
}

#[test]
fn every_layer_opens(rt: HostRuntime) -> Result<(), Fail> {
    layers_open(&rt, Always)?;
    layers_open(&rt, FewAbove::new(1))?;
    layers_open(&rt, InTime::new(Mode::Normal))?;
    layers_open(&rt, Sections)
}
