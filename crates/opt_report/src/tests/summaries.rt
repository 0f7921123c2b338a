ghost use Rattle.opt_report.specs.Summaries.{IsSummed};

use crate::summary_json;
use opt_base::Verdict;
use opt_model::Goal;
use std::alloc::Global;
use std::process::Abort;
use std::test::Fail;

/// The summary of a verdict is this text.
fn assert_summary(
    rt: &impl Abort,
    alloc: Global,
    goal: Goal,
    verdict: &Verdict,
    nodes: u32,
    text: &str,
) -> Result<(), Fail>
    requires { IsSummed verdict.now }
{
    let summary = summary_json(alloc, goal, verdict, nodes)?;
    assert_eq!(rt; summary.as_slice(), text.as_bytes());
    Ok(())
}

#[test]
fn summarises_a_plan(rt: HostRuntime) -> Result<(), Fail> {
    let plan = Verdict::Plan {
        objective: 8_850_000,
        bound: 8_750_000,
    };
    let text =
        "{\"bound\":\"8750000\",\"gap\":\"100000\",\"goal\":\"cost\",\"nodes\":3,\"objective\":\"8850000\",\"verdict\":\"plan\"}\n";
    assert_summary(&rt, rt.alloc(), Goal::Cost, &plan, 3, text)
}

#[test]
fn summarises_that_there_is_no_plan(rt: HostRuntime) -> Result<(), Fail> {
    let text = "{\"goal\":\"shortfall\",\"nodes\":1,\"verdict\":\"no plan\"}\n";
    assert_summary(&rt, rt.alloc(), Goal::Shortfall, &Verdict::NoPlan, 1, text)
}

#[test]
fn summarises_a_search_without_a_plan(rt: HostRuntime) -> Result<(), Fail> {
    let none = Verdict::Unfinished {
        bound: 0,
        best: None,
    };
    let text =
        "{\"best\":null,\"bound\":\"0\",\"goal\":\"cost\",\"nodes\":7,\"verdict\":\"unfinished\"}\n";
    assert_summary(&rt, rt.alloc(), Goal::Cost, &none, 7, text)
}

#[test]
fn summarises_numbers_past_64_bits(rt: HostRuntime) -> Result<(), Fail> {
    // 2^126.
    let some = Verdict::Unfinished {
        bound: 5,
        best: Some(85_070_591_730_234_615_865_843_651_857_942_052_864),
    };
    let text =
        "{\"best\":\"85070591730234615865843651857942052864\",\"bound\":\"5\",\"goal\":\"cost\",\"nodes\":1000000,\"verdict\":\"unfinished\"}\n";
    assert_summary(&rt, rt.alloc(), Goal::Cost, &some, 1_000_000, text)
}
