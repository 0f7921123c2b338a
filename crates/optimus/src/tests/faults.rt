use super::{
    Held, LINE, LINE_CERTIFICATE, LINE_PLAN, LINE_SUMMARY, LINE_VERDICT, MISSING, words_of,
};
use crate::optimus;
use opt_base::{MemShelf, MemSink, OutOfMemory, Shelf, Sink};
use std::alloc::Global;
use std::process::Abort;
use std::test::Fail;

fn hold(shelf: &mut MemShelf, held: &[Held<'_>]) -> Result<(), OutOfMemory> {
    for one in held {
        shelf.load(one.0, one.1.as_bytes())?;
    }
    Ok(())
}

/// The line with some more files, on a shelf whose calls of these numbers fail.
fn failing_shelf(alloc: Global, held: &[Held<'_>], fails: &[u64]) -> Result<MemShelf, OutOfMemory> {
    let mut shelf = MemShelf::new(alloc, fails)?;
    hold(&mut shelf, &LINE)?;
    hold(&mut shelf, held)?;
    Ok(shelf)
}

/// What the shelf holds at these paths, or that they are missing.
fn expect_held(rt: &impl Abort, shelf: &MemShelf, files: &[Held<'_>]) {
    for file in files {
        assert_eq!(rt;
            shelf.held(file.0).unwrap_or(MISSING.as_bytes()),
            file.1.as_bytes()
        );
    }
}

/// A command over a shelf, one of whose calls fails: it ends with 4 and prints nothing.
fn expect_fault(
    rt: &impl Abort,
    alloc: Global,
    command: &str,
    shelf: &mut MemShelf,
) -> Result<(), OutOfMemory> {
    let words = words_of(alloc, &[command, "d"])?;
    let mut out = MemSink::new(alloc, &[])?;
    let mut err = MemSink::new(alloc, &[])?;
    let status = optimus(alloc, &words, shelf, &mut out, &mut err);
    assert_eq!(rt; status, 4);
    assert_eq!(rt; shelf.faults(), 1);
    assert_eq!(rt; out.written(), b"".as_slice());
    assert_eq!(rt; err.written(), b"".as_slice());
    Ok(())
}

/// A command over the line with some more files fails where this call of the shelf does, and leaves these files.
fn expect_fault_at(
    rt: &impl Abort,
    alloc: Global,
    command: &str,
    held: &[Held<'_>],
    call: u64,
    files: &[Held<'_>],
) -> Result<(), OutOfMemory> {
    let mut shelf = failing_shelf(alloc, held, &[call])?;
    expect_fault(rt, alloc, command, &mut shelf)?;
    expect_held(rt, &shelf, files);
    Ok(())
}

/// The same for the calls from 1 on, up to this one.
fn expect_faults_to(
    rt: &impl Abort,
    alloc: Global,
    command: &str,
    held: &[Held<'_>],
    last: u64,
    files: &[Held<'_>],
) -> Result<(), OutOfMemory> {
    for call in 1..=last {
        expect_fault_at(rt, alloc, command, held, call, files)?;
    }
    Ok(())
}

const NO_PLAN_FILES: [Held<'static>; 3] = [
    Held("d/certificate.txt", MISSING),
    Held("d/plan.csv", MISSING),
    Held("d/summary.json", MISSING),
];

const CERTIFICATE_ALONE: [Held<'static>; 3] = [
    Held("d/certificate.txt", LINE_CERTIFICATE),
    Held("d/plan.csv", MISSING),
    Held("d/summary.json", MISSING),
];

const NO_SUMMARY: [Held<'static>; 3] = [
    Held("d/certificate.txt", LINE_CERTIFICATE),
    Held("d/plan.csv", LINE_PLAN),
    Held("d/summary.json", MISSING),
];

/// Calls 1 to 12 get the model, 13 puts the certificate, 14 the plan file, 15 the summary. The model stays.
#[test]
fn a_plan_stops_at_the_call_that_fails(rt: HostRuntime) -> Result<(), Fail> {
    let alloc = rt.alloc();
    expect_faults_to(&rt, alloc, "plan", &[], 13, &NO_PLAN_FILES)?;
    expect_fault_at(&rt, alloc, "plan", &[], 13, &LINE)?;
    expect_fault_at(&rt, alloc, "plan", &[], 14, &CERTIFICATE_ALONE)?;
    expect_fault_at(&rt, alloc, "plan", &[], 14, &LINE)?;
    expect_fault_at(&rt, alloc, "plan", &[], 15, &NO_SUMMARY)?;
    Ok(())
}

const PLANNED: [Held<'static>; 2] = [
    Held("d/plan.csv", LINE_PLAN),
    Held("d/certificate.txt", LINE_CERTIFICATE),
];

const NO_REPORTS: [Held<'static>; 3] = [
    Held("d/report_sites.csv", MISSING),
    Held("d/report_costs.csv", MISSING),
    Held("d/report_basket.csv", MISSING),
];

const SITES_ALONE: [Held<'static>; 3] = [
    Held(
        "d/report_sites.csv",
        "month,place,commodity,stock,bought,arrived,sent,kept,handed_out\n\
        1,S,rice,0,17700,0,17700,0,0\n1,P,rice,0,0,17700,0,0,17700\n",
    ),
    Held("d/report_costs.csv", MISSING),
    Held("d/report_basket.csv", MISSING),
];

/// Call 13 gets the certificate or the plan file, 14 to 16 put the reports.
#[test]
fn other_commands_stop_at_the_call_that_fails(rt: HostRuntime) -> Result<(), Fail> {
    let alloc = rt.alloc();
    expect_faults_to(&rt, alloc, "check", &PLANNED, 13, &PLANNED)?;
    expect_faults_to(&rt, alloc, "audit", &PLANNED, 13, &PLANNED)?;
    expect_faults_to(&rt, alloc, "report", &PLANNED, 14, &NO_REPORTS)?;
    expect_fault_at(&rt, alloc, "report", &PLANNED, 15, &SITES_ALONE)?;
    expect_fault_at(&rt, alloc, "report", &PLANNED, 16, &PLANNED)?;
    Ok(())
}

/// A command over a shelf and streams that fail at their first calls.
fn status_of(
    alloc: Global,
    words: &[&str],
    shelf: &mut MemShelf,
    out: &mut MemSink,
    err: &mut MemSink,
) -> Result<u8, OutOfMemory> {
    let words = words_of(alloc, words)?;
    Ok(optimus(alloc, &words, shelf, out, err))
}

const ALL_PLAN_FILES: [Held<'static>; 3] = [
    Held("d/certificate.txt", LINE_CERTIFICATE),
    Held("d/plan.csv", LINE_PLAN),
    Held("d/summary.json", LINE_SUMMARY),
];

/// A stream that fails ends a command with 4, and the files are put. It works from its second call on.
#[test]
fn a_stream_that_fails_ends_a_command(rt: HostRuntime) -> Result<(), Fail> {
    let alloc = rt.alloc();
    let mut shelf = failing_shelf(alloc, &[], &[])?;
    let mut out = MemSink::new(alloc, &[1])?;
    let mut err = MemSink::new(alloc, &[1])?;
    let status = status_of(alloc, &["plan", "d"], &mut shelf, &mut out, &mut err)?;
    assert_eq!(rt; status, 4);
    assert_eq!(rt; out.faults(), 1);
    expect_held(&rt, &shelf, &ALL_PLAN_FILES);
    let status = status_of(alloc, &["check", "d"], &mut shelf, &mut out, &mut err)?;
    assert_eq!(rt; status, 0);
    assert_eq!(rt; out.written(), LINE_VERDICT.as_bytes());
    Ok(())
}

/// The line of a refusal fails.
#[test]
fn a_refusal_that_cannot_be_written_ends_a_command(rt: HostRuntime) -> Result<(), Fail> {
    let alloc = rt.alloc();
    let mut shelf = failing_shelf(alloc, &[], &[])?;
    let mut out = MemSink::new(alloc, &[1])?;
    let mut err = MemSink::new(alloc, &[1])?;
    let status = status_of(alloc, &["check"], &mut shelf, &mut out, &mut err)?;
    assert_eq!(rt; status, 4);
    assert_eq!(rt; err.faults(), 1);
    assert_eq!(rt; out.faults(), 0);
    Ok(())
}
