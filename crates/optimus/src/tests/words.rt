use super::{
    Answer, BASKET, Held, LINE, LINE_PLAN, MISSING, answer_to, expect_held, expect_lines, shelf_of,
};
use opt_base::OutOfMemory;
use std::alloc::Global;
use std::process::Abort;
use std::test::Fail;

/// The line of what is refused, with its status.
fn expect_refused(rt: &impl Abort, answer: &Answer, line: &str) {
    assert_eq!(rt; answer.status, 3);
    expect_lines(rt, answer, line);
}

/// Words that are no form.
const NO_FORMS: [&[&str]; 13] = [
    &[],
    &["plan"],
    &["d"],
    &["plan", "d", "e"],
    &["plan", "-d"],
    &["plan", ""],
    &["Plan", "d"],
    &["plant", "d"],
    &["check"],
    &["check", "-"],
    &["audit", "d", ""],
    &["report", "--help"],
    &["make", "d"],
];

const NOTHING: [Held<'static>; 2] = [
    Held("d/certificate.txt", MISSING),
    Held("d/report_sites.csv", MISSING),
];

/// They are refused, and nothing else happens.
fn expect_no_form(rt: &impl Abort, alloc: Global, words: &[&str]) -> Result<(), OutOfMemory> {
    let mut shelf = shelf_of(alloc, &LINE, &[Held("d/plan.csv", LINE_PLAN)])?;
    let answer = answer_to(alloc, &mut shelf, words)?;
    expect_refused(rt, &answer, "refused words\n");
    expect_held(rt, &shelf, &NOTHING);
    Ok(())
}

fn expect_no_forms(rt: &impl Abort, alloc: Global, forms: &[&[&str]]) -> Result<(), OutOfMemory> {
    for words in forms {
        expect_no_form(rt, alloc, words)?;
    }
    Ok(())
}

#[test]
fn words_that_are_no_form_are_refused(rt: HostRuntime) -> Result<(), Fail> {
    expect_no_forms(&rt, rt.alloc(), &NO_FORMS)?;
    Ok(())
}

/// Whether the folder is there is no question of the form.
fn expect_no_folder(rt: &impl Abort, alloc: Global, command: &str) -> Result<(), OutOfMemory> {
    let mut shelf = shelf_of(alloc, &BASKET, &[])?;
    let answer = answer_to(alloc, &mut shelf, &[command, "e"])?;
    expect_refused(rt, &answer, "refused settings.toml: MissingFile\n");
    Ok(())
}

#[test]
fn a_folder_that_is_not_there_has_no_settings(rt: HostRuntime) -> Result<(), Fail> {
    let alloc = rt.alloc();
    expect_no_folder(&rt, alloc, "plan")?;
    expect_no_folder(&rt, alloc, "check")?;
    expect_no_folder(&rt, alloc, "audit")?;
    expect_no_folder(&rt, alloc, "report")?;
    Ok(())
}
