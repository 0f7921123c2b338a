mod cases;
mod deep;
mod open_cases;
mod rice;

use crate::{BytesFault, check, check_bytes, line_of_cert_fault, line_of_check_fault};
use cases::{Case, PLANS};
use open_cases::{NO_PLANS, UNFINISHED};
use opt_base::{ModelFault, OutOfMemory};
use opt_cert::{read, read_verdict};
use opt_sums::{has_no_zero, is_rising};
use opt_system::{Range, RowKind, RowList, System};
use opt_tree::Verdict;
use std::alloc::Global;
use std::process::Abort;
use std::test::Fail;

/// Adds the row, or ends the test where its terms do not go by rising quantity without a 0.
fn push(
    rt: &impl Abort,
    rows: &mut RowList,
    kind: RowKind,
    right: i64,
    terms: &[(u32, i64)],
) -> Result<(), OutOfMemory> {
    let rising = is_rising(terms);
    assert!(rt; rising);
    let no_zero = has_no_zero(terms);
    assert!(rt; no_zero);
    rows.push(kind, right, terms)
}

/// The system of these rows, or ends the test where its numbers are too great.
fn system(
    rt: &impl Abort,
    alloc: Global,
    rows: &RowList,
    low: &[i64],
    high: &[i64],
    costs: &[i64],
) -> Result<System, ModelFault> {
    let ordered = Range::is_ordered(low, high);
    assert!(rt; ordered);
    let root = Range::new(alloc, low, high)?;
    let small = System::are_small(rows, &root, costs);
    assert!(rt; small);
    System::from_rows(alloc, rows, &root, costs)
}

/// What `check_bytes` answers of the text, or ends the test where the text is too long or the terms are none.
fn check_text(
    rt: &impl Abort,
    alloc: Global,
    system: &System,
    gap: i64,
    limit: u32,
    text: &str,
) -> Result<(Verdict, u32), BytesFault> {
    let bytes = text.as_bytes();
    assert!(rt; bytes.len() < 4_294_967_296);
    assert!(rt; gap >= 0);
    assert!(rt; limit >= 1 && limit <= 1_000_000);
    check_bytes(alloc, system, gap, limit, bytes)
}

/// What `check` answers of the certificate that is read from the text.
fn check_read(
    rt: &impl Abort,
    alloc: Global,
    system: &System,
    gap: i64,
    limit: u32,
    text: &str,
) -> Result<Verdict, BytesFault> {
    let bytes = text.as_bytes();
    assert!(rt; bytes.len() < 4_294_967_296);
    assert!(rt; gap >= 0);
    assert!(rt; limit >= 1 && limit <= 1_000_000);
    let cert = read(alloc, bytes)?;
    check(alloc, system, gap, limit, &cert).map_err(BytesFault::Check)
}

/// The line that is printed of the fault, or none where there is no fault.
fn refusal(alloc: Global, fault: Option<BytesFault>) -> Result<String, OutOfMemory> {
    match fault {
        None => Ok("".to_string(alloc)?),
        Some(BytesFault::Cert(fault)) => Ok(line_of_cert_fault(alloc, fault)?),
        Some(BytesFault::Check(fault)) => Ok(line_of_check_fault(alloc, fault)?),
        Some(BytesFault::OutOfMemory) => Err(OutOfMemory),
    }
}

/// The system of a case.
fn system_of_case(rt: &impl Abort, alloc: Global, case: &Case) -> Result<System, ModelFault> {
    let mut rows = RowList::new(alloc);
    for row in case.rows {
        push(rt, &mut rows, row.0, row.1, row.2)?;
    }
    system(rt, alloc, &rows, case.low, case.high, case.costs)
}

/// The certificate of a case, with another line in place of the one of this number.
fn text_of_case(
    alloc: Global,
    case: &Case,
    number: usize,
    line: &str,
) -> Result<String, OutOfMemory> {
    let mut text = "optimus-certificate 1\n".to_string(alloc)?;
    for (i, kept) in case.text.lines().enumerate() {
        text.push_str(if i.saturating_add(2) == number {
            line
        } else {
            kept
        })?;
        text.push('\n')?;
    }
    Ok(text)
}

/// Accepts the certificate of a case, whose second line is its verdict.
fn accept(rt: &impl Abort, alloc: Global, system: &System, case: &Case) -> Result<(), Fail> {
    let text = text_of_case(alloc, case, 0, "")?;
    let text = text.as_str();
    let claim = text.lines().nth(1).unwrap_or("");
    let verdict = read_verdict(claim.as_bytes());
    assert!(rt; verdict.is_some());
    let answer = check_text(rt, alloc, system, case.gap, case.limit, text);
    assert!(rt; answer.ok() == verdict.map(|verdict| (verdict, case.nodes)));
    let answer = check_read(rt, alloc, system, case.gap, case.limit, text);
    assert!(rt; answer.ok() == verdict);
    Ok(())
}

/// Refuses the certificate of a case with each of its lines that is changed.
fn refuse(rt: &impl Abort, alloc: Global, system: &System, case: &Case) -> Result<(), Fail> {
    for (number, line, printed) in case.changes {
        let text = text_of_case(alloc, case, *number, line)?;
        let text = text.as_str();
        let expected = format!(in alloc; "refused certificate.txt{printed}\n")?;
        let answer = check_text(rt, alloc, system, case.gap, case.limit, text);
        let refused = refusal(alloc, answer.err())?;
        assert_eq!(rt; refused.as_str(), expected.as_str());
        let answer = check_read(rt, alloc, system, case.gap, case.limit, text);
        let refused = refusal(alloc, answer.err())?;
        assert_eq!(rt; refused.as_str(), expected.as_str());
    }
    Ok(())
}

/// Certificates that an independent search wrote are accepted, and refused with a line that is changed.
#[test]
fn certificates_of_another_search(rt: HostRuntime) -> Result<(), Fail> {
    let alloc = rt.alloc();
    for case in PLANS.iter().chain(NO_PLANS.iter()).chain(UNFINISHED.iter()) {
        let system = system_of_case(&rt, alloc, case)?;
        accept(&rt, alloc, &system, case)?;
        refuse(&rt, alloc, &system, case)?;
    }
    Ok(())
}
