//! A tree as deep as it has leaves.

use super::{check_text, push, refusal, system};
use opt_system::{RowKind, RowList};
use opt_tree::Verdict;
use std::alloc::{AllocError, Global};
use std::test::Fail;

/// A certificate that no value from 0 to 99,999 is at least 100,000: one value after the other is split off.
fn text(alloc: Global, last: &str) -> Result<String, AllocError> {
    let mut text = String::with_capacity(alloc, 3_000_000)?;
    text.push_str("optimus-certificate 1\nno-plan\nroot 0 1 0:1\npoint none\n")?;
    for t in 0..99_999 {
        let lines = format!(in alloc; "split 0 {t}\nleaf 0 1 0:1\n")?;
        text.push_str(lines.as_str())?;
    }
    text.push_str(last)?;
    text.push_str("\nend\n")?;
    Ok(text)
}

/// Each leaf shows that its box is empty but, in the second text, the last one.
#[test]
fn a_deep_tree(rt: HostRuntime) -> Result<(), Fail> {
    let alloc = rt.alloc();
    let mut rows = RowList::new(alloc);
    push(&rt, &mut rows, RowKind::Ge, 100_000, &[(0, 1)])?;
    let system = system(&rt, alloc, &rows, &[0], &[99_999], &[0])?;
    let whole = text(alloc, "leaf 0 1 0:1")?;
    let answer = check_text(&rt, alloc, &system, 0, 1_000_000, whole.as_str());
    assert!(rt; answer == Ok((Verdict::NoPlan, 199_999)));
    let open = text(alloc, "leaf 1 0")?;
    let answer = check_text(&rt, alloc, &system, 0, 1_000_000, open.as_str());
    let refused = refusal(alloc, answer.err())?;
    assert_eq!(rt;
        refused.as_str(),
        "refused certificate.txt node 199998: LeafOpen 0\n"
    );
    Ok(())
}
