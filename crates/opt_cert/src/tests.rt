use crate::{CertFault, CertLine, CertNode, Lines, Verdict, read, read_verdict, verdict_line};
use opt_base::OutOfMemory;
use std::alloc::{AllocError, Global};
use std::test::Fail;

/// A certificate made by hand, for a model of five quantities and six rows.
const BY_HAND: [&str; 8] = [
    "optimus-certificate 1",
    "plan 8850000 8850000",
    "root 6 4 0:250 1:3 3:2700 4:3000",
    "point 4 0:59 2:17700 3:17700 4:17700",
    "split 0 58",
    "leaf 0 1 0:1",
    "leaf 2 3 1:1 3:900 4:1000",
    "end",
];

/// Lines that cannot stand in place of the certificate's own, by number, with the fault of the whole text.
const WRONG_LINES: [(usize, &str, CertFault); 48] = [
    (1, "", CertFault::BadLine(1)),
    (1, "optimus-certificate 2", CertFault::BadLine(1)),
    (1, "optimus-certificate 1 ", CertFault::BadLine(1)),
    (1, "optimus-certificate\t1", CertFault::BadLine(1)),
    (2, "plan 8850000", CertFault::BadLine(2)),
    (2, "plan 8850000 -1", CertFault::BadLine(2)),
    (2, "plan +1 0", CertFault::BadLine(2)),
    (2, "unfinished none 0", CertFault::BadLine(2)),
    (2, "no-plan 0 0", CertFault::BadLine(2)),
    (
        2,
        "plan 85070591730234615865843651857942052865 0",
        CertFault::Range(2),
    ),
    (
        2,
        "plan 0 340282366920938463463374607431768211456",
        CertFault::Range(2),
    ),
    (2, "no-plan", CertFault::BadLine(4)),
    (2, "unfinished 8850000 none", CertFault::BadLine(4)),
    (3, "root 6 3 0:250 1:3 3:2700 4:3000", CertFault::BadLine(3)),
    (3, "root 6 5 0:250 1:3 3:2700 4:3000", CertFault::BadLine(3)),
    (
        3,
        "root 6 04 0:250 1:3 3:2700 4:3000",
        CertFault::BadLine(3),
    ),
    (3, "root  6 0", CertFault::BadLine(3)),
    (3, "root 6 0\r", CertFault::BadLine(3)),
    (3, "root 6 1 0:-0", CertFault::BadLine(3)),
    (3, "root 6 1 0:1:2", CertFault::BadLine(3)),
    (3, "root 6 1 0", CertFault::BadLine(3)),
    (3, "root 6 2 1:0 0:01", CertFault::BadLine(3)),
    (3, "root 6 2 1:0 0:1", CertFault::Range(3)),
    (3, "root 6 2 1:1 0:1", CertFault::Order(3)),
    (3, "root 6 2 1:1 1:1", CertFault::Order(3)),
    (3, "root 72057594037927937 0", CertFault::Range(3)),
    (3, "root 6 1 0:-72057594037927937", CertFault::Range(3)),
    (3, "root 6 1 4294967296:1", CertFault::Range(3)),
    (
        3,
        "point 4 0:59 2:17700 3:17700 4:17700",
        CertFault::BadLine(3),
    ),
    (4, "point none", CertFault::BadLine(4)),
    (4, "point 1 0:-1", CertFault::BadLine(4)),
    (4, "point 1 0:0", CertFault::Range(4)),
    (4, "point 1 0:9223372036854775808", CertFault::Range(4)),
    (4, "point 2 2:1 2:1", CertFault::Order(4)),
    (5, "split 0", CertFault::BadLine(5)),
    (5, "split 0 -1", CertFault::BadLine(5)),
    (5, "split 4294967296 0", CertFault::Range(5)),
    (5, "split 0 9223372036854775808", CertFault::Range(5)),
    (5, "split 0 9999999999999999999", CertFault::Range(5)),
    (5, "split 0 18446744073709551616", CertFault::Range(5)),
    (5, "split 0 18446744073709551658", CertFault::Range(5)),
    (5, "end", CertFault::BadLine(5)),
    (5, "leaf 1 0", CertFault::BadLine(6)),
    (6, "leaf 0 1 0:01", CertFault::BadLine(6)),
    (6, "leaf 0 1 0:72057594037927937", CertFault::Range(6)),
    (6, "split 0 1", CertFault::BadLine(8)),
    (8, "leaf 1 0", CertFault::BadLine(8)),
    (8, "END", CertFault::BadLine(8)),
];

/// Lines that may stand in place of the certificate's own: reading alone does not judge what they show.
const OTHER_LINES: [(usize, &str); 6] = [
    (2, "unfinished 85070591730234615865843651857942052864 0"),
    (3, "root 1 1 0:1"),
    (3, "root 72057594037927936 0"),
    (4, "point 1 4294967295:9223372036854775807"),
    (5, "split 4294967295 9223372036854775807"),
    (6, "leaf 0 1 4294967295:-72057594037927936"),
];

/// The text of these lines, with another line in place of one.
fn with_line(alloc: Global, number: usize, line: &str) -> Result<String, AllocError> {
    let mut text = String::new(alloc);
    for (i, own) in BY_HAND.iter().enumerate() {
        text.push_str(if i + 1 == number { line } else { own })?;
        text.push('\n')?;
    }
    Ok(text)
}

/// The fault of a short text, where it has one.
fn fault_of(alloc: Global, bytes: &[u8]) -> Option<CertFault> {
    if bytes.len() > 10_000 {
        return Some(CertFault::OutOfMemory);
    }
    read(alloc, bytes).err()
}

#[test]
fn wrong_lines(rt: HostRuntime) -> Result<(), Fail> {
    let alloc = rt.alloc();
    for (number, line, fault) in &WRONG_LINES {
        let text = with_line(alloc, *number, line)?;
        assert_eq!(rt; fault_of(alloc, text.as_bytes()), Some(*fault), "{line}");
    }
    for (number, line) in &OTHER_LINES {
        let text = with_line(alloc, *number, line)?;
        assert_eq!(rt; fault_of(alloc, text.as_bytes()), None, "{line}");
    }
    let digits = "9".repeat(alloc, 200)?;
    let long = format!(in alloc; "plan {digits} 0")?;
    assert_eq!(rt;
        fault_of(alloc, with_line(alloc, 2, &long)?.as_bytes()),
        Some(CertFault::Range(2))
    );
    let padded = format!(in alloc; "plan 0{digits} 0")?;
    assert_eq!(rt;
        fault_of(alloc, with_line(alloc, 2, &padded)?.as_bytes()),
        Some(CertFault::BadLine(2))
    );
    Ok(())
}

#[test]
fn prefixes_and_trailing_bytes(rt: HostRuntime) -> Result<(), Fail> {
    let alloc = rt.alloc();
    let mut text = with_line(alloc, 0, "")?;
    for end in 0..text.len() {
        let front = &text.as_bytes()[..end];
        assert_eq!(rt; fault_of(alloc, front), Some(CertFault::Truncated), "{end}");
    }
    assert_eq!(rt; fault_of(alloc, text.as_bytes()), None);
    text.push(' ')?;
    assert_eq!(rt; fault_of(alloc, text.as_bytes()), Some(CertFault::Trailing));
    Ok(())
}

/// Certificates that an independent program wrote, with their verdict, the values of their point and their nodes.
const FROM_OUTSIDE: [(&str, Verdict, &[(u32, i64)], usize); 3] = [
    (
        "optimus-certificate 1\nplan 125 125\nroot 7 1 0:-2\npoint 2 0:1 2:62\nsplit 2 10\nleaf 0 1 0:-1\nsplit 0 0\n\
         split 1 0\nleaf 0 1 0:1\nleaf 7 1 0:-2\nleaf 7 1 0:-2\nend\n",
        Verdict::Plan {
            objective: 125,
            bound: 125,
        },
        &[(0, 1), (2, 62)],
        7,
    ),
    (
        "optimus-certificate 1\nunfinished 94 102\nroot 16 2 3:119 4:17\npoint 1 1:6\nsplit 0 0\nleaf 2 1 3:17\n\
         leaf 2 1 4:17\nend\n",
        Verdict::Unfinished {
            bound: 94,
            best: Some(102),
        },
        &[(1, 6)],
        3,
    ),
    (
        "optimus-certificate 1\nno-plan\nroot 1 0\npoint none\nsplit 1 18\nleaf 0 2 0:1 2:1\nleaf 0 1 0:-1\nend\n",
        Verdict::NoPlan,
        &[],
        3,
    ),
];

#[test]
fn certificates_from_outside(rt: HostRuntime) -> Result<(), Fail> {
    let alloc = rt.alloc();
    for (text, verdict, point, nodes) in &FROM_OUTSIDE {
        assert!(rt; text.len() < 10_000);
        let cert = read(alloc, text.as_bytes())?;
        assert_eq!(rt; cert.verdict, *verdict);
        let listed: &[(u32, i64)] = match &cert.point {
            Some(entries) => entries.as_slice(),
            None => &[],
        };
        assert_eq!(rt; listed, *point);
        assert_eq!(rt; cert.nodes.as_slice().len(), *nodes);
        let first_is_split = matches!(cert.nodes.as_slice().first(), Some(CertNode::Split { .. }));
        assert!(rt; first_is_split);
    }
    Ok(())
}

/// Passes the lines of a text up to its end or first fault, and says how many there were before.
fn pass(alloc: Global, lines: &mut Lines<'_>) -> (usize, Option<CertFault>) {
    for passed in 0..100 {
        match lines.next(alloc) {
            Ok(CertLine::End) => return (passed, None),
            Ok(_) => {}
            Err(fault) => return (passed, Some(fault)),
        }
    }
    (100, None)
}

#[test]
fn lines_are_answered_again(rt: HostRuntime) -> Result<(), Fail> {
    let alloc = rt.alloc();
    let whole = with_line(alloc, 0, "")?;
    assert!(rt; whole.len() < 10_000);
    let mut lines = Lines::new(whole.as_bytes());
    assert_eq!(rt; pass(alloc, &mut lines), (7, None));
    assert_eq!(rt; pass(alloc, &mut lines), (0, None));
    let wrong = with_line(alloc, 6, "leaf 0 1 0:0")?;
    assert!(rt; wrong.len() < 10_000);
    let mut lines = Lines::new(wrong.as_bytes());
    assert_eq!(rt; pass(alloc, &mut lines), (5, Some(CertFault::Range(6))));
    assert_eq!(rt; pass(alloc, &mut lines), (0, Some(CertFault::Range(6))));
    Ok(())
}

/// Verdicts and their lines.
const VERDICTS: [(Verdict, &str); 4] = [
    (
        Verdict::Plan {
            objective: 8850000,
            bound: 0,
        },
        "plan 8850000 0",
    ),
    (Verdict::NoPlan, "no-plan"),
    (
        Verdict::Unfinished {
            bound: 7,
            best: None,
        },
        "unfinished 7 none",
    ),
    (
        Verdict::Unfinished {
            bound: 7,
            best: Some(12),
        },
        "unfinished 7 12",
    ),
];

/// Texts that are no verdict's line.
const NO_VERDICTS: [&str; 8] = [
    "",
    "plan 1 2\n",
    "plan 1",
    "plan 01 2",
    "plan 1 -2",
    "no-plan ",
    "unfinished none 7",
    "plan 85070591730234615865843651857942052865 0",
];

#[test]
fn verdicts(rt: HostRuntime) -> Result<(), OutOfMemory> {
    let alloc = rt.alloc();
    for (verdict, line) in &VERDICTS {
        assert_eq!(rt; read_verdict(line.as_bytes()), Some(*verdict), "{line}");
    }
    for line in &NO_VERDICTS {
        assert_eq!(rt; read_verdict(line.as_bytes()), None, "{line}");
    }
    let written = verdict_line(
        alloc,
        &Verdict::Unfinished {
            bound: 7,
            best: Some(12),
        },
    )?;
    assert_eq!(rt; written.as_slice(), b"unfinished 7 12".as_slice());
    Ok(())
}
