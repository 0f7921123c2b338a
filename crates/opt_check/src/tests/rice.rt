//! A month of rice for 1,000 persons: a ration in steps of 10 g, energy short of the need, and kilograms bought, shipped and
//! handed out. 58 1/3 steps would meet the need, so 59 do, and cost 8,850,000 mills.

use super::{check_text, push, refusal, system};
use opt_base::ModelFault;
use opt_system::{RowKind, RowList, System};
use opt_tree::Verdict;
use std::alloc::Global;
use std::process::Abort;
use std::test::Fail;

fn rice(rt: &impl Abort, alloc: Global) -> Result<System, ModelFault> {
    let mut rows = RowList::new(alloc);
    push(rt, &mut rows, RowKind::Ge, 210_000, &[(0, 3600), (1, 100)])?;
    push(rt, &mut rows, RowKind::Ge, 0, &[(0, -300_000), (4, 1000)])?;
    push(
        rt,
        &mut rows,
        RowKind::Ge,
        -999,
        &[(0, 300_000), (4, -1000)],
    )?;
    push(rt, &mut rows, RowKind::Eq, 0, &[(2, 1), (3, -1)])?;
    push(rt, &mut rows, RowKind::Eq, 0, &[(3, 1), (4, -1)])?;
    push(rt, &mut rows, RowKind::Ge, -20_000, &[(3, -1)])?;
    let high = [60, 0, 20_000, 20_000, 18_000];
    system(
        rt,
        alloc,
        &rows,
        &[0, 0, 0, 0, 0],
        &high,
        &[0, 0, 450, 50, 0],
    )
}

const ROOT: &str = "root 6 4 0:250 1:3 3:2700 4:3000";

const POINT: &str = "point 4 0:59 2:17700 3:17700 4:17700";

const SPLIT: &str = "split 0 58";
/// With at most 58 steps the need is not met.
const LEFT: &str = "leaf 0 1 0:1";
/// With at least 59 steps the cost is at least 17,700,000 / 2.
const RIGHT: &str = "leaf 2 3 1:1 3:900 4:1000";

/// A certificate with another line in place of one, from its second line on; the bytes after its end; what is printed.
type Change = (usize, &'static str, &'static str, &'static str);

/// The lines 2 to 7 are the verdict, the root line, the point, the split and its two leaves.
const CHANGES: [Change; 25] = [
    // Multipliers up to 2^56 may be written.
    (6, "leaf 0 1 0:72057594037927936", "", ""),
    (
        6,
        "leaf 0 1 0:72057594037927937",
        "",
        "refused certificate.txt line 6: Range\n",
    ),
    (
        6,
        "leaf 0 1 0:01",
        "",
        "refused certificate.txt line 6: BadLine\n",
    ),
    (
        6,
        "leaf 0 2 1:1 0:1",
        "",
        "refused certificate.txt line 6: Order\n",
    ),
    (3, POINT, "", "refused certificate.txt line 3: BadLine\n"),
    // The text is read to its end before a fault of what it shows is named.
    (
        6,
        "leaf 0 1 0:-1",
        "x",
        "refused certificate.txt: Trailing\n",
    ),
    (
        6,
        "leaf 0 1 0:-1",
        "",
        "refused certificate.txt node 1 row 0: Sign\n",
    ),
    // The first wrong entry of a leaf is named, whatever is wrong with it.
    (
        6,
        "leaf 0 2 0:-1 6:1",
        "",
        "refused certificate.txt node 1 row 0: Sign\n",
    ),
    (
        7,
        "leaf 2 2 1:1 6:-1",
        "",
        "refused certificate.txt node 2 row 6: RowNumber\n",
    ),
    (
        3,
        "root 6 1 0:-1",
        "",
        "refused certificate.txt: RootLine\n",
    ),
    (3, "root 6 1 6:1", "", "refused certificate.txt: RootLine\n"),
    (
        5,
        "split 0 60",
        "",
        "refused certificate.txt node 0: CutRange\n",
    ),
    (
        5,
        "split 5 0",
        "",
        "refused certificate.txt node 0: CutRange\n",
    ),
    (
        2,
        "plan 8850000 8850001",
        "",
        "refused certificate.txt: WrongBound 8850000\n",
    ),
    (
        2,
        "plan 8850001 8850000",
        "",
        "refused certificate.txt: WrongObjective 8850000\n",
    ),
    (
        2,
        "unfinished 8850000 8850000",
        "",
        "refused certificate.txt: UnderLimit 3\n",
    ),
    // The left leaf is not empty by the multipliers of the right one, and the root line bounds it.
    (
        6,
        RIGHT,
        "",
        "refused certificate.txt node 1: LeafOpen 8750000\n",
    ),
    (
        7,
        "leaf 1 0",
        "",
        "refused certificate.txt node 2: LeafOpen 8750000\n",
    ),
    // A ration past its range, a kilogram too little handed out, quantities that there are not, no food at all.
    (
        4,
        "point 2 0:61 7:1",
        "",
        "refused certificate.txt quantity 0: PlanRange\n",
    ),
    (
        4,
        "point 1 7:1",
        "",
        "refused certificate.txt quantity 7: PlanRange\n",
    ),
    (
        4,
        "point 4 0:59 2:17700 3:17700 4:17699",
        "",
        "refused certificate.txt row 1: PlanBroken\n",
    ),
    (
        4,
        "point 0",
        "",
        "refused certificate.txt row 0: PlanBroken\n",
    ),
    (8, LEFT, "", "refused certificate.txt line 8: BadLine\n"),
    (8, "end", "\n", "refused certificate.txt: Trailing\n"),
    (8, "end", "", ""),
];

/// The hand-made certificate of the least cost, with each line that is changed.
#[test]
fn a_changed_line(rt: HostRuntime) -> Result<(), Fail> {
    let alloc = rt.alloc();
    let system = rice(&rt, alloc)?;
    for (number, line, after, printed) in &CHANGES {
        let mut text = String::new(alloc);
        text.push_str("optimus-certificate 1\n")?;
        let lines = [
            "plan 8850000 8850000",
            ROOT,
            POINT,
            SPLIT,
            LEFT,
            RIGHT,
            "end",
        ];
        for (i, kept) in lines.iter().enumerate() {
            text.push_str(if i.saturating_add(2) == *number {
                line
            } else {
                kept
            })?;
            text.push_str("\n")?;
        }
        text.push_str(after)?;
        let answer = check_text(&rt, alloc, &system, 0, 1000, text.as_str());
        let refused = refusal(alloc, answer.err())?;
        assert_eq!(rt; refused.as_str(), *printed);
    }
    Ok(())
}

/// The lines of the nodes, with what is printed after the file's name.
const WRONG_NODES: [(&str, &str); 8] = [
    // Two nodes with the same fault.
    (
        "split 0 58\nsplit 0 60\nleaf 0 1 0:1\nleaf 0 1 0:1\nsplit 0 58\nleaf 1 0\nleaf 1 0",
        " node 1: CutRange",
    ),
    (
        "split 0 58\nleaf 0 1 7:1\nleaf 0 1 6:1",
        " node 1 row 7: RowNumber",
    ),
    (
        "split 0 58\nleaf 0 1 1:-1\nleaf 0 1 0:-1",
        " node 1 row 1: Sign",
    ),
    (
        "split 0 58\nleaf 1 0\nleaf 1 0",
        " node 1: LeafOpen 8750000",
    ),
    // Two nodes with different faults.
    (
        "split 0 60\nleaf 0 1 0:-1\nleaf 0 1 6:1",
        " node 0: CutRange",
    ),
    (
        "split 0 58\nleaf 0 1 0:-1\nleaf 0 1 6:1",
        " node 1 row 0: Sign",
    ),
    (
        "split 0 58\nleaf 0 1 6:1\nleaf 0 1 0:-1",
        " node 1 row 6: RowNumber",
    ),
    (
        "split 0 58\nleaf 1 0\nleaf 0 1 0:-1",
        " node 1: LeafOpen 8750000",
    ),
];

/// Of two nodes with a fault the first in the file's order is named.
#[test]
fn two_wrong_nodes(rt: HostRuntime) -> Result<(), Fail> {
    let alloc = rt.alloc();
    let system = rice(&rt, alloc)?;
    for (nodes, printed) in &WRONG_NODES {
        let text = format!(in alloc;
            "optimus-certificate 1\nplan 8850000 8850000\n{ROOT}\n{POINT}\n{nodes}\nend\n"
        )?;
        let answer = check_text(&rt, alloc, &system, 0, 1000, text.as_str());
        let refused = refusal(alloc, answer.err())?;
        let expected = format!(in alloc; "refused certificate.txt{printed}\n")?;
        assert_eq!(rt; refused.as_str(), expected.as_str());
    }
    Ok(())
}

/// A search that met its limit: one more split would pass a limit of 2, and not one of 3.
#[test]
fn a_search_at_its_limit(rt: HostRuntime) -> Result<(), Fail> {
    let alloc = rt.alloc();
    let system = rice(&rt, alloc)?;
    let verdict = Verdict::Unfinished {
        bound: 8_750_000,
        best: Some(8_850_000),
    };
    let text = format!(in alloc;
        "optimus-certificate 1\nunfinished 8750000 8850000\n{ROOT}\n{POINT}\nleaf 1 0\nend\n"
    )?;
    let answer = check_text(&rt, alloc, &system, 0, 2, text.as_str());
    assert!(rt; answer == Ok((verdict, 1)));
    let answer = check_text(&rt, alloc, &system, 0, 3, text.as_str());
    let refused = refusal(alloc, answer.err())?;
    assert_eq!(rt; refused.as_str(), "refused certificate.txt: UnderLimit 1\n");
    let answer = check_text(&rt, alloc, &system, 100_000, 2, text.as_str());
    let refused = refusal(alloc, answer.err())?;
    assert_eq!(rt; refused.as_str(), "refused certificate.txt: NothingOpen\n");
    Ok(())
}
