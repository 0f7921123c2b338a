use super::{
    BASKET, Case, Held, LINE, LINE_CERTIFICATE, LINE_VERDICT, Step, expect_cases, expect_step,
    shelf_of,
};
use opt_base::OutOfMemory;
use std::alloc::Global;
use std::process::Abort;
use std::test::Fail;

/// A certificate of the basket with one leaf that shows nothing.
const BASKET_CERTIFICATE: &str = "optimus-certificate 1\nplan 300 0\nroot 1 0\n\
    point 2 0:50 1:300\nleaf 1 0\nend\n";

/// Checks a certificate of a folder.
fn expect_checked(
    rt: &impl Abort,
    alloc: Global,
    held: &[Held<'_>],
    certificate: &str,
    step: &Step<'_>,
) -> Result<(), OutOfMemory> {
    let mut shelf = shelf_of(alloc, held, &[])?;
    shelf.load("d/certificate.txt", certificate.as_bytes())?;
    expect_step(rt, alloc, &mut shelf, step)
}

/// A certificate in which this piece is replaced, and what comes of it.
#[derive(Clone, Copy)]
struct Replaced<'a>(&'a str, &'a str, u8, &'a str);

fn expect_replaced(
    rt: &impl Abort,
    alloc: Global,
    held: &[Held<'_>],
    certificate: &str,
    case: &Replaced<'_>,
) -> Result<(), OutOfMemory> {
    let changed = certificate.replace(alloc, case.0, case.1)?;
    expect_checked(rt, alloc, held, &changed, &Step("check", case.2, case.3))
}

fn expect_all_replaced(
    rt: &impl Abort,
    alloc: Global,
    held: &[Held<'_>],
    certificate: &str,
    cases: &[Replaced<'_>],
) -> Result<(), OutOfMemory> {
    for case in cases {
        expect_replaced(rt, alloc, held, certificate, case)?;
    }
    Ok(())
}

/// The root line may be without multipliers, or show 210,000 - 50 x 3,600 - 2,100 x 99, which is below 0.
const OF_THE_BASKET: [Replaced<'static>; 6] = [
    Replaced("", "", 0, "plan 300 bound 0 gap 300 nodes 1\n"),
    Replaced(
        "root 1 0\n",
        "root 1 1 0:1\n",
        0,
        "plan 300 bound 0 gap 300 nodes 1\n",
    ),
    Replaced(
        "plan 300 0",
        "plan 299 0",
        3,
        "refused certificate.txt: WrongObjective 300\n",
    ),
    Replaced(
        "plan 300 0",
        "plan 300 1",
        3,
        "refused certificate.txt: WrongBound 0\n",
    ),
    Replaced(
        "point 2 0:50 1:300",
        "point 1 0:50",
        3,
        "refused certificate.txt row 0: PlanBroken\n",
    ),
    Replaced(
        "0:50",
        "0:51",
        3,
        "refused certificate.txt quantity 0: PlanRange\n",
    ),
];

#[test]
fn a_certificate_without_multipliers_is_checked(rt: HostRuntime) -> Result<(), Fail> {
    let alloc = rt.alloc();
    expect_all_replaced(&rt, alloc, &BASKET, BASKET_CERTIFICATE, &OF_THE_BASKET)?;
    Ok(())
}

/// The greatest multiplier that a certificate may have shows what 1 does.
const OF_THE_LINE: [Replaced<'static>; 11] = [
    Replaced("", "", 0, LINE_VERDICT),
    Replaced(
        "leaf 0 1 0:1\n",
        "leaf 0 1 0:72057594037927936\n",
        0,
        LINE_VERDICT,
    ),
    Replaced(
        "root 6 4 0:250 1:3 3:2700 4:3000",
        "root 6 4 0:250 1:3 3:2700 6:3000",
        3,
        "refused certificate.txt: RootLine\n",
    ),
    Replaced(
        "root 6 4 0:250",
        "root 6 4 0:-250",
        3,
        "refused certificate.txt: RootLine\n",
    ),
    Replaced(
        "leaf 0 1 0:1\n",
        "leaf 0 1 0:-1\n",
        3,
        "refused certificate.txt node 1 row 0: Sign\n",
    ),
    Replaced(
        "leaf 0 1 0:1\n",
        "leaf 0 1 6:1\n",
        3,
        "refused certificate.txt node 1 row 6: RowNumber\n",
    ),
    Replaced(
        "split 0 58",
        "split 0 60",
        3,
        "refused certificate.txt node 0: CutRange\n",
    ),
    Replaced(
        "plan 8850000 8850000",
        "plan 8850000 8850001",
        3,
        "refused certificate.txt: WrongBound 8850000\n",
    ),
    Replaced(
        "leaf 0 1 0:1\nleaf 2 3 1:1 3:900 4:1000\n",
        "leaf 2 3 1:1 3:900 4:1000\nleaf 0 1 0:1\n",
        3,
        "refused certificate.txt node 1: LeafOpen 8750000\n",
    ),
    Replaced(
        "leaf 2 3 1:1 3:900 4:1000\n",
        "leaf 1 0\n",
        3,
        "refused certificate.txt node 2: LeafOpen 8750000\n",
    ),
    Replaced(
        "plan 8850000 8850000",
        "unfinished 8850000 8850000",
        3,
        "refused certificate.txt: UnderLimit 3\n",
    ),
];

#[test]
fn a_certificate_written_by_hand_is_checked(rt: HostRuntime) -> Result<(), Fail> {
    expect_all_replaced(&rt, rt.alloc(), &LINE, LINE_CERTIFICATE, &OF_THE_LINE)?;
    Ok(())
}

/// What is no certificate's text: the first line that cannot stand in its place is named. Whether a text is one is judged
/// before what it says.
const NO_TEXTS: [Replaced<'static>; 9] = [
    Replaced(
        "leaf 0 1 0:1\n",
        "leaf 0 1 0:01\n",
        3,
        "refused certificate.txt line 6: BadLine\n",
    ),
    Replaced(
        "optimus-certificate 1\n",
        "optimus-certificate 1\r\n",
        3,
        "refused certificate.txt line 1: BadLine\n",
    ),
    Replaced(
        "plan 8850000 8850000\n",
        "no-plan\n",
        3,
        "refused certificate.txt line 4: BadLine\n",
    ),
    Replaced(
        "root 6 4 0:250 1:3 3:2700 4:3000\npoint 4 0:59 2:17700 3:17700 4:17700\n",
        "point 4 0:59 2:17700 3:17700 4:17700\nroot 6 4 0:250 1:3 3:2700 4:3000\n",
        3,
        "refused certificate.txt line 3: BadLine\n",
    ),
    Replaced(
        "leaf 0 1 0:1\n",
        "leaf 0 1 0:72057594037927937\n",
        3,
        "refused certificate.txt line 6: Range\n",
    ),
    Replaced(
        "leaf 0 1 0:1\n",
        "leaf 0 2 1:1 0:1\n",
        3,
        "refused certificate.txt line 6: Order\n",
    ),
    Replaced("end\n", "end\n\n", 3, "refused certificate.txt: Trailing\n"),
    Replaced("end\n", "end", 3, "refused certificate.txt: Truncated\n"),
    Replaced(
        "leaf 0 1 0:1\nleaf 2 3 1:1 3:900 4:1000\nend\n",
        "leaf 0 1 0:-1\nleaf 2 3 1:1 3:900 4:1000\nend\n\n",
        3,
        "refused certificate.txt: Trailing\n",
    ),
];

#[test]
fn what_is_no_certificate_is_refused(rt: HostRuntime) -> Result<(), Fail> {
    expect_all_replaced(&rt, rt.alloc(), &LINE, LINE_CERTIFICATE, &NO_TEXTS)?;
    Ok(())
}

/// The text without its last line, its last two lines and so on, and nothing at last.
const CUT_SHORT: [Replaced<'static>; 8] = [
    Replaced("end\n", "", 3, "refused certificate.txt: Truncated\n"),
    Replaced(
        "leaf 2 3 1:1 3:900 4:1000\nend\n",
        "",
        3,
        "refused certificate.txt: Truncated\n",
    ),
    Replaced(
        "leaf 0 1 0:1\nleaf 2 3 1:1 3:900 4:1000\nend\n",
        "",
        3,
        "refused certificate.txt: Truncated\n",
    ),
    Replaced(
        "split 0 58\nleaf 0 1 0:1\nleaf 2 3 1:1 3:900 4:1000\nend\n",
        "",
        3,
        "refused certificate.txt: Truncated\n",
    ),
    Replaced(
        "point 4 0:59 2:17700 3:17700 4:17700\nsplit 0 58\nleaf 0 1 0:1\n\
        leaf 2 3 1:1 3:900 4:1000\nend\n",
        "",
        3,
        "refused certificate.txt: Truncated\n",
    ),
    Replaced(
        "root 6 4 0:250 1:3 3:2700 4:3000\npoint 4 0:59 2:17700 3:17700 4:17700\n\
        split 0 58\nleaf 0 1 0:1\nleaf 2 3 1:1 3:900 4:1000\nend\n",
        "",
        3,
        "refused certificate.txt: Truncated\n",
    ),
    Replaced(
        "plan 8850000 8850000\nroot 6 4 0:250 1:3 3:2700 4:3000\n\
        point 4 0:59 2:17700 3:17700 4:17700\nsplit 0 58\nleaf 0 1 0:1\n\
        leaf 2 3 1:1 3:900 4:1000\nend\n",
        "",
        3,
        "refused certificate.txt: Truncated\n",
    ),
    Replaced(
        "optimus-certificate 1\nplan 8850000 8850000\n\
        root 6 4 0:250 1:3 3:2700 4:3000\npoint 4 0:59 2:17700 3:17700 4:17700\n\
        split 0 58\nleaf 0 1 0:1\nleaf 2 3 1:1 3:900 4:1000\nend\n",
        "",
        3,
        "refused certificate.txt: Truncated\n",
    ),
];

#[test]
fn a_certificate_cut_short_is_refused(rt: HostRuntime) -> Result<(), Fail> {
    expect_all_replaced(&rt, rt.alloc(), &LINE, LINE_CERTIFICATE, &CUT_SHORT)?;
    Ok(())
}

/// What a certificate shows depends on the gap and the limit of nodes: a leaf that shows nothing does not close where
/// 300 are more than the gap, and a search that may not split has an open leaf. The model is judged before.
const OTHER_FOLDERS: [Case<'static>; 4] = [
    Case {
        held: &BASKET,
        changes: &[
            Held(
                "d/settings.toml",
                "format = 1\nmonths = 1\ndays = [30]\ngoal = \"shortfall\"\ngap = 299\n\
                nodes = 1\n",
            ),
            Held("d/certificate.txt", BASKET_CERTIFICATE),
        ],
        steps: &[Step("check", 3, "refused certificate.txt node 0: LeafOpen 0\n")],
        files: &[],
    },
    Case {
        held: &LINE,
        changes: &[
            Held(
                "d/settings.toml",
                "format = 1\nmonths = 1\ndays = [30]\ngoal = \"cost\"\ngap = 0\nnodes = 3\n",
            ),
            Held(
                "d/certificate.txt",
                "optimus-certificate 1\nunfinished 8850000 8850000\n\
                root 6 4 0:250 1:3 3:2700 4:3000\npoint 4 0:59 2:17700 3:17700 4:17700\n\
                split 0 58\nleaf 0 1 0:1\nleaf 2 3 1:1 3:900 4:1000\nend\n",
            ),
        ],
        steps: &[Step("check", 3, "refused certificate.txt: NothingOpen\n")],
        files: &[],
    },
    Case {
        held: &LINE,
        changes: &[],
        steps: &[Step("check", 3, "refused certificate.txt: MissingFile\n")],
        files: &[],
    },
    Case {
        held: &LINE,
        changes: &[Held(
            "d/offers.csv",
            "offer,place,commodity,price,max_kg,first,last\no1,S,rice,1e3,20000,1,1\n",
        )],
        steps: &[Step(
            "check",
            3,
            "refused offers.csv record 1 column price: BadNumber\n",
        )],
        files: &[],
    },
];

#[test]
fn what_a_certificate_shows_depends_on_its_folder(rt: HostRuntime) -> Result<(), Fail> {
    expect_cases(&rt, rt.alloc(), &OTHER_FOLDERS)?;
    Ok(())
}
