use super::{Case, Held, LINE, LINE_PLAN, Step, expect_cases};
use std::test::Fail;

/// 17,700 kg are bought at 450, moved at 50 and handed out: 7,965,000 and 885,000 mills.
const REPORTED: [Case<'static>; 1] = [Case {
    held: &LINE,
    changes: &[
        Held("d/plan.csv", LINE_PLAN),
        Held("d/report_costs.csv", "an old report\n"),
    ],
    steps: &[Step("report", 0, "report written\n")],
    files: &[
        Held(
            "d/report_sites.csv",
            "month,place,commodity,stock,bought,arrived,sent,kept,handed_out\n\
            1,S,rice,0,17700,0,17700,0,0\n1,P,rice,0,0,17700,0,0,17700\n",
        ),
        Held(
            "d/report_costs.csv",
            "month,bought,shipped,stored,total\n1,7965000,885000,0,8850000\n\
            all,7965000,885000,0,8850000\n",
        ),
        Held(
            "d/report_basket.csv",
            "month,kind,name,amount\n1,ration,rice,590\n1,short,energy,0\n",
        ),
        Held("d/plan.csv", LINE_PLAN),
    ],
}];

#[test]
fn the_line_is_reported(rt: HostRuntime) -> Result<(), Fail> {
    expect_cases(&rt, rt.alloc(), &REPORTED)?;
    Ok(())
}
