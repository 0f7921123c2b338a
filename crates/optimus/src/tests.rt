mod auditing;
mod certificates;
mod countries;
mod country_folders;
mod faults;
mod formats;
mod limits;
mod planning;
mod refusals;
mod reporting;
mod unfinished;
mod words;

use crate::optimus;
use opt_base::{OutOfMemory, SureShelf, SureSink};
use std::alloc::{AllocError, Global};
use std::process::Abort;

/// The path of a file, and what it holds.
#[derive(Clone, Copy)]
struct Held<'a>(&'a str, &'a str);

/// What is said to be held at a path at which nothing is.
const MISSING: &str = "missing";

/// A basket of one month: 500 g of rice give 1800 of the 2100 that are needed.
const BASKET: [Held<'static>; 4] = [
    Held(
        "d/settings.toml",
        "format = 1\nmonths = 1\ndays = [30]\ngoal = \"shortfall\"\ngap = 300\nnodes = 1\n",
    ),
    Held(
        "d/commodities.csv",
        "commodity,group,min_g,max_g,step_g\nrice,,0,500,10\n",
    ),
    Held(
        "d/nutrients.csv",
        "nutrient,required,max_short,weight\nenergy,2100,2100,1\n",
    ),
    Held(
        "d/contents.csv",
        "commodity,nutrient,per_100g\nrice,energy,360\n",
    ),
];

/// Rice that is bought at S, moved to P and eaten there by 1,000 persons in one month.
const LINE: [Held<'static>; 8] = [
    Held(
        "d/settings.toml",
        "format = 1\nmonths = 1\ndays = [30]\ngoal = \"cost\"\ngap = 0\nnodes = 1000\n",
    ),
    Held(
        "d/commodities.csv",
        "commodity,group,min_g,max_g,step_g\nrice,,0,600,10\n",
    ),
    Held(
        "d/nutrients.csv",
        "nutrient,required,max_short,weight\nenergy,2100,0,1\n",
    ),
    Held(
        "d/contents.csv",
        "commodity,nutrient,per_100g\nrice,energy,360\n",
    ),
    Held(
        "d/places.csv",
        "place,kind,storage,throughput,handling,storage_cost\nS,supplier,0,,0,0\nP,point,0,,0,0\n",
    ),
    Held(
        "d/offers.csv",
        "offer,place,commodity,price,max_kg,first,last\no1,S,rice,450,20000,1,1\n",
    ),
    Held(
        "d/arcs.csv",
        "arc,from,to,cost,capacity,lead\na1,S,P,50,20000,0\n",
    ),
    Held("d/persons.csv", "place,month,persons\nP,1,1000\n"),
];

/// The plan file of the line: 59 steps are the least that give what is needed, and 1,000 persons get 17,700 kg.
const LINE_PLAN: &str = "quantity,name,commodity,month,amount\n\
    ration,rice,,1,590\nbuy,o1,,1,17700\nship,a1,rice,1,17700\nfeed,P,rice,1,17700\n";

/// A certificate of the line. Its root line shows 52,500,000 / 6, its left leaf that 58 steps are too few, its
/// right leaf 17,700,000 / 2.
const LINE_CERTIFICATE: &str = "optimus-certificate 1\nplan 8850000 8850000\n\
    root 6 4 0:250 1:3 3:2700 4:3000\npoint 4 0:59 2:17700 3:17700 4:17700\nsplit 0 58\n\
    leaf 0 1 0:1\nleaf 2 3 1:1 3:900 4:1000\nend\n";

const LINE_SUMMARY: &str = "{\"bound\":\"8850000\",\"gap\":\"0\",\"goal\":\"cost\",\"nodes\":3,\
    \"objective\":\"8850000\",\"verdict\":\"plan\"}\n";

/// The line printed of the plan of the line.
const LINE_VERDICT: &str = "plan 8850000 bound 8850000 gap 0 nodes 3\n";

/// Makes a shelf hold these files.
fn hold(shelf: &mut SureShelf, held: &[Held<'_>]) -> Result<(), OutOfMemory> {
    for one in held {
        shelf.load(one.0, one.1.as_bytes())?;
    }
    Ok(())
}

/// A shelf with some files, of which a later one stands for an earlier one of the same path.
fn shelf_of(
    alloc: Global,
    held: &[Held<'_>],
    changes: &[Held<'_>],
) -> Result<SureShelf, OutOfMemory> {
    let mut shelf = SureShelf::new(alloc);
    hold(&mut shelf, held)?;
    hold(&mut shelf, changes)?;
    Ok(shelf)
}

/// The words of a command line.
fn words_of(alloc: Global, words: &[&str]) -> Result<Vec<String>, AllocError> {
    let mut made = Vec::new(alloc);
    for word in words {
        made.push(word.to_string(alloc)?)?;
    }
    Ok(made)
}

/// What the program answered.
#[derive(Drop)]
struct Answer {
    status: u8,
    out: SureSink,
    err: SureSink,
}

/// What the program answers to these words over a shelf.
fn answer_to(alloc: Global, shelf: &mut SureShelf, words: &[&str]) -> Result<Answer, OutOfMemory> {
    let words = words_of(alloc, words)?;
    let mut out = SureSink::new(alloc);
    let mut err = SureSink::new(alloc);
    let status = optimus(alloc, &words, shelf, &mut out, &mut err);
    Ok(Answer { status, out, err })
}

/// A command on the folder `d`, the status with which it ends, and its lines: those of a refusal are on `err`.
#[derive(Clone, Copy)]
struct Step<'a>(&'a str, u8, &'a str);

fn expect_lines(rt: &impl Abort, answer: &Answer, lines: &str) {
    if answer.status == 3 {
        assert_eq!(rt; answer.err.written(), lines.as_bytes());
        assert_eq!(rt; answer.out.written(), b"".as_slice());
    } else {
        assert_eq!(rt; answer.out.written(), lines.as_bytes());
        assert_eq!(rt; answer.err.written(), b"".as_slice());
    }
}

/// A command over a shelf ends so.
fn expect_step(
    rt: &impl Abort,
    alloc: Global,
    shelf: &mut SureShelf,
    step: &Step<'_>,
) -> Result<(), OutOfMemory> {
    let answer = answer_to(alloc, shelf, &[step.0, "d"])?;
    assert_eq!(rt; answer.status, step.1);
    expect_lines(rt, &answer, step.2);
    Ok(())
}

fn expect_steps(
    rt: &impl Abort,
    alloc: Global,
    shelf: &mut SureShelf,
    steps: &[Step<'_>],
) -> Result<(), OutOfMemory> {
    for step in steps {
        expect_step(rt, alloc, shelf, step)?;
    }
    Ok(())
}

/// The shelf holds these files, or nothing where they are missing.
fn expect_held(rt: &impl Abort, shelf: &SureShelf, files: &[Held<'_>]) {
    for file in files {
        assert_eq!(rt;
            shelf.held(file.0).unwrap_or(MISSING.as_bytes()),
            file.1.as_bytes()
        );
    }
}

/// Commands one after another over a folder with changes, and what some files hold in the end.
#[derive(Clone, Copy)]
struct Case<'a> {
    held: &'a [Held<'a>],
    changes: &'a [Held<'a>],
    steps: &'a [Step<'a>],
    files: &'a [Held<'a>],
}

fn expect_case(rt: &impl Abort, alloc: Global, case: &Case<'_>) -> Result<(), OutOfMemory> {
    let mut shelf = shelf_of(alloc, case.held, case.changes)?;
    expect_steps(rt, alloc, &mut shelf, case.steps)?;
    expect_held(rt, &shelf, case.files);
    Ok(())
}

fn expect_cases(rt: &impl Abort, alloc: Global, cases: &[Case<'_>]) -> Result<(), OutOfMemory> {
    for case in cases {
        expect_case(rt, alloc, case)?;
    }
    Ok(())
}
