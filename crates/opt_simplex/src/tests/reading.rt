use opt_base::{ModelFault, OutOfMemory};
use opt_sums::{has_no_zero, is_rising};
use opt_system::{Range, RowKind, RowList, System};
use std::alloc::{AllocError, Global};
use std::process::Abort;
use std::str::SplitWhitespace;

/// What the end is.
#[derive(Clone, Copy, Debug, PartialEq, Eq)]
pub enum Outcome {
    Optimal,
    Empty,
    Wide,
    Fill,
    Pivots,
}

/// An end of the rule, as it is expected.
#[derive(Debug, Drop)]
pub struct Ending {
    pub outcome: Outcome,
    pub done: u32,
    pub q: i128,
    pub entries: Vec<(u32, i128)>,
    pub point: Vec<(i128, i128)>,
}

/// How many quantities there are, and lows, highs and costs; how many rows there are, and of each row `ge` or `eq`, the
/// right-hand side, how many terms it has and these. Where the words say something else the test ends.
pub fn system(
    rt: &impl Abort,
    alloc: Global,
    words: &mut SplitWhitespace,
) -> Result<System, ModelFault> {
    let quantities = small(rt, words);
    let low = numbers(rt, alloc, words, quantities)?;
    let high = numbers(rt, alloc, words, quantities)?;
    let costs = numbers(rt, alloc, words, quantities)?;
    let rows = rows(rt, alloc, words)?;
    system_of(rt, alloc, &rows, &low, &high, &costs)
}

/// The end with its finished pivots and `q`; how many multipliers there are and these; how many fractions there are and
/// these; and no word more.
pub fn expected_end(
    rt: &impl Abort,
    alloc: Global,
    words: &mut SplitWhitespace,
) -> Result<Ending, AllocError> {
    let outcome = outcome_word(rt, words);
    let done = small(rt, words);
    let q = wide(rt, words);
    let entries = entries(rt, alloc, words)?;
    let point = fractions(rt, alloc, words)?;
    let over = words.next().is_none();
    assert!(rt; over);
    Ok(Ending {
        outcome,
        done,
        q,
        entries,
        point,
    })
}

/// A number of 32 bits.
pub fn small(rt: &impl Abort, words: &mut SplitWhitespace) -> u32 {
    words
        .next()
        .unwrap_or("")
        .parse::<u32>()
        .expect(rt, "a number of 32 bits")
}

fn number(rt: &impl Abort, words: &mut SplitWhitespace) -> i64 {
    words
        .next()
        .unwrap_or("")
        .parse::<i64>()
        .expect(rt, "a number of 64 bits")
}

fn wide(rt: &impl Abort, words: &mut SplitWhitespace) -> i128 {
    words
        .next()
        .unwrap_or("")
        .parse::<i128>()
        .expect(rt, "a number of 128 bits")
}

fn kind(rt: &impl Abort, words: &mut SplitWhitespace) -> RowKind {
    match words.next() {
        Some("ge") => RowKind::Ge,
        Some("eq") => RowKind::Eq,
        _ => panic!(rt; "no kind of row"),
    }
}

fn outcome_word(rt: &impl Abort, words: &mut SplitWhitespace) -> Outcome {
    match words.next() {
        Some("Optimal") => Outcome::Optimal,
        Some("Empty") => Outcome::Empty,
        Some("Wide") => Outcome::Wide,
        Some("Pivots") => Outcome::Pivots,
        _ => panic!(rt; "no end"),
    }
}

fn numbers(
    rt: &impl Abort,
    alloc: Global,
    words: &mut SplitWhitespace,
    count: u32,
) -> Result<Vec<i64>, AllocError> {
    let mut numbers = Vec::new(alloc);
    for _ in 0..count {
        numbers.push(number(rt, words))?;
    }
    Ok(numbers)
}

fn terms(
    rt: &impl Abort,
    alloc: Global,
    words: &mut SplitWhitespace,
) -> Result<Vec<(u32, i64)>, AllocError> {
    let mut terms = Vec::new(alloc);
    for _ in 0..small(rt, words) {
        terms.push((small(rt, words), number(rt, words)))?;
    }
    Ok(terms)
}

fn entries(
    rt: &impl Abort,
    alloc: Global,
    words: &mut SplitWhitespace,
) -> Result<Vec<(u32, i128)>, AllocError> {
    let mut entries = Vec::new(alloc);
    for _ in 0..small(rt, words) {
        entries.push((small(rt, words), wide(rt, words)))?;
    }
    Ok(entries)
}

fn fractions(
    rt: &impl Abort,
    alloc: Global,
    words: &mut SplitWhitespace,
) -> Result<Vec<(i128, i128)>, AllocError> {
    let mut fractions = Vec::new(alloc);
    for _ in 0..small(rt, words) {
        fractions.push((wide(rt, words), wide(rt, words)))?;
    }
    Ok(fractions)
}

fn rows(
    rt: &impl Abort,
    alloc: Global,
    words: &mut SplitWhitespace,
) -> Result<RowList, OutOfMemory> {
    let mut rows = RowList::new(alloc);
    for _ in 0..small(rt, words) {
        let kind = kind(rt, words);
        let right = number(rt, words);
        let terms = terms(rt, alloc, words)?;
        push(rt, &mut rows, kind, right, &terms)?;
    }
    Ok(rows)
}

/// Adds the row, or ends the test where its terms do not go by rising quantity without a 0.
pub fn push(
    rt: &impl Abort,
    rows: &mut RowList,
    kind: RowKind,
    right: i64,
    terms: &[(u32, i64)],
) -> Result<(), OutOfMemory> {
    let rising = is_rising(terms);
    assert!(rt; rising);
    let no_zero = has_no_zero(terms);
    assert!(rt; no_zero);
    rows.push(kind, right, terms)
}

/// The system of these rows, or ends the test where its numbers are too great.
pub fn system_of(
    rt: &impl Abort,
    alloc: Global,
    rows: &RowList,
    low: &[i64],
    high: &[i64],
    costs: &[i64],
) -> Result<System, ModelFault> {
    let ordered = Range::is_ordered(low, high);
    assert!(rt; ordered);
    let root = Range::new(alloc, low, high)?;
    let small = System::are_small(rows, &root, costs);
    assert!(rt; small);
    System::from_rows(alloc, rows, &root, costs)
}
