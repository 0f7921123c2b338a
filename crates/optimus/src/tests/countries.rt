use super::country_folders::{EVEN, FOUR, ONE, SHARED, THREE, TWO};
use super::{Held, Step, expect_steps, shelf_of};
use opt_base::{OutOfMemory, SureShelf};
use std::alloc::Global;
use std::process::Abort;
use std::test::Fail;

/// A file, and how many bytes it has.
#[derive(Clone, Copy)]
struct Length<'a>(&'a str, usize);

fn expect_lengths(rt: &impl Abort, shelf: &SureShelf, lengths: &[Length<'_>]) {
    for length in lengths {
        assert_eq!(rt; shelf.held(length.0).unwrap_or(b"").len(), length.1);
    }
}

/// Plans a country with this line, and holds the plan against the rows and the certificate against the tables.
fn expect_country(
    rt: &impl Abort,
    alloc: Global,
    own: &[Held<'_>],
    line: &str,
    lengths: &[Length<'_>],
) -> Result<(), OutOfMemory> {
    let mut shelf = shelf_of(alloc, &SHARED, own)?;
    let steps = [
        Step("plan", 0, line),
        Step("audit", 0, "audit 0 broken\n"),
        Step("check", 0, line),
    ];
    expect_steps(rt, alloc, &mut shelf, &steps)?;
    expect_lengths(rt, &shelf, lengths);
    Ok(())
}

/// The cheapest rations give just what is needed, 188,900 and 49,200 hundredths, at the prices at which a kilogram is
/// handed out: 495 of cereal, 795 of pulses, 1495 of oil, 645 of sugar and 245 of salt. 400 g, 60 g, 25 g, 15 g and 5 g
/// for 10,000 persons at eight points in five months of thirty days cost 3,527,700,000 mills.
const EVEN_LENGTHS: [Length<'static>; 3] = [
    Length("d/certificate.txt", 20_392),
    Length("d/plan.csv", 13_871),
    Length("d/summary.json", 99),
];

#[test]
fn each_point_has_as_many_persons(rt: HostRuntime) -> Result<(), Fail> {
    let line = "plan 3527700000 bound 3527700000 gap 0 nodes 1\n";
    expect_country(&rt, rt.alloc(), &EVEN, line, &EVEN_LENGTHS)?;
    Ok(())
}

/// The lengths of this and of the other countries are those that a program of no common code writes.
const ONE_LENGTHS: [Length<'static>; 3] = [
    Length("d/certificate.txt", 21_446),
    Length("d/plan.csv", 13_811),
    Length("d/summary.json", 99),
];

#[test]
fn four_hubs_and_eight_points(rt: HostRuntime) -> Result<(), Fail> {
    let line = "plan 3451324500 bound 3451324500 gap 0 nodes 1\n";
    expect_country(&rt, rt.alloc(), &ONE, line, &ONE_LENGTHS)?;
    Ok(())
}

const TWO_LENGTHS: [Length<'static>; 3] = [
    Length("d/certificate.txt", 40_356),
    Length("d/plan.csv", 25_726),
    Length("d/summary.json", 99),
];

#[test]
fn eight_hubs_and_sixteen_points(rt: HostRuntime) -> Result<(), Fail> {
    let line = "plan 6358571250 bound 6358571250 gap 0 nodes 1\n";
    expect_country(&rt, rt.alloc(), &TWO, line, &TWO_LENGTHS)?;
    Ok(())
}

const THREE_LENGTHS: [Length<'static>; 3] = [
    Length("d/certificate.txt", 58_457),
    Length("d/plan.csv", 37_906),
    Length("d/summary.json", 99),
];

#[test]
fn twelve_hubs_and_twenty_four_points(rt: HostRuntime) -> Result<(), Fail> {
    let line = "plan 9421296000 bound 9421296000 gap 0 nodes 1\n";
    expect_country(&rt, rt.alloc(), &THREE, line, &THREE_LENGTHS)?;
    Ok(())
}

const FOUR_LENGTHS: [Length<'static>; 3] = [
    Length("d/certificate.txt", 76_901),
    Length("d/plan.csv", 50_196),
    Length("d/summary.json", 101),
];

#[test]
fn sixteen_hubs_and_thirty_two_points(rt: HostRuntime) -> Result<(), Fail> {
    let line = "plan 12554478000 bound 12554478000 gap 0 nodes 1\n";
    expect_country(&rt, rt.alloc(), &FOUR, line, &FOUR_LENGTHS)?;
    Ok(())
}
