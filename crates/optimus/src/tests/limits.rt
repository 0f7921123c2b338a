use super::{BASKET, Held, LINE, LINE_PLAN, Step, expect_step, shelf_of};
use opt_base::OutOfMemory;
use std::alloc::{AllocError, Global};
use std::process::Abort;
use std::test::Fail;

/// A table of commodities with so many records, each of 0 g or 10 g.
fn commodities(alloc: Global, count: u32) -> Result<String, AllocError> {
    let mut text = "commodity,group,min_g,max_g,step_g\n".to_string(alloc)?;
    for number in 0..count {
        let record = format!(in alloc; "c{number},,0,10,10\n")?;
        text.push_str(record.as_str())?;
    }
    Ok(text)
}

/// A basket without needs.
const NO_NEEDS: [Held<'static>; 2] = [
    Held("d/nutrients.csv", "nutrient,required,max_short,weight\n"),
    Held("d/contents.csv", "commodity,nutrient,per_100g\n"),
];

/// Plans baskets of so many commodities.
fn expect_many(
    rt: &impl Abort,
    alloc: Global,
    count: u32,
    step: &Step<'_>,
) -> Result<(), OutOfMemory> {
    let table = commodities(alloc, count)?;
    let mut shelf = shelf_of(alloc, &BASKET, &NO_NEEDS)?;
    shelf.load("d/commodities.csv", table.as_bytes())?;
    expect_step(rt, alloc, &mut shelf, step)
}

#[test]
fn a_model_has_at_most_20_000_quantities(rt: HostRuntime) -> Result<(), Fail> {
    let most = Step("plan", 0, "plan 0 bound 0 gap 0 nodes 1\n");
    expect_many(&rt, rt.alloc(), 20_000, &most)?;
    let more = Step(
        "plan",
        3,
        "refused model column quantities: TooMany 20001\n",
    );
    expect_many(&rt, rt.alloc(), 20_001, &more)?;
    Ok(())
}

/// A text with spaces behind it, of this length.
fn padded(alloc: Global, text: &str, length: usize) -> Result<String, AllocError> {
    let mut padded = text.to_string(alloc)?;
    for _ in text.len()..length {
        padded.push(' ')?;
    }
    Ok(padded)
}

/// A command on the line with one more file of this length.
fn expect_padded(
    rt: &impl Abort,
    alloc: Global,
    file: &Held<'_>,
    length: usize,
    step: &Step<'_>,
) -> Result<(), OutOfMemory> {
    let text = padded(alloc, file.1, length)?;
    let mut shelf = shelf_of(alloc, &LINE, &[])?;
    shelf.load(file.0, text.as_bytes())?;
    expect_step(rt, alloc, &mut shelf, step)
}

#[test]
fn a_plan_file_has_at_most_16_777_216_bytes(rt: HostRuntime) -> Result<(), Fail> {
    let plan = Held("d/plan.csv", LINE_PLAN);
    let more = Step("audit", 3, "refused plan.csv: FileTooBig\n");
    expect_padded(&rt, rt.alloc(), &plan, 16_777_217, &more)?;
    Ok(())
}

#[test]
fn settings_have_at_most_65_536_bytes(rt: HostRuntime) -> Result<(), Fail> {
    let settings = LINE[0];
    let most = Step("audit", 3, "refused plan.csv: MissingFile\n");
    expect_padded(&rt, rt.alloc(), &settings, 65_536, &most)?;
    let more = Step("audit", 3, "refused settings.toml: FileTooBig\n");
    expect_padded(&rt, rt.alloc(), &settings, 65_537, &more)?;
    Ok(())
}
