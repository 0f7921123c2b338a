use crate::{ElimFault, Equation, compare};
use opt_base::OutOfMemory;
use std::alloc::Global;
use std::cmp::Ordering;
use std::process::Abort;
use std::test::Fail;

/// 2^126.
const HALF: i128 = 85_070_591_730_234_615_865_843_651_857_942_052_864;

/// The equation, or ends the test where none can be made.
fn equation(
    rt: &impl Abort,
    alloc: Global,
    basic: u32,
    lead: i128,
    terms: &[(u32, i128)],
) -> Result<Equation, OutOfMemory> {
    let solved = Equation::is_solved(basic, lead, terms);
    assert!(rt; solved);
    Equation::new(alloc, basic, lead, terms)
}

/// The equation turned, or ends the test where it has no term there.
fn turn(
    rt: &impl Abort,
    alloc: Global,
    equation: &Equation,
    col: u32,
) -> Result<Equation, OutOfMemory> {
    let coefficient = equation.coefficient(col);
    assert!(rt; coefficient != 0);
    equation.turn(alloc, col)
}

/// The turned equation's variable replaced in the other one.
fn eliminate(
    rt: &impl Abort,
    alloc: Global,
    old: &Equation,
    turned: &Equation,
) -> Result<Equation, ElimFault> {
    let basic = old.basic();
    let col = turned.basic();
    assert!(rt; basic != col);
    let coefficient = old.coefficient(col);
    assert!(rt; coefficient != 0);
    let other = turned.coefficient(basic);
    assert!(rt; other == 0);
    old.eliminate(alloc, turned)
}

/// The same in place.
fn eliminate_in_place(
    rt: &impl Abort,
    old: &mut Equation,
    turned: &Equation,
    buffer: &mut Vec<(u32, i128)>,
) -> Result<(), ElimFault> {
    let basic = old.basic();
    let col = turned.basic();
    assert!(rt; basic != col);
    let coefficient = old.coefficient(col);
    assert!(rt; coefficient != 0);
    let other = turned.coefficient(basic);
    assert!(rt; other == 0);
    old.eliminate_in_place(turned, buffer)
}

#[test]
fn turns_an_equation(rt: HostRuntime) -> Result<(), Fail> {
    let old = equation(&rt, rt.alloc(), 5, 3, &[(0, 2), (1, -4)])?;
    let turned = turn(&rt, rt.alloc(), &old, 0)?;
    assert_eq!(rt; turned.basic(), 0);
    assert_eq!(rt; turned.lead(), 2);
    assert_eq!(rt; turned.terms(), [(1, 4), (5, 3)].as_slice());
    Ok(())
}

#[test]
fn turns_an_equation_for_a_negative_term(rt: HostRuntime) -> Result<(), Fail> {
    let old = equation(&rt, rt.alloc(), 5, 3, &[(0, 2), (1, -4), (7, 1)])?;
    let turned = turn(&rt, rt.alloc(), &old, 1)?;
    assert_eq!(rt; turned.lead(), 4);
    assert_eq!(rt; turned.terms(), [(0, 2), (5, -3), (7, 1)].as_slice());
    Ok(())
}

#[test]
fn divides_by_the_common_divisor(rt: HostRuntime) -> Result<(), Fail> {
    let equation = equation(&rt, rt.alloc(), 3, 10, &[(1, 4), (2, -6)])?;
    assert_eq!(rt; equation.lead(), 5);
    assert_eq!(rt; equation.terms(), [(1, 2), (2, -3)].as_slice());
    Ok(())
}

#[test]
fn eliminates_a_variable(rt: HostRuntime) -> Result<(), Fail> {
    let turned = equation(&rt, rt.alloc(), 0, 2, &[(1, 4), (5, 3)])?;
    let mut old = equation(&rt, rt.alloc(), 6, 5, &[(0, 1), (2, 7)])?;
    let new = eliminate(&rt, rt.alloc(), &old, &turned)?;
    assert_eq!(rt; new.basic(), 6);
    assert_eq!(rt; new.lead(), 10);
    assert_eq!(rt; new.terms(), [(1, 4), (2, 14), (5, 3)].as_slice());
    let mut buffer = Vec::new(rt.alloc());
    eliminate_in_place(&rt, &mut old, &turned, &mut buffer)?;
    assert_eq!(rt; old.lead(), 10);
    assert_eq!(rt; old.terms(), new.terms());
    assert_eq!(rt; buffer.as_slice(), [(0, 1), (2, 7)].as_slice());
    Ok(())
}

#[test]
fn drops_a_sum_of_zero(rt: HostRuntime) -> Result<(), Fail> {
    let turned = equation(&rt, rt.alloc(), 0, 1, &[(1, 2), (3, 1)])?;
    let old = equation(&rt, rt.alloc(), 6, 1, &[(0, 3), (1, -6), (4, 1)])?;
    let new = eliminate(&rt, rt.alloc(), &old, &turned)?;
    assert_eq!(rt; new.terms(), [(3, 3), (4, 1)].as_slice());
    Ok(())
}

#[test]
fn is_wide_past_128_bits(rt: HostRuntime) -> Result<(), Fail> {
    let turned = equation(&rt, rt.alloc(), 0, 2, &[(1, 4), (5, 3)])?;
    let mut lead = equation(&rt, rt.alloc(), 6, HALF, &[(0, 1)])?;
    assert_eq!(rt;
        eliminate(&rt, rt.alloc(), &lead, &turned).err(),
        Some(ElimFault::Wide)
    );
    let mut buffer = Vec::new(rt.alloc());
    assert_eq!(rt;
        eliminate_in_place(&rt, &mut lead, &turned, &mut buffer).err(),
        Some(ElimFault::Wide)
    );
    assert_eq!(rt; lead.lead(), HALF);
    let own = equation(&rt, rt.alloc(), 6, 1, &[(0, 1), (2, -HALF)])?;
    assert_eq!(rt;
        eliminate(&rt, rt.alloc(), &own, &turned).err(),
        Some(ElimFault::Wide)
    );
    let short = equation(&rt, rt.alloc(), 6, 1, &[(0, 1), (2, 1 - HALF)])?;
    let new = eliminate(&rt, rt.alloc(), &short, &turned)?;
    assert_eq!(rt;
        new.terms(),
        [(1, 4), (2, 2 - HALF - HALF), (5, 3)].as_slice()
    );
    Ok(())
}

#[test]
fn is_wide_in_a_sum(rt: HostRuntime) -> Result<(), Fail> {
    let turned = equation(&rt, rt.alloc(), 0, 1, &[(1, -HALF)])?;
    let sum = equation(&rt, rt.alloc(), 6, 1, &[(0, 1), (1, -HALF)])?;
    assert_eq!(rt;
        eliminate(&rt, rt.alloc(), &sum, &turned).err(),
        Some(ElimFault::Wide)
    );
    let short = equation(&rt, rt.alloc(), 6, 1, &[(0, 1), (1, 1 - HALF)])?;
    let new = eliminate(&rt, rt.alloc(), &short, &turned)?;
    assert_eq!(rt; new.terms(), [(1, 1 - HALF - HALF)].as_slice());
    Ok(())
}

#[test]
fn compares_fractions(rt: HostRuntime) {
    let most = i128::MAX;
    let table = [
        ((-1, 2, -1, 3), Ordering::Less),
        ((1, 2, 1, 3), Ordering::Greater),
        ((2, 4, 3, 6), Ordering::Equal),
        ((-1, 3, 0, 1), Ordering::Less),
        ((0, 5, 0, 7), Ordering::Equal),
        ((most, 1, most, 2), Ordering::Greater),
        ((most - 1, most, most, most - 1), Ordering::Less),
        ((i128::MIN, 1, i128::MIN, most), Ordering::Less),
    ];
    for ((a, b, c, d), wanted) in table {
        assert!(rt; 1 <= b);
        assert!(rt; 1 <= d);
        assert_eq!(rt; compare(a, b, c, d), wanted, "{a}/{b} with {c}/{d}");
    }
}
