//! Small programs whose greatest values are known by hand.

use crate::tests::expecting::expect_equal;
use dds_simplex::{Dictionary, End, Line, Stop, Variable};
use std::alloc::Global;
use std::test::Fail;

/// `form[0] + form[1] * x + form[2] * y`.
fn line(alloc: Global, form: [i128; 3]) -> Result<Line, Fail> {
    let mut line = Line::constant(alloc, form[0], 2)?;
    let x = line.add_column(form[1], 0);
    let y = line.add_column(form[2], 1);
    match (x, y) {
        (Some(()), Some(())) => Ok(line),
        _ => Err("past 128 bits".into()),
    }
}

/// The conditions of a program: each line may not fall below 0.
fn under(alloc: Global, conditions: &[[i128; 3]]) -> Result<Dictionary, Fail> {
    let mut dictionary = Dictionary::new(alloc, 2)?;
    for condition in conditions {
        dictionary.push(line(alloc, *condition)?)?;
    }
    Ok(dictionary)
}

/// How a climb ended, the sum that it ended at, and how many pivots are left.
#[derive(Clone, Copy)]
struct Climbed {
    end: Result<End, Stop>,
    alone: i128,
    den: i128,
    left: usize,
}

fn climb(
    alloc: Global,
    conditions: &[[i128; 3]],
    sum: [i128; 3],
    pivots: usize,
) -> Result<Climbed, Fail> {
    let mut dictionary = under(alloc, conditions)?;
    let mut sum = line(alloc, sum)?;
    let mut left = pivots;
    let end = dictionary.climb(&mut sum, &mut left);
    Ok(Climbed {
        end,
        alone: sum.alone(),
        den: sum.den(),
        left,
    })
}

const CORNER: [[i128; 3]; 2] = [[4, -1, -2], [6, -3, -1]];

const GREAT: i128 = i128::MAX / 2;

/// What is climbed under which conditions, and how that ends.
struct Run {
    about: &'static str,
    conditions: &'static [[i128; 3]],
    sum: [i128; 3],
    pivots: usize,
    end: Result<End, Stop>,
}

const RUNS: [Run; 3] = [
    Run {
        about: "under x - y <= 1 alone x has no greatest value",
        conditions: &[[1, -1, 1]],
        sum: [0, 1, 0],
        pivots: 10,
        end: Ok(End::Unbounded),
    },
    Run {
        about: "one pivot isn't enough for the corner",
        conditions: &CORNER,
        sum: [0, 1, 1],
        pivots: 1,
        end: Ok(End::CutOff),
    },
    Run {
        about: "numbers that pass 128 bits are given up, and not rounded",
        conditions: &[[4, 1 - GREAT, -3], [6, -3, 2 - GREAT]],
        sum: [0, 1, 1],
        pivots: 10,
        end: Err(Stop::Overflow),
    },
];

#[test]
fn ends_without_a_greatest_value(rt: HostRuntime) -> Result<(), Fail> {
    for run in &RUNS {
        let climbed = climb(rt.alloc(), run.conditions, run.sum, run.pivots)?;
        expect_equal(&rt, climbed.end, run.end, run.about);
    }
    Ok(())
}

/// Under `x + 2 y <= 4` and `3 x + y <= 6` the greatest value of `x + y` is 14/5, at x = 8/5 and y = 6/5.
#[test]
fn meets_in_a_corner(rt: HostRuntime) -> Result<(), Fail> {
    let climbed = climb(rt.alloc(), &CORNER, [0, 1, 1], 10)?;
    expect_equal(&rt, climbed.end, Ok(End::Greatest), "the end");
    let corner = (climbed.alone, climbed.den, climbed.left);
    expect_equal(&rt, corner, (14, 5, 8), "the corner");
    Ok(())
}

/// `x * x0 + y * x1` over the variables that are free.
fn over_free(alloc: Global, dictionary: &Dictionary, x: i128, y: i128) -> Result<Line, Fail> {
    let mut sum = Line::constant(alloc, 0, dictionary.free().len())?;
    let first = dictionary.add(&mut sum, x, Variable::Column(0));
    let second = dictionary.add(&mut sum, y, Variable::Column(1));
    match (first, second) {
        (Some(()), Some(())) => Ok(sum),
        _ => Err("past 128 bits".into()),
    }
}

/// What is left after a sum was kept: the variables that are free, the greatest value under that, and the first two
/// variables there.
#[derive(Clone, Copy, Debug, PartialEq)]
struct Kept {
    ends: (Result<End, Stop>, Result<End, Stop>),
    free: usize,
    greatest: i128,
    x: i128,
    y: Option<i128>,
}

/// Climbs a sum and keeps it so; then climbs another.
fn keep(alloc: Global, dictionary: &mut Dictionary, sum: &mut Line) -> Result<Kept, Fail> {
    let mut left = 10;
    let first = dictionary.climb(sum, &mut left);
    let mut next = over_free(alloc, dictionary, -3, -1)?;
    dictionary.keep(sum, &mut next);
    let free = dictionary.free().len();
    let second = dictionary.climb(&mut next, &mut left);
    Ok(Kept {
        ends: (first, second),
        free,
        greatest: next.alone(),
        x: alone_in(dictionary, 0).unwrap_or(0),
        y: alone_in(dictionary, 1),
    })
}

/// The number that stands alone in the line of a column's variable, if it has one.
fn alone_in(dictionary: &Dictionary, column: usize) -> Option<i128> {
    match dictionary.line(Variable::Column(column)) {
        Some(line) => Some(line.alone()),
        None => None,
    }
}

fn kept_under_two(alloc: Global) -> Result<Kept, Fail> {
    let mut dictionary = under(alloc, &[[4, -1, -1], [3, -1, 0]])?;
    let mut sum = line(alloc, [0, 1, 1])?;
    keep(alloc, &mut dictionary, &mut sum)
}

/// Under `x + y <= 4` and `x <= 3` the sum is 4 at most; the least `3 x + y` that keeps it so is 4, at x = 0 and y = 4.
#[test]
fn keeps_a_sum(rt: HostRuntime) -> Result<(), Fail> {
    let wanted = Kept {
        ends: (Ok(End::Greatest), Ok(End::Greatest)),
        free: 1,
        greatest: -4,
        x: 0,
        y: Some(4),
    };
    let have = kept_under_two(rt.alloc())?;
    expect_equal(&rt, have, wanted, "what is kept");
    Ok(())
}
