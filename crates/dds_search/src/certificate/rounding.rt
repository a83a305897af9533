//! Weights near to values that pass 32 bits: scaled down, and raised until no firing raises the sum.

use crate::certificate::weights::{WeighedRow, weighed};
use crate::net::Net;
use crate::net::firings::{Change, Firing};
use crate::net::outlets::Outlet;
use dds_base::NoMemory;
use std::alloc::Global;

/// How often the scale is halved. Each halving leaves more room for the weights to rise.
const SCALES: u32 = 24;

/// How many times all firings are gone through, at most, for one scale.
const ROUNDS: usize = 256;

/// What the values of an outlet's places are together.
fn permit_value(outlet: &Outlet, values: &[i128]) -> Option<i128> {
    let mut sum: i128 = 0;
    for place in &outlet.places {
        if let Some(value) = values.get(*place) {
            sum = sum.checked_add(*value)?;
        }
    }
    Some(sum)
}

/// The greatest of the values.
fn greatest_value(values: &[i128]) -> i128 {
    let mut greatest = 0;
    for value in values {
        greatest = greatest.max(*value);
    }
    greatest
}

/// The greatest value of a place or of an outlet.
fn greatest(net: &Net, values: &[i128]) -> Option<i128> {
    let mut greatest = greatest_value(values);
    for outlet in &net.outlets {
        greatest = greatest.max(permit_value(outlet, values)?);
    }
    Some(greatest)
}

/// A value by a scale, where the greatest value becomes the scale.
fn scaled_value(value: i128, scale: u32, greatest: i128) -> Option<u32> {
    let product = value.checked_mul(i128::from(scale))?;
    u32::try_from(product.checked_div(greatest)?).ok()
}

/// The values by a scale.
fn scaled(
    alloc: Global,
    values: &[i128],
    scale: u32,
    greatest: i128,
) -> Result<Option<Vec<u32>>, NoMemory> {
    let mut weights = Vec::new(alloc);
    for value in values {
        let Some(weight) = scaled_value(*value, scale, greatest) else {
            return Ok(None);
        };
        weights.push(weight)?;
    }
    Ok(Some(weights))
}

/// The places of the target weigh 1 at least.
fn weigh_target(weights: &mut Vec<u32>, target: &[usize]) {
    for place in target {
        if let Some(weight) = weights.get_mut(*place) {
            *weight = (*weight).max(1);
        }
    }
}

/// The need with the greatest value of all that it takes, the first of several.
fn greatest_need(needs: &[Change], values: &[i128]) -> Option<Change> {
    let mut found: Option<(i128, Change)> = None;
    for need in needs {
        let value = values.get(need.place).copied().unwrap_or(0);
        let value = value.checked_mul(i128::from(need.count))?;
        let is_greater = match found {
            Some((greatest, _)) => greatest < value,
            None => true,
        };
        if is_greater {
            found = Some((value, *need));
        }
    }
    found.map(|(_, need)| need)
}

/// Raises a weight so that what the need takes weighs `lack` more at least. `None` where it would be above
/// 4,294,967,295.
fn raise(weights: &mut Vec<u32>, need: Change, lack: u128) -> Option<()> {
    let count = u128::from(need.count);
    let rise = lack.checked_add(count.checked_sub(1)?)?.checked_div(count)?;
    let weight = weights.get_mut(need.place)?;
    let raised = u128::from(*weight).checked_add(rise)?;
    *weight = u32::try_from(raised).ok()?;
    Some(())
}

/// Raises a need of a firing where what it gives weighs more than what it needs. Returns whether it did, `None` where
/// it can't.
fn repair(firing: &Firing, values: &[i128], weights: &mut Vec<u32>) -> Option<bool> {
    let given = weighed(&firing.gives, weights);
    let needed = weighed(&firing.needs, weights);
    if given <= needed {
        return Some(false);
    }
    let need = greatest_need(&firing.needs, values)?;
    raise(weights, need, given.checked_sub(needed)?)?;
    Some(true)
}

/// Goes through all firings once. Returns whether a weight rose.
fn round(firings: &[Firing], values: &[i128], weights: &mut Vec<u32>) -> Option<bool> {
    let mut changed = false;
    for firing in firings {
        let raised = repair(firing, values, weights)?;
        changed = changed || raised;
    }
    Some(changed)
}

/// Rounds until one raises nothing. Returns whether one did.
fn come_to_rest(firings: &[Firing], values: &[i128], weights: &mut Vec<u32>) -> bool {
    for _ in 0..ROUNDS {
        match round(firings, values, weights) {
            Some(true) => {}
            Some(false) => return true,
            None => return false,
        }
    }
    false
}

/// What is to be rounded, and for what.
#[derive(Drop)]
pub(crate) struct Rounding<'a> {
    pub(crate) net: &'a Net,
    pub(crate) values: &'a [i128],
    pub(crate) target: &'a [usize],
    pub(crate) limit: u32,
}

impl<'a> Rounding<'a> {
    /// The row by one scale, where it shows the limit.
    fn at_scale(
        &self,
        alloc: Global,
        scale: u32,
        greatest: i128,
    ) -> Result<Option<WeighedRow>, NoMemory> {
        let Some(mut weights) = scaled(alloc, self.values, scale, greatest)? else {
            return Ok(None);
        };
        weigh_target(&mut weights, self.target);
        if !come_to_rest(&self.net.firings, self.values, &mut weights) {
            return Ok(None);
        }
        let Some(row) = WeighedRow::of(self.net, weights) else {
            return Ok(None);
        };
        match row.bound(self.target) {
            Some(bound) if bound <= self.limit => Ok(Some(row)),
            _ => Ok(None),
        }
    }

    /// A row that shows the limit, by the greatest scale that gives one.
    pub(crate) fn row(&self, alloc: Global) -> Result<Option<WeighedRow>, NoMemory> {
        let Some(greatest) = greatest(self.net, self.values) else {
            return Ok(None);
        };
        let mut scale = u32::MAX;
        for _ in 0..SCALES {
            if let Some(row) = self.at_scale(alloc, scale, greatest)? {
                return Ok(Some(row));
            }
            scale /= 2;
        }
        Ok(None)
    }
}
