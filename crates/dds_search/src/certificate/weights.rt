//! Rows of whole weights: what the tokens of each place weigh.
ghost use Rattle.std.specs.Prelude.{◌≡◌, true};

use crate::net::Net;
use crate::net::firings::Change;
use crate::net::outlets::Outlet;
use crate::net::places::{Place, caps_of};
use dds_base::NoMemory;
use dds_simplex::common_divisor;
use std::alloc::Global;

/// How a row carries the samples in flight that it weighs.
#[derive(Clone, Copy, Debug, PartialEq, Eq)]
pub(crate) enum Carrying {
    /// By permits and takes: a permit weighs what the tokens that its write makes weigh together.
    Permits,
    /// By caps: nothing else weighs.
    Caps,
}

/// A row by places.
#[derive(Drop)]
pub(crate) struct WeighedRow {
    /// By place.
    pub(crate) weights: Vec<u32>,
    /// What the tokens at the opening weigh together, or as many samples as the caps allow.
    pub(crate) budget: u128,
    pub(crate) carrying: Carrying,
    /// Rows with other fingerprints weigh some place otherwise.
    fingerprint: u64,
}

/// A number made of all weights in their order.
fn fingerprint_of(weights: &[u32]) -> u64 {
    let mut mark: u64 = 0;
    for weight in weights {
        mark = mark
            .wrapping_add(u64::from(*weight))
            .wrapping_add(1)
            .wrapping_mul(MULTIPLIER);
    }
    mark
}

/// What fingerprints are multiplied by, time and again: 2^64 over the golden ratio, an odd number.
const MULTIPLIER: u64 = 0x9e37_79b9_7f4a_7c15;

/// The greatest number that divides all of the values; it stops looking once that is 1.
pub(crate) fn divisor_of(values: &[i128]) -> u128 {
    let mut found = 0;
    for value in values {
        if found == 1 {
            return 1;
        }
        found = common_divisor(found, value.unsigned_abs());
    }
    found
}

/// The values over a divisor, `None` where one isn't a number from 0 to 4,294,967,295.
fn divided(alloc: Global, values: &[i128], divisor: i128) -> Result<Option<Vec<u32>>, NoMemory> {
    let mut weights = Vec::new(alloc);
    for value in values {
        let quotient = value.checked_div(divisor);
        let Some(Ok(weight)) = quotient.map(|q| u32::try_from(q)) else {
            return Ok(None);
        };
        weights.push(weight)?;
    }
    Ok(Some(weights))
}

/// What a permit of an outlet weighs. A sum past 64 bits is given as the greatest number, which is past 32 bits as
/// well.
pub(crate) fn permit(outlet: &Outlet, weights: &[u32]) -> u64 {
    let mut sum: u64 = 0;
    for place in &outlet.places {
        if let Some(weight) = weights.get(*place) {
            sum = sum.saturating_add(u64::from(*weight));
        }
    }
    sum
}

/// Whether each permit weighs at most 4,294,967,295.
fn permits_fit(outlets: &[Outlet], weights: &[u32]) -> bool {
    for outlet in outlets {
        if permit(outlet, weights) > u64::from(u32::MAX) {
            return false;
        }
    }
    true
}

/// What the tokens at the opening weigh together. It can't reach the greatest number: there are 2^14 places at most.
fn budget_of(places: &[Place], weights: &[u32]) -> u128 {
    let mut sum: u128 = 0;
    for place in 0..places.len() {
        if let Some(weight) = weights.get(place) {
            let weighed = u128::from(places[place].opening) * u128::from(*weight);
            sum = sum.saturating_add(weighed);
        }
    }
    sum
}

/// The places of a target weigh 1 each.
fn weigh_target(weights: &mut Vec<u32>, target: &[usize]) {
    for place in target {
        if let Some(weight) = weights.get_mut(*place) {
            *weight = 1;
        }
    }
}

/// What so many tokens of places weigh together.
pub(crate) fn weighed(changes: &[Change], weights: &[u32]) -> u128 {
    let mut sum: u128 = 0;
    for change in changes {
        if let Some(weight) = weights.get(change.place) {
            let more = u128::from(change.count).saturating_mul(u128::from(*weight));
            sum = sum.saturating_add(more);
        }
    }
    sum
}

impl WeighedRow {
    /// The row of some weights, `None` where a permit would weigh more than 4,294,967,295.
    pub(crate) fn of(net: &Net, weights: Vec<u32>) -> Option<WeighedRow> {
        if !permits_fit(&net.outlets, &weights) {
            return None;
        }
        let budget = budget_of(&net.places, &weights);
        let fingerprint = fingerprint_of(&weights);
        Some(WeighedRow {
            weights,
            budget,
            carrying: Carrying::Permits,
            fingerprint,
        })
    }

    /// The row that weighs the samples of a target alone, 1 each. `None` where caps don't carry all of them.
    pub(crate) fn by_caps(
        alloc: Global,
        net: &Net,
        target: &[usize],
    ) -> Result<Option<WeighedRow>, NoMemory> {
        let Some(budget) = caps_of(&net.places, target) else {
            return Ok(None);
        };
        let mut weights = vec![in alloc; 0; net.places.len()]?;
        weigh_target(&mut weights, target);
        let fingerprint = fingerprint_of(&weights);
        Ok(Some(WeighedRow {
            weights,
            budget,
            carrying: Carrying::Caps,
            fingerprint,
        }))
    }

    /// The row of some values without their common divisor, `None` where a weight would be above 4,294,967,295.
    pub(crate) fn exact(
        alloc: Global,
        net: &Net,
        values: &[i128],
    ) -> Result<Option<WeighedRow>, NoMemory> {
        let Ok(divisor) = i128::try_from(divisor_of(values)) else {
            return Ok(None);
        };
        match divided(alloc, values, divisor)? {
            Some(weights) => Ok(WeighedRow::of(net, weights)),
            None => Ok(None),
        }
    }

    /// What a token of a place weighs, 0 where there is no such place.
    pub(crate) fn weight(&self, place: usize) -> u32 {
        match self.weights.get(place) {
            Some(weight) => *weight,
            None => 0,
        }
    }

    /// The least weight of a token of the places, 0 where there are none.
    fn least(&self, places: &[usize]) -> u32 {
        let mut least = None;
        for place in places {
            let weight = self.weight(*place);
            least = match least {
                Some(other) if other < weight => Some(other),
                _ => Some(weight),
            };
        }
        least.unwrap_or(0)
    }

    /// The bound that the row shows for the places together: at most so many tokens are there at once.
    pub(crate) fn bound(&self, places: &[usize]) -> Option<u32> {
        let quotient = self.budget.checked_div(u128::from(self.least(places)))?;
        u32::try_from(quotient).ok()
    }

    /// The bound that the sum with another row shows for the places together. `None` also where the two carry samples
    /// in other ways.
    pub(crate) fn bound_with(&self, other: &WeighedRow, places: &[usize]) -> Option<u32> {
        if self.carrying != other.carrying {
            return None;
        }
        let budget = self.budget.checked_add(other.budget)?;
        let mut least = u64::MAX;
        for place in places {
            let weight = u64::from(self.weight(*place)) + u64::from(other.weight(*place));
            least = least.min(weight);
        }
        let quotient = budget.checked_div(u128::from(least))?;
        u32::try_from(quotient).ok()
    }

    /// The sum with another row of the same net, which carries samples in the same way. `None` where a weight or a
    /// permit would be above 4,294,967,295.
    pub(crate) fn plus(
        &self,
        alloc: Global,
        net: &Net,
        other: &WeighedRow,
    ) -> Result<Option<WeighedRow>, NoMemory> {
        let mut weights = Vec::new(alloc);
        for (one, more) in self.weights.iter().zip(&other.weights) {
            let Some(weight) = one.checked_add(*more) else {
                return Ok(None);
            };
            weights.push(weight)?;
        }
        Ok(self.sum_with(net, other, weights))
    }

    /// The sum with another row, where these are the sums of their weights.
    fn sum_with(&self, net: &Net, other: &WeighedRow, weights: Vec<u32>) -> Option<WeighedRow> {
        match self.carrying {
            Carrying::Permits => WeighedRow::of(net, weights),
            Carrying::Caps => {
                let fingerprint = fingerprint_of(&weights);
                Some(WeighedRow {
                    weights,
                    budget: self.budget.saturating_add(other.budget),
                    carrying: Carrying::Caps,
                    fingerprint,
                })
            }
        }
    }

    /// A copy.
    pub(crate) fn copied(&self, alloc: Global) -> Result<WeighedRow, NoMemory> {
        Ok(WeighedRow {
            weights: self.weights.to_vec(alloc)?,
            budget: self.budget,
            carrying: self.carrying,
            fingerprint: self.fingerprint,
        })
    }

    /// Whether two rows weigh each place the same, and carry samples in the same way.
    pub(crate) fn is_same(&self, other: &WeighedRow) -> bool
        ensures { result ≡ true → self.now.weights.items ≡ other.now.weights.items }
    {
        self.fingerprint == other.fingerprint
            && self.carrying == other.carrying
            && self.weights.as_slice() == other.weights.as_slice()
    }
}
