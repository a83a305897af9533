//! A line of a dictionary: one variable in terms of others.
ghost use Rattle.std.specs.Prelude.{◌≡◌, ◌+ℤ◌, ◌*ℤ◌, ◌<ℤ◌, ◌<◌, ℕ, int_div, pos, replicate, slice_index_or, slice_set};
ghost use Rattle.std.specs.Prelude.{vec_len, IfNone, IfOk, IfSome};
ghost use Rattle.dds_simplex.specs.Keeping.{IsLineKept};
ghost use Rattle.dds_simplex.specs.Line.{DividesLine, IsLineWithout, IsMixed, IsPairWithout, IsTimesMore};
ghost use Rattle.dds_simplex.specs.Points.{IsReplaced, IsTurned};

use crate::divisor::common_divisor;
use crate::keeping::keep_columns;
use std::alloc::{AllocError, Global};

/// `den * x = constant + numbers[0] * x0 + numbers[1] * x1 + ..`, by the free variables in the order of their columns.
/// `den` is above 0.
#[derive(Drop)]
pub struct Line {
    den: i128,
    constant: i128,
    numbers: Vec<i128>,
}

/// `number * own + added * part`, where it fits.
fn mix_number(number: i128, own: i128, added: i128, part: i128) -> Option<i128>
    ensures { IfSome result (λ m. m ≡ number *ℤ own +ℤ added *ℤ part) }
{
    let kept = number.checked_mul(own)?;
    let more = added.checked_mul(part)?;
    kept.checked_add(more)
}

/// The number of a column, 0 where there is no such column.
fn number_at(numbers: &[i128], column: usize) -> i128
    ensures { result ≡ slice_index_or numbers.now column (pos 0) }
{
    match numbers.get(column) {
        Some(number) => *number,
        None => 0,
    }
}

/// Each number becomes `own` times itself and `part` times the other one in its place, where there is one. `None` also
/// where there are more of the others.
fn mix_numbers(numbers: &mut Vec<i128>, own: i128, other: &[i128], part: i128) -> Option<()>
    ensures columns { vec_len numbers.new ≡ vec_len numbers.old }
    ensures mixed { IfSome result
        (λ _. (column : ℕ) → slice_index_or numbers.new.items column (pos 0)
        ≡ slice_index_or numbers.old.items column (pos 0) *ℤ own +ℤ slice_index_or other.now column
        (pos 0) *ℤ part) }
{
    if numbers.len() < other.len() {
        return None;
    }
    for i in 0..numbers.len() {
        let added = number_at(other, i);
        if let Some(number) = numbers.get_mut(i) {
            *number = mix_number(*number, own, added, part)?;
        }
    }
    Some(())
}

/// Divides each number.
fn divide_numbers(numbers: &mut Vec<i128>, divisor: i128)
    requires { pos 0 <ℤ divisor }
    ensures columns { vec_len numbers.new ≡ vec_len numbers.old }
    ensures divided { (column : ℕ)
        → slice_index_or numbers.new.items column (pos 0)
        ≡ int_div (slice_index_or numbers.old.items column (pos 0)) divisor }
{
    for i in 0..numbers.len() {
        if let Some(number) = numbers.get_mut(i) {
            *number /= divisor;
        }
    }
}

/// Both numbers without their greatest common divisor. `None` where they have none that fits.
fn reduced_pair(first: i128, second: i128) -> Option<(i128, i128)>
    ensures { IfSome result (λ pair. IsPairWithout first second pair.0 pair.1) }
{
    let divisor = common_divisor(first.unsigned_abs(), second.unsigned_abs());
    let divisor = i128::try_from(divisor).ok()?;
    if divisor < 1 {
        return None;
    }
    Some((first / divisor, second / divisor))
}

impl Line {
    /// `x = constant`, over so many columns.
    pub fn constant(alloc: Global, constant: i128, columns: usize) -> Result<Line, AllocError>
        ensures value { IfOk result (λ l. (l.den ≡ pos 1) × (l.constant ≡ constant)) }
        ensures columns { IfOk result (λ l. l.numbers.items ≡ replicate columns (pos 0)) }
    {
        Ok(Line {
            den: 1,
            constant,
            numbers: vec![in alloc; 0; columns]?,
        })
    }

    /// The number before `x`, above 0.
    pub fn den(&self) -> i128
        ensures { result ≡ self.now.den }
    {
        self.den
    }

    /// The number that no variable has.
    pub fn alone(&self) -> i128
        ensures { result ≡ self.now.constant }
    {
        self.constant
    }

    /// The number of a column's variable, 0 where there is no such column.
    pub fn number(&self, column: usize) -> i128
        ensures { result ≡ slice_index_or self.now.numbers.items column (pos 0) }
    {
        number_at(&self.numbers, column)
    }

    /// The greatest common divisor of all its numbers; it stops looking once that is 1.
    fn divisor(&self) -> u128
        ensures { DividesLine result self.now }
    {
        let mut found = common_divisor(self.den.unsigned_abs(), self.constant.unsigned_abs());
        for number in &self.numbers {
            if found == 1 {
                return 1;
            }
            found = common_divisor(found, number.unsigned_abs());
        }
        found
    }

    /// Divides the line by the greatest common divisor of its numbers.
    fn reduce(&mut self) -> Option<()>
        ensures columns { vec_len self.new.numbers ≡ vec_len self.old.numbers }
        ensures divided { IfSome result (λ _. IsLineWithout self.old self.new) }
    {
        let divisor = i128::try_from(self.divisor()).ok()?;
        if divisor <= 1 {
            return Some(());
        }
        self.den /= divisor;
        self.constant /= divisor;
        divide_numbers(&mut self.numbers, divisor);
        Some(())
    }

    /// Becomes `own` times itself and `part` times the other line, over `den`.
    fn mix(&mut self, own: i128, other: &Line, part: i128, den: i128) -> Option<()>
        ensures columns { vec_len self.new.numbers ≡ vec_len self.old.numbers }
        ensures mixed { IfSome result (λ _. IsMixed own self.old part other.now den self.new) }
    {
        self.constant = mix_number(self.constant, own, other.constant, part)?;
        mix_numbers(&mut self.numbers, own, &other.numbers, part)?;
        self.den = den;
        self.reduce()
    }

    /// Adds `times` a column's variable. Nothing changes where there is no such column. `None`, with nothing changed,
    /// where a number would pass 128 bits.
    pub fn add_column(&mut self, times: i128, column: usize) -> Option<()>
        ensures added { IfSome result
            (λ _. self.new.numbers.items
            ≡ slice_set self.old.numbers.items column
            (slice_index_or self.old.numbers.items column (pos 0) +ℤ times *ℤ self.old.den)) }
        ensures refused { IfNone result (self.new.numbers.items ≡ self.old.numbers.items) }
        ensures others { (self.new.den ≡ self.old.den) × (self.new.constant ≡ self.old.constant) }
    {
        let more = times.checked_mul(self.den)?;
        if let Some(number) = self.numbers.get_mut(column) {
            *number = number.checked_add(more)?;
        }
        Some(())
    }

    /// Adds a number. `None`, with nothing changed, where one would pass 128 bits.
    pub fn add_constant(&mut self, number: i128) -> Option<()>
        ensures added { IfSome result (λ _. self.new.constant ≡ self.old.constant +ℤ number *ℤ self.old.den) }
        ensures refused { IfNone result (self.new.constant ≡ self.old.constant) }
        ensures others { (self.new.den ≡ self.old.den) × (self.new.numbers.items ≡ self.old.numbers.items) }
    {
        let more = number.checked_mul(self.den)?;
        self.constant = self.constant.checked_add(more)?;
        Some(())
    }

    /// Adds `times` another line. `None` where a number would pass 128 bits, and where the other line has more columns:
    /// then what is left of this one means nothing, but it has as many columns as before.
    pub fn add(&mut self, times: i128, other: &Line) -> Option<()>
        ensures columns { vec_len self.new.numbers ≡ vec_len self.old.numbers }
        ensures added { IfSome result (λ _. IsTimesMore times other.now self.old self.new) }
        ensures den { pos 0 <ℤ self.old.den → pos 0 <ℤ other.now.den → IfSome result (λ _. pos 0 <ℤ self.new.den) }
    {
        let (mine, own) = reduced_pair(self.den, other.den)?;
        let part = times.checked_mul(mine)?;
        let den = self.den.checked_mul(own)?;
        self.mix(own, other, part, den)
    }

    /// Puts another line in the place of its column's variable.
    pub(crate) fn replace(&mut self, column: usize, given: &Line) -> Option<()>
        ensures replaced { IfSome result (λ _. IsReplaced column given.now self.old self.new) }
        ensures den { pos 0 <ℤ self.old.den → pos 0 <ℤ given.now.den → IfSome result (λ _. pos 0 <ℤ self.new.den) }
    {
        let beta = self.number(column);
        if beta == 0 {
            return Some(());
        }
        let (part, own) = reduced_pair(beta, given.den)?;
        let den = self.den.checked_mul(own)?;
        *self.numbers.get_mut(column)? = 0;
        self.mix(own, given, part, den)
    }

    /// Keeps the columns in which a sum has no number below 0, in their order.
    pub(crate) fn keep(&mut self, sum: &Line)
        ensures { IsLineKept sum.now.numbers.items self.old self.new }
    {
        keep_columns(&mut self.numbers, sum);
    }

    /// Says the column's variable in terms of the one that it gave, which takes the column. The column's number has to
    /// be below 0.
    pub(crate) fn turn(&mut self, column: usize) -> Option<()>
        ensures turned { IfSome result (λ _. IsTurned column self.old self.new) }
        ensures den { slice_index_or self.old.numbers.items column (pos 0) <ℤ pos 0
            → IfSome result (λ _. pos 0 <ℤ self.new.den) }
    {
        let den = self.number(column).checked_neg()?;
        let own = self.den.checked_neg()?;
        *self.numbers.get_mut(column)? = own;
        self.den = den;
        self.reduce()
    }
}
