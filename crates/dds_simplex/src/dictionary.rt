//! A dictionary: some variables in terms of the others, which are free. Where the free ones are 0, the others are not
//! below 0.
ghost use Rattle.std.specs.Prelude.{◌≡◌, ◌<◌, ◌≤◌, ◌<ℤ◌, ◌≤ℤ◌, ◌++◌, ◌∷◌, ℕ, pos, [], None, Ok, Some, IfErr};
ghost use Rattle.std.specs.Prelude.{IfNone, IfOk, IfSome, OnErr, OnOk, option_map, position, slice_index_or, true};
ghost use Rattle.std.specs.Prelude.{vec_len};
ghost use Rattle.std.specs.List.{All, HoldsAt};
ghost use Rattle.dds_simplex.specs.Dictionary.{IsGreatest, IsUnbounded, fresh_columns, is_variable, line_of};
ghost use Rattle.dds_simplex.specs.Keeping.{IsBasicKept, IsLineKept, kept_columns};
ghost use Rattle.dds_simplex.specs.Line.{IsColumnMore, IsTimesMore, number_of};
ghost use Rattle.dds_simplex.specs.Points.{IsAtMost, IsBasicReplaced, IsExchanged, KeepsPoints};

use crate::keeping::keep_columns;
use crate::line::Line;
use std::alloc::{AllocError, Global};
use std::mem;

/// A variable, named by where it stood when the dictionary was opened. The order is the one of Bland's rule.
#[derive(Clone, Copy, Debug, PartialEq, Eq, PartialOrd, Ord)]
pub enum Variable {
    /// A free one, by its column.
    Column(usize),
    /// One that a line gave, by the place of the line.
    Line(usize),
}

/// How a climb ended.
#[derive(Clone, Copy, Debug, PartialEq, Eq)]
pub enum End {
    /// At the greatest value.
    Greatest,
    /// There is no greatest value.
    Unbounded,
    /// Before that, since no pivot was left. Another climb of the sum goes on from here.
    CutOff,
}

/// Why a climb didn't end.
#[derive(Clone, Copy, Debug, PartialEq, Eq)]
pub enum Stop {
    /// Memory ran out.
    Memory,
    /// A number passed 128 bits. The dictionary is worth nothing any more.
    Overflow,
}

impl From<AllocError> for Stop {
    fn from(_: AllocError) -> Stop {
        Stop::Memory
    }
}

/// A variable that isn't free, and its line.
#[derive(Drop)]
struct Basic {
    variable: Variable,
    line: Line,
}

/// Variables in terms of free ones.
#[derive(Drop)]
pub struct Dictionary {
    free: Vec<Variable>,
    basics: Vec<Basic>,
}

impl Dictionary {
    /// A dictionary without lines, over so many free variables.
    #[tactic(auto, using(crate::proofs::Columns::columns_push))]
    pub fn new(alloc: Global, columns: usize) -> Result<Dictionary, AllocError>
        ensures free { IfOk result (λ d. d.free.items ≡ fresh_columns columns) }
        ensures lines { IfOk result (λ d. d.basics.items ≡ []) }
    {
        let mut free = Vec::new(alloc);
        for column in 0..columns {
            free.push(Variable::Column(column))?;
        }
        Ok(Dictionary {
            free,
            basics: Vec::new(alloc),
        })
    }

    /// Adds the line of a variable that isn't free, which is named by the line's place. Its constant has to be 0 or
    /// above. An `Err` means that memory ran out; then nothing changes.
    pub fn push(&mut self, line: Line) -> Result<(), AllocError>
        ensures ok { OnOk result (self.new.basics.items
            ≡ self.old.basics.items
            ++ record { variable = Variable.Line (vec_len self.old.basics); line = line } ∷ []) }
        ensures err { OnErr result (self.new.basics.items ≡ self.old.basics.items) }
        ensures free { self.new.free ≡ self.old.free }
    {
        let variable = Variable::Line(self.basics.len());
        match self.basics.push(Basic { variable, line }) {
            Ok(()) => Ok(()),
            Err(_) => Err(AllocError),
        }
    }

    /// The variables that are free, in the order of their columns.
    pub fn free(&self) -> &[Variable]
        ensures { result.now ≡ self.now.free.items }
    {
        &self.free
    }

    /// Adds `times` a variable to a sum: its line, or its column where it is free. `None` where a number would pass 128
    /// bits, which leaves a sum that means nothing, where a line has more columns than the sum, and where there is no
    /// such variable.
    pub fn add(&self, sum: &mut Line, times: i128, variable: Variable) -> Option<()>
        ensures given { (line : Line) → line_of self.now variable ≡ Some line
            → IfSome result (λ _. IsTimesMore times line sum.old sum.new) }
        ensures free { line_of self.now variable ≡ None
            → IfSome result (λ _. IsColumnMore times
            (position (is_variable variable) self.now.free.items) sum.old sum.new) }
        ensures columns { vec_len sum.new.numbers ≡ vec_len sum.old.numbers }
    {
        match self.line(variable) {
            Some(line) => sum.add(times, line),
            None => sum.add_column(times, self.column(variable)?),
        }
    }

    /// The line of a variable, `None` where it is free or was dropped.
    pub fn line(&self, variable: Variable) -> Option<&Line>
        ensures { option_map (λ line. line.now) result ≡ line_of self.now variable }
    {
        let basic = self.basics.iter().find(|basic| basic.variable == variable)?;
        Some(&basic.line)
    }

    /// The column of a free variable, `None` where it isn't free.
    fn column(&self, variable: Variable) -> Option<usize>
        ensures { result ≡ position (is_variable variable) self.now.free.items }
    {
        self.free.iter().position(|free| *free == variable)
    }

    /// From here on a sum that has climbed keeps its greatest value: the variables that would lower it are 0 for good,
    /// and their columns are dropped here and in the next sum, whose columns have to be the same. The others keep their
    /// order. The first sum is worth nothing any more.
    pub fn keep(&mut self, sum: &Line, next: &mut Line)
        ensures free { self.new.free.items ≡ kept_columns sum.now.numbers.items self.old.free.items }
        ensures basics { vec_len self.new.basics ≡ vec_len self.old.basics }
        ensures lines { (place : ℕ) (other : Basic) → place < vec_len self.old.basics
            → IsBasicKept sum.now.numbers.items (slice_index_or self.old.basics.items place other)
            (slice_index_or self.new.basics.items place other) }
        ensures next { IsLineKept sum.now.numbers.items next.old next.new }
    {
        keep_columns(&mut self.free, sum);
        next.keep(sum);
        for place in 0..self.basics.len() {
            if let Some(basic) = self.basics.get_mut(place) {
                basic.line.keep(sum);
            }
        }
    }

    /// The column of the least free variable that would raise the sum, `None` where none would. After a climb that
    /// found no greatest value no line falls with it: while it rises, and the other free variables stay 0, the sum
    /// rises without end.
    pub fn entering(&self, sum: &Line) -> Option<usize>
        ensures greatest { IfNone result (IsGreatest self.now sum.now) }
        ensures raises { IfSome result
            (λ column. (column < vec_len self.now.free) × (pos 0 <ℤ number_of sum.now column)) }
    {
        let mut found: Option<(Variable, usize)> = None;
        for column in 0..self.free.len() {
            let variable = self.free[column];
            let is_first = match found {
                Some((least, _)) => variable < least,
                None => true,
            };
            if is_first && sum.number(column) > 0 {
                found = Some((variable, column));
            }
        }
        found.map(|(_, column)| column)
    }

    /// The place of the line that bounds the free variable of a column the most, the least variable's where two are
    /// alike. None where no line bounds it.
    fn leaving(&self, column: usize) -> Result<Option<usize>, Stop>
        ensures overflow { IfErr result (λ e. e ≡ Stop.Overflow) }
        ensures unbounded { IfOk result
            (λ place. IfNone place (All (λ b. pos 0 ≤ℤ number_of b.line column) self.now.basics.items)) }
        ensures falls { IfOk result
            (λ place. IfSome place (λ k. HoldsAt (λ b. number_of b.line column <ℤ pos 0) self.now.basics.items k)) }
    {
        let mut found: Option<usize> = None;
        for place in 0..self.basics.len() {
            let basic = &self.basics[place];
            if basic.line.number(column) < 0 {
                let best = found.and_then(|best| self.basics.get(best));
                if is_first(basic, best, column).ok_or(Stop::Overflow)? {
                    found = Some(place);
                }
            }
        }
        Ok(found)
    }

    /// The free variable of a column and the one that a line gives change places, in all lines and in the sum.
    fn pivot(&mut self, sum: &mut Line, column: usize, place: usize) -> Result<(), Stop>
        ensures free { OnOk result (vec_len self.new.free ≡ vec_len self.old.free) }
        ensures points { column < vec_len self.old.free → OnOk result (KeepsPoints self.old sum.old self.new sum.new) }
        ensures den { HoldsAt (λ b. number_of b.line column <ℤ pos 0) self.old.basics.items place → pos 0 <ℤ sum.old.den
            → OnOk result (pos 0 <ℤ sum.new.den) }
    {
        if place >= self.basics.len() {
            return Ok(());
        }
        let mut given = self.basics.swap_remove(place);
        given.line.turn(column).ok_or(Stop::Overflow)?;
        replace_each(&mut self.basics, column, &given.line).ok_or(Stop::Overflow)?;
        sum.replace(column, &given.line).ok_or(Stop::Overflow)?;
        self.exchange(column, given)
    }

    /// The variable that a line gives takes a column, and the line gives the one that had it.
    fn exchange(&mut self, column: usize, mut given: Basic) -> Result<(), Stop>
        ensures exchanged { column < vec_len self.old.free → OnOk result (IsExchanged column given self.old self.new) }
        ensures free { vec_len self.new.free ≡ vec_len self.old.free }
    {
        if let Some(free) = self.free.get_mut(column) {
            mem::swap(free, &mut given.variable);
        }
        match self.basics.push(given) {
            Ok(()) => Ok(()),
            Err(_) => Err(Stop::Memory),
        }
    }

    /// Goes from point to point until the sum has its greatest value, and then says the sum by the variables that are
    /// free there. It takes the pivots that it makes from those that are left, and is cut off only where none is. After
    /// an `Err` the dictionary is worth nothing: `Overflow` where a number would pass 128 bits, and `Memory` where
    /// memory ran out.
    pub fn climb(&mut self, sum: &mut Line, left: &mut usize) -> Result<End, Stop>
        // Values that the lines allow they allow later too, and the sum has the same value there: where it was cut off
        // as well.
        ensures points { OnOk result (KeepsPoints self.old sum.old self.new sum.new) }
        // At the greatest value no free variable would raise the sum, so that no values of which none is below 0 give
        // it a greater one.
        ensures greatest { result ≡ Ok End.Greatest → IsGreatest self.new sum.new }
        ensures bound { result ≡ Ok End.Greatest → IsAtMost self.old sum.old sum.new.constant sum.new.den }
        // There is no greatest value where a free variable raises the sum and no line falls with it.
        ensures unbounded { result ≡ Ok End.Unbounded → IsUnbounded self.new sum.new }
        ensures den { pos 0 <ℤ sum.old.den → OnOk result (pos 0 <ℤ sum.new.den) }
        ensures spent { left.new ≤ left.old }
        ensures cut_off { result ≡ Ok End.CutOff → left.new ≡ 0 }
    {
        while *left > 0 {
            let Some(column) = self.entering(sum) else {
                return Ok(End::Greatest);
            };
            let Some(place) = self.leaving(column)? else {
                return Ok(End::Unbounded);
            };
            self.pivot(sum, column, place)?;
            *left -= 1;
        }
        Ok(End::CutOff)
    }
}

/// Puts a line in the place of its column's variable in each of the others.
fn replace_each(basics: &mut Vec<Basic>, column: usize, given: &Line) -> Option<()>
    ensures basics { vec_len basics.new ≡ vec_len basics.old }
    ensures lines { IfSome result
        (λ _. (place : ℕ) (other : Basic) → place < vec_len basics.old
        → IsBasicReplaced column given.now (slice_index_or basics.old.items place other)
        (slice_index_or basics.new.items place other)) }
{
    for place in 0..basics.len() {
        if let Some(basic) = basics.get_mut(place) {
            basic.line.replace(column, given)?;
        }
    }
    Some(())
}

/// Whether a line bounds the free variable of a column more than the best so far: constant by number, and then the
/// variable, is less.
fn is_first(basic: &Basic, best: Option<&Basic>, column: usize) -> Option<bool>
    ensures { IfNone best.entry (result ≡ Some true) }
{
    let Some(best) = best else {
        return Some(true);
    };
    let number = basic.line.number(column).checked_neg()?;
    let least = best.line.number(column).checked_neg()?;
    let mine = basic.line.alone().checked_mul(least)?;
    let other = best.line.alone().checked_mul(number)?;
    Some(mine < other || (mine == other && basic.variable < best.variable))
}
