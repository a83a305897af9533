//! Whether a certificate fits a plan, found without memory.
ghost use Rattle.std.specs.Prelude.{◌≡◌, ◌==◌, ◌&&◌, nat_lt, map, string_bytes};
ghost use Rattle.std.specs.List.{list_any, list_all};
ghost use Rattle.std.specs.Str.{bytes_eq};
ghost use Rattle.dds_lists.specs.WellFormed.{IsWellFormed};
ghost use Rattle.dds_match.specs.Plan.{network_of};
ghost use Rattle.dds_weights.specs.Fits.{is_distinct, weights_fit, row_fits, names_differ, rows_fit};
ghost use Rattle.dds_weights.specs.Fits.{bounds_fit, totals_fit, fits};
ghost use Rattle.dds_weights.specs.Views.{row_view, certificate_view};

use crate::certificate::{Bound, Certificate, Row, Total, Weight};
use crate::named::{bounds_name_nothing_twice, has_total, weights_name_nothing_twice};
use dds_base::limits::ROWS;
use dds_base::{ReaderNo, WriterNo};
use dds_match::Plan;

fn readers_hear(plan: &Plan, weights: &[Weight<ReaderNo>]) -> bool
    ensures { result ≡ list_all (λ x. (network_of plan.now).hears x.endpoint x.key) weights.now }
{
    weights.iter().all(|x| plan.hears(x.endpoint, x.key))
}

fn writers_write(plan: &Plan, weights: &[Weight<WriterNo>]) -> bool
    ensures { result ≡ list_all (λ x. (network_of plan.now).writes_key x.endpoint x.key) weights.now }
{
    weights.iter().all(|x| plan.writes_key(x.endpoint, x.key))
}

fn reader_weights_fit(plan: &Plan, weights: &[Weight<ReaderNo>]) -> bool
    requires { IsWellFormed plan.now }
    ensures { result ≡ weights_fit (network_of plan.now).hears weights.now }
{
    if readers_hear(plan, weights) {
        weights_name_nothing_twice(weights)
    } else {
        false
    }
}

fn writer_weights_fit(plan: &Plan, weights: &[Weight<WriterNo>]) -> bool
    requires { IsWellFormed plan.now }
    ensures { result ≡ weights_fit (network_of plan.now).writes_key weights.now }
{
    if writers_write(plan, weights) {
        weights_name_nothing_twice(weights)
    } else {
        false
    }
}

fn row_fits(plan: &Plan, row: &Row) -> bool
    requires { IsWellFormed plan.now }
    ensures { result ≡ row_fits (network_of plan.now) (row_view row.now) }
{
    reader_weights_fit(plan, &row.samples)
        && reader_weights_fit(plan, &row.takes)
        && writer_weights_fit(plan, &row.permits)
}

fn each_row_fits(plan: &Plan, rows: &[Row]) -> bool
    requires { IsWellFormed plan.now }
    ensures { result ≡ list_all (λ r. row_fits (network_of plan.now) (row_view r)) rows.now }
{
    for row in rows {
        if !row_fits(plan, row) {
            return false;
        }
    }
    true
}

fn has_name(rows: &[Row], name: &str) -> bool
    ensures { result ≡ list_any (λ r. bytes_eq name.now (string_bytes r.name)) rows.now }
{
    rows.iter().any(|r| name == r.name.as_str())
}

// There are at most 64 rows, so each name is compared with those before it.
fn names_differ(rows: &[Row]) -> bool
    ensures { result ≡ names_differ (map row_view rows.now) }
{
    for (i, row) in rows.iter().enumerate() {
        if has_name(&rows[..i], row.name.as_str()) {
            return false;
        }
    }
    true
}

fn named_rows_fit(plan: &Plan, rows: &[Row]) -> bool
    requires { IsWellFormed plan.now }
    ensures { result ≡ (names_differ (map row_view rows.now)
        && list_all (row_fits (network_of plan.now)) (map row_view rows.now)) }
{
    names_differ(rows) && each_row_fits(plan, rows)
}

fn rows_fit(plan: &Plan, rows: &[Row]) -> bool
    requires { IsWellFormed plan.now }
    ensures { result ≡ rows_fit (network_of plan.now) (map row_view rows.now) }
{
    rows.len() <= ROWS && named_rows_fit(plan, rows)
}

fn bound_fits(plan: &Plan, rows: usize, bound: &Bound) -> bool
    ensures { result ≡ ((network_of plan.now).hears bound.now.reader bound.now.key && nat_lt bound.now.row rows) }
{
    plan.hears(bound.reader, bound.key) && bound.row < rows
}

fn each_bound_fits(plan: &Plan, rows: usize, bounds: &[Bound]) -> bool
    ensures { result ≡ list_all (λ b. (network_of plan.now).hears b.reader b.key && nat_lt b.row rows) bounds.now }
{
    bounds.iter().all(|b| bound_fits(plan, rows, b))
}

fn bounds_fit(plan: &Plan, rows: usize, bounds: &[Bound]) -> bool
    requires { IsWellFormed plan.now }
    ensures { result ≡ bounds_fit (network_of plan.now) rows bounds.now }
{
    if each_bound_fits(plan, rows, bounds) {
        bounds_name_nothing_twice(bounds)
    } else {
        false
    }
}

fn total_fits(readers: usize, rows: usize, total: &Total) -> bool
    ensures { result ≡ (nat_lt total.now.reader readers && nat_lt total.now.row rows) }
{
    total.reader.number() < readers && total.row < rows
}

fn each_total_fits(readers: usize, rows: usize, totals: &[Total]) -> bool
    ensures { result ≡ list_all (λ t. nat_lt t.reader readers && nat_lt t.row rows) totals.now }
{
    totals.iter().all(|t| total_fits(readers, rows, t))
}

// Of 257 totals two are of one reader, so no more are looked at.
fn totals_name_nothing_twice(totals: &[Total]) -> bool
    ensures { result ≡ is_distinct (λ x y. y.reader == x.reader) totals.now }
{
    for (i, total) in totals.iter().enumerate() {
        if has_total(&totals[..i], total.reader) {
            return false;
        }
    }
    true
}

fn totals_fit(readers: usize, rows: usize, totals: &[Total]) -> bool
    ensures { result ≡ (list_all (λ t. nat_lt t.reader readers && nat_lt t.row rows) totals.now
        && is_distinct (λ x y. y.reader == x.reader) totals.now) }
{
    each_total_fits(readers, rows, totals) && totals_name_nothing_twice(totals)
}

impl Certificate {
    /// Whether the certificate is one for this plan: it has at most 64 rows, whose names differ; each key of a reader
    /// is in its filter and each key of a writer in its topic; each total is of a reader of the plan; each bound and
    /// total names a row that is there; and no list names an endpoint and key, and no two totals a reader, twice. Takes
    /// no memory.
    #[tactic(auto, unfolding(crate::specs::Fits::fits))]
    pub fn fits(&self, plan: &Plan) -> bool
        ensures { result ≡ fits (network_of plan.now) (certificate_view self.now) }
    {
        let readers = plan.lists().readers();
        let rows = self.rows.len();
        rows_fit(plan, &self.rows)
            && bounds_fit(plan, rows, &self.bounds)
            && totals_fit(readers, rows, &self.totals)
    }
}
