//! Numbers 10 and 11: exactly the intended pairs match.
ghost use Rattle.std.specs.Prelude.{◌≡◌};
ghost use Rattle.dds_match.specs.Plan.{network_of};
ghost use Rattle.dds_runs.specs.First.{first_below};
ghost use Rattle.dds_check.specs.Pairs.{not_matched, not_intended, first_pair, pairs_no};

use crate::below::first_below;
use crate::verdict::{No, Number, Subject, refusal_if};
use dds_base::{ReaderNo, WriterNo};
use dds_conditions::{readers_of, writers_of};
use dds_match::Plan;

/// Number 10: the pair is intended and doesn't match.
pub fn not_matched(plan: &Plan, writer: WriterNo, reader: ReaderNo) -> Option<No>
    ensures { result ≡ not_matched (network_of plan.now) writer reader }
{
    let lacks = plan.intended(writer, reader) && !plan.matched(writer, reader);
    refusal_if(
        lacks,
        Number::IntendedNotMatched,
        Subject::Pair { writer, reader },
    )
}

fn first_not_matched_with(plan: &Plan, writer: WriterNo) -> Option<No>
    ensures { result ≡ first_below (network_of plan.now).readers (not_matched (network_of plan.now) writer) }
{
    first_below(
        readers_of(plan),
        |r| not_matched(plan, writer, ReaderNo::new(r)),
    )
}

fn first_not_matched(plan: &Plan) -> Option<No>
    ensures { result ≡ first_pair (network_of plan.now) (not_matched (network_of plan.now)) }
{
    first_below(
        writers_of(plan),
        |w| first_not_matched_with(plan, WriterNo::new(w)),
    )
}

/// Number 11: the pair matches and isn't intended.
pub fn not_intended(plan: &Plan, writer: WriterNo, reader: ReaderNo) -> Option<No>
    ensures { result ≡ not_intended (network_of plan.now) writer reader }
{
    let surplus = plan.matched(writer, reader) && !plan.intended(writer, reader);
    refusal_if(
        surplus,
        Number::UnintendedMatch,
        Subject::Pair { writer, reader },
    )
}

fn first_not_intended_with(plan: &Plan, writer: WriterNo) -> Option<No>
    ensures { result ≡ first_below (network_of plan.now).readers (not_intended (network_of plan.now) writer) }
{
    first_below(
        readers_of(plan),
        |r| not_intended(plan, writer, ReaderNo::new(r)),
    )
}

fn first_not_intended(plan: &Plan) -> Option<No>
    ensures { result ≡ first_pair (network_of plan.now) (not_intended (network_of plan.now)) }
{
    first_below(
        writers_of(plan),
        |w| first_not_intended_with(plan, WriterNo::new(w)),
    )
}

/// The first pair that is intended and doesn't match, else the first that matches and isn't intended; both by writer
/// and then by reader, in file order.
#[tactic(auto, unfolding(crate::specs::Pairs::pairs_no))]
pub fn pairs_no(plan: &Plan) -> Option<No>
    ensures { result ≡ pairs_no (network_of plan.now) }
{
    if let Some(no) = first_not_matched(plan) {
        return Some(no);
    }
    first_not_intended(plan)
}
