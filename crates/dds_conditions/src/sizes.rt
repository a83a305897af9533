//! How many endpoints, rules and keys the conditions go over.
ghost use Rattle.std.specs.Prelude.{◌≡◌, ◌≤◌};
ghost use Rattle.dds_base.specs.Grid.{most_endpoints};
ghost use Rattle.dds_lists.specs.WellFormed.{IsWellFormed};
ghost use Rattle.dds_match.specs.Plan.{network_of};

use dds_match::Plan;

/// How many writers the plan has, at most 256.
pub fn writers_of(plan: &Plan) -> usize
    ensures count { result ≡ (network_of plan.now).writers }
    ensures few { result ≤ most_endpoints }
    ensures well_formed { IsWellFormed plan.now }
{
    plan.lists().writers()
}

/// How many readers the plan has, at most 256.
pub fn readers_of(plan: &Plan) -> usize
    ensures count { result ≡ (network_of plan.now).readers }
    ensures few { result ≤ most_endpoints }
    ensures well_formed { IsWellFormed plan.now }
{
    plan.lists().readers()
}

/// How many rules the plan has, at most 256.
pub fn rules_of(plan: &Plan) -> usize
    ensures count { result ≡ (network_of plan.now).rules }
    ensures few { result ≤ most_endpoints }
    ensures well_formed { IsWellFormed plan.now }
{
    plan.lists().rules()
}
