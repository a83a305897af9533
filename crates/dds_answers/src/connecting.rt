//! What `match --connections` answers: the tables of the connections that the pairs which match would be.
ghost use Rattle.std.specs.Prelude.{◌≡◌, IfErr};
ghost use Rattle.dds_answers.specs.Answers.{Gives};
ghost use Rattle.dds_answers.specs.Connecting.{connected};

use crate::answer::{Answer, answer_with};
use crate::fault::ToolFault;
use dds_match::Plan;
use dds_show::connections::connections_text;
use std::alloc::Global;

/// The answer of `match --connections` to a plan, which is needed no longer: the tables of the connections of all pairs
/// that match. It is yes, whatever connections the deployment has.
#[tactic(auto, unfolding(crate::specs::Report::output_of, crate::specs::Report::status_of))]
pub fn answer_connections(alloc: Global, plan: Plan) -> Result<Answer, ToolFault>
    ensures gives { Gives result (connected plan) }
    ensures memory { IfErr result (λ e. e ≡ ToolFault.NoMemory) }
{
    let answer = answer_with(connections_text(alloc, &plan), true);
    drop(plan);
    answer
}
