//! What `draw` answers.
ghost use Rattle.std.specs.Prelude.{◌≡◌, IfErr, option_map};
ghost use Rattle.dds_weights.specs.Views.{certificate_view};
ghost use Rattle.dds_answers.specs.Answers.{Gives};
ghost use Rattle.dds_answers.specs.Outcome.{drawn};

use crate::answer::{Answer, answer_with};
use crate::fault::ToolFault;
use dds_draw::drawing;
use dds_match::Plan;
use dds_weights::Certificate;
use std::alloc::Global;

/// The answer with the picture of a plan, which is needed no longer.
#[tactic(auto, unfolding(crate::specs::Report::output_of, crate::specs::Report::status_of))]
fn answer_picture(
    alloc: Global,
    plan: Plan,
    certificate: Option<&Certificate>,
) -> Result<Answer, ToolFault>
    ensures gives { Gives result (drawn plan (option_map (λ c. certificate_view c.now) certificate.entry)) }
    ensures memory { IfErr result (λ e. e ≡ ToolFault.NoMemory) }
{
    let answer = answer_with(drawing(alloc, &plan, certificate), true);
    drop(plan);
    answer
}

/// The answer of `draw` to a plan, and to a certificate if one is given, both of which are needed no longer: yes with a
/// picture for Graphviz. The certificate's bounds and totals stand in it, whether they hold or not.
pub fn answer_drawing(
    alloc: Global,
    plan: Plan,
    certificate: Option<Certificate>,
) -> Result<Answer, ToolFault>
    ensures gives { Gives result (drawn plan (option_map certificate_view certificate)) }
    ensures memory { IfErr result (λ e. e ≡ ToolFault.NoMemory) }
{
    match certificate {
        Some(certificate) => answer_picture(alloc, plan, Some(&certificate)),
        None => answer_picture(alloc, plan, None),
    }
}
