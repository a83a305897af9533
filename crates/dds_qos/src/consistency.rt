//! Whether the policies of one endpoint go together.

ghost use Rattle.std.specs.Prelude.{◌≡◌};
ghost use Rattle.std.specs.Result.{result_err};
ghost use Rattle.dds_qos.specs.Consistency.{consistency_fault, is_depth_over, is_samples_under};

use crate::policies::{HistoryKind, Policies, ReaderQos, WriterQos};
use thiserror::Error;

/// Why the policies of an endpoint do not go together, in the order in which it is tested.
#[derive(Clone, Copy, Debug, PartialEq, Eq, Error)]
pub enum QosFault {
    /// 1: KEEP_LAST has a depth above max_samples_per_instance (OMG DDS 1.4, clause 2.2.3.18).
    #[error("the depth of KEEP_LAST is above max_samples_per_instance")]
    DepthOverLimit,
    /// 2: max_samples is below max_samples_per_instance (OMG DDS 1.4, clause 2.2.3.19).
    #[error("max_samples is below max_samples_per_instance")]
    SamplesUnderInstance,
}

/// Whether the policies that a writer offers go together. An `Err` is the first fault. An unlimited value passes both
/// tests, and the depth of KEEP_ALL is not looked at.
pub fn consistent_writer(writer: &WriterQos) -> Result<(), QosFault>
    ensures { result_err result ≡ consistency_fault writer.now.offered }
{
    consistent(&writer.offered)
}

/// Whether the policies that a reader requests go together. An `Err` is the first fault. An unlimited value passes both
/// tests, and the depth of KEEP_ALL is not looked at.
pub fn consistent_reader(reader: &ReaderQos) -> Result<(), QosFault>
    ensures { result_err result ≡ consistency_fault reader.now.requested }
{
    consistent(&reader.requested)
}

fn consistent(policies: &Policies) -> Result<(), QosFault>
    ensures { result_err result ≡ consistency_fault policies.now }
{
    if has_depth_over_limit(policies) {
        return Err(QosFault::DepthOverLimit);
    }
    if has_samples_under_instance(policies) {
        return Err(QosFault::SamplesUnderInstance);
    }
    Ok(())
}

fn has_depth_over_limit(policies: &Policies) -> bool
    ensures { result ≡ is_depth_over policies.now }
{
    match (
        policies.history.kind,
        policies.resource_limits.max_samples_per_instance,
    ) {
        (HistoryKind::KeepLast, Some(limit)) => policies.history.depth > limit,
        _ => false,
    }
}

fn has_samples_under_instance(policies: &Policies) -> bool
    ensures { result ≡ is_samples_under policies.now }
{
    let limits = policies.resource_limits;
    match (limits.max_samples, limits.max_samples_per_instance) {
        (Some(samples), Some(of_instance)) => samples < of_instance,
        _ => false,
    }
}
