//! What reads files and makes plans, certificates and answers of them.

pub use dds_base::{
    AckNack, AppNo, Arrival, Data, DataMsg, Event, Fate, GapMsg, Heartbeat, KeyNo, Names, NoMemory,
    Packet, ParticipantNo, ReaderNo, Refusal, Reply, RuleNo, Sample, SnSet, TopicNo, WriterNo,
};
pub use dds_cert::{Bound, CertFault, Certificate, Row, Total, certificate_text, read_certificate};
pub use dds_deploy::{DeployFault, Deployment, migrate, read_deployment};
pub use dds_match::planning::plan;
pub use dds_match::{Plan, WhyNot, lists_match, name_matches};
pub use dds_qos::{
    Due, Policy, PolicySet, ReaderLimits, ReaderQos, WriterLimits, WriterQos, consistent_reader,
    consistent_writer, incompatible, outside_reader, outside_writer,
};
pub use dds_tool::{Counted, Report, ToolFault, answer_check, read_all, report_text, tool};
