//! What a deployment says of the QoS of a writer or a reader, for a program that compares its own with it: what
//! discovery doesn't tell of other programs.
ghost use Rattle.std.specs.Prelude.{◌≡◌, ◌<◌, ◌≤◌, ℕ, List, length, IfErr, IfOk, None, Some};
ghost use Rattle.dds_guard_c.specs.Qos.{IsFaulty, IsFound, ReadsAs, depth_of, durability_number, history_number};
ghost use Rattle.dds_guard_c.specs.Qos.{limit_number, qos_of, reader_qos, reliability_number, writer_qos};

use crate::qos::Qos;
use crate::status::{FAULT, FOREIGN, NO_MEMORY, OK};
use dds_base::{ReaderNo, WriterNo};
use dds_deploy::{DeployFault, read_deployment};
use dds_lists::Deployment;
use dds_qos::{Durability, History, HistoryKind, Policies, Reliability};
use std::alloc::Global;

fn durability_number(durability: Durability) -> u32
    ensures { result ≡ durability_number durability }
{
    match durability {
        Durability::Volatile => 0,
        Durability::TransientLocal => 1,
        Durability::Transient => 2,
        Durability::Persistent => 3,
    }
}

fn reliability_number(reliability: Reliability) -> u32
    ensures { result ≡ reliability_number reliability }
{
    match reliability {
        Reliability::BestEffort => 0,
        Reliability::Reliable => 1,
    }
}

fn history_number(kind: HistoryKind) -> u32
    ensures { result ≡ history_number kind }
{
    match kind {
        HistoryKind::KeepLast => 0,
        HistoryKind::KeepAll => 1,
    }
}

fn depth_of(history: History) -> u32
    ensures { result ≡ depth_of history.kind history.depth }
{
    match history.kind {
        HistoryKind::KeepLast => history.depth,
        HistoryKind::KeepAll => 0,
    }
}

fn limit_number(limit: Option<u32>) -> u32
    ensures { result ≡ limit_number limit }
{
    limit.unwrap_or(0)
}

/// An endpoint's policies as C has them.
fn qos_of(policies: &Policies) -> Qos
    ensures { result ≡ qos_of policies.now }
{
    let limits = policies.resource_limits;
    Qos {
        durability: durability_number(policies.durability),
        reliability: reliability_number(policies.reliability),
        history: history_number(policies.history.kind),
        depth: depth_of(policies.history),
        max_samples: limit_number(limits.max_samples),
        max_instances: limit_number(limits.max_instances),
        max_samples_per_instance: limit_number(limits.max_samples_per_instance),
    }
}

/// The deployment that the bytes are, or the status of what is wrong.
fn lists_of(alloc: Global, bytes: &[u8]) -> Result<Deployment, u32>
    ensures ok { IfOk result (ReadsAs bytes.now) }
    ensures status { IfErr result (λ s. (0 < s) × (s ≤ 2)) }
    ensures fault { IfErr result (λ s. s ≡ 1 → IsFaulty bytes.now) }
{
    match read_deployment(alloc, bytes) {
        Ok(lists) => Ok(lists),
        Err(DeployFault::At(_)) => Err(FAULT),
        Err(DeployFault::NoMemory) => Err(NO_MEMORY),
    }
}

/// The QoS of a writer of a deployment, if it has that many.
fn writer_qos(lists: &Deployment, writer: usize) -> Option<Qos>
    ensures { result ≡ writer_qos lists.now writer }
{
    if writer < lists.writers() {
        Some(qos_of(&lists.writer(WriterNo::new(writer)).qos.offered))
    } else {
        None
    }
}

/// The QoS of a reader of a deployment, if it has that many.
fn reader_qos(lists: &Deployment, reader: usize) -> Option<Qos>
    ensures { result ≡ reader_qos lists.now reader }
{
    if reader < lists.readers() {
        Some(qos_of(&lists.reader(ReaderNo::new(reader)).qos.requested))
    } else {
        None
    }
}

/// Tells what was found, if it was.
fn tell(found: Option<Qos>, qos: &mut Qos) -> u32
    ensures told { result ≡ 0 → found ≡ Some qos.new }
    ensures foreign { 0 < result → (result ≡ 6) × (found ≡ None) }
    ensures same { 0 < result → qos.new ≡ qos.old }
{
    match found {
        Some(found) => {
            *qos = found;
            OK
        }
        None => FOREIGN,
    }
}

/// Tells the QoS of the writer of this number, by the bytes of the deployment file. A fault of the file is 1, 2 that
/// memory ran out, and 6 that there is no such writer; then nothing is told.
#[unsafe(no_mangle)]
pub extern "C" fn ddscheck_find_writer_qos(
    alloc: Global,
    deployment: &[u8],
    writer: usize,
    qos: &mut Qos,
) -> u32
    ensures told { result ≡ 0 → IsFound (λ d. writer_qos d writer) deployment.now (Some qos.new) }
    ensures fault { result ≡ 1 → IsFaulty deployment.now }
    ensures foreign { 2 < result → (result ≡ 6) × IsFound (λ d. writer_qos d writer) deployment.now None }
    ensures same { 0 < result → qos.new ≡ qos.old }
{
    let lists = match lists_of(alloc, deployment) {
        Ok(lists) => lists,
        Err(status) => return status,
    };
    let found = writer_qos(&lists, writer);
    drop(lists);
    tell(found, qos)
}

/// Tells the QoS of the reader of this number, by the bytes of the deployment file. A fault of the file is 1, 2 that
/// memory ran out, and 6 that there is no such reader; then nothing is told.
#[unsafe(no_mangle)]
pub extern "C" fn ddscheck_find_reader_qos(
    alloc: Global,
    deployment: &[u8],
    reader: usize,
    qos: &mut Qos,
) -> u32
    ensures told { result ≡ 0 → IsFound (λ d. reader_qos d reader) deployment.now (Some qos.new) }
    ensures fault { result ≡ 1 → IsFaulty deployment.now }
    ensures foreign { 2 < result → (result ≡ 6) × IsFound (λ d. reader_qos d reader) deployment.now None }
    ensures same { 0 < result → qos.new ≡ qos.old }
{
    let lists = match lists_of(alloc, deployment) {
        Ok(lists) => lists,
        Err(status) => return status,
    };
    let found = reader_qos(&lists, reader);
    drop(lists);
    tell(found, qos)
}
