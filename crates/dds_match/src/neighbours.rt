//! The endpoints that match each endpoint, and the endpoints of each participant, listed once.
ghost use Rattle.std.specs.Prelude.{◌≡◌, ◌++◌, ◌∷◌, [], if◌then◌else◌, IfOk};
ghost use Rattle.dds_lists.specs.WellFormed.{IsWellFormed};
ghost use Rattle.dds_match.specs.Neighbours.{ShowsEach, ShowsNeighbours, list_at};
ghost use Rattle.dds_match.specs.Network.{matched_readers, matched_writers};
ghost use Rattle.dds_match.specs.Plan.{network_of, participant_readers, participant_writers};
ghost use Rattle.dds_match.specs.Tables.{ShowsReasons};

use crate::matching::WhyNot;
use crate::tables::is_matched;
use dds_base::{NoMemory, ParticipantNo, ReaderNo, WriterNo};
use dds_lists::Deployment;
use std::alloc::Global;

/// Lists of endpoints, each in file order.
#[derive(Drop)]
pub(crate) struct Neighbours {
    /// For each writer the readers that match it.
    pub(crate) readers_of: Vec<Vec<ReaderNo>>,
    /// For each reader the writers that match it.
    pub(crate) writers_of: Vec<Vec<WriterNo>>,
    /// For each participant its writers.
    pub(crate) writers_at: Vec<Vec<WriterNo>>,
    /// For each participant its readers.
    pub(crate) readers_at: Vec<Vec<ReaderNo>>,
}

/// The list at a place, empty where there is none.
pub(crate) fn list_at<T>(lists: &[Vec<T>], place: usize) -> &[T]
    ensures { result.now ≡ list_at lists.now place }
{
    match lists.get(place) {
        Some(list) => list.as_slice(),
        None => &[],
    }
}

/// Adds an element, where it belongs there.
pub(crate) fn add_if<T: Copy>(list: &mut Vec<T>, belongs: bool, element: T) -> Result<(), NoMemory>
    ensures { IfOk result (λ _. list.new.items ≡ list.old.items ++ (if belongs then element ∷ [] else [])) }
{
    if belongs {
        list.push(element)?;
    }
    Ok(())
}

/// The readers that match a writer.
#[tactic(auto, using(dds_base::proofs::Lists::kept_push))]
fn readers_of(
    alloc: Global,
    lists: &Deployment,
    reasons: &[Option<WhyNot>],
    w: WriterNo,
) -> Result<Vec<ReaderNo>, NoMemory>
    requires { ShowsReasons lists.now reasons.now }
    ensures { IfOk result (λ list. list.items ≡ matched_readers (network_of lists.now) w) }
{
    let mut list = Vec::new(alloc);
    for r in 0..lists.readers() {
        let reader = ReaderNo::new(r);
        add_if(&mut list, is_matched(reasons, lists, w, reader), reader)?;
    }
    Ok(list)
}

/// The writers that match a reader.
#[tactic(auto, using(dds_base::proofs::Lists::kept_push))]
fn writers_of(
    alloc: Global,
    lists: &Deployment,
    reasons: &[Option<WhyNot>],
    r: ReaderNo,
) -> Result<Vec<WriterNo>, NoMemory>
    requires { ShowsReasons lists.now reasons.now }
    ensures { IfOk result (λ list. list.items ≡ matched_writers (network_of lists.now) r) }
{
    let mut list = Vec::new(alloc);
    for w in 0..lists.writers() {
        let writer = WriterNo::new(w);
        add_if(&mut list, is_matched(reasons, lists, writer, r), writer)?;
    }
    Ok(list)
}

/// The writers of a participant.
#[tactic(auto, using(dds_base::proofs::Lists::kept_push))]
fn writers_at(
    alloc: Global,
    lists: &Deployment,
    p: ParticipantNo,
) -> Result<Vec<WriterNo>, NoMemory>
    ensures { IfOk result (λ list. list.items ≡ participant_writers lists.now p) }
{
    let mut list = Vec::new(alloc);
    for w in 0..lists.writers() {
        let writer = WriterNo::new(w);
        add_if(&mut list, lists.writer(writer).participant == p, writer)?;
    }
    Ok(list)
}

/// The readers of a participant.
#[tactic(auto, using(dds_base::proofs::Lists::kept_push))]
fn readers_at(
    alloc: Global,
    lists: &Deployment,
    p: ParticipantNo,
) -> Result<Vec<ReaderNo>, NoMemory>
    ensures { IfOk result (λ list. list.items ≡ participant_readers lists.now p) }
{
    let mut list = Vec::new(alloc);
    for r in 0..lists.readers() {
        let reader = ReaderNo::new(r);
        add_if(&mut list, lists.reader(reader).participant == p, reader)?;
    }
    Ok(list)
}

/// For each writer the readers that match it.
fn readers_of_each(
    alloc: Global,
    lists: &Deployment,
    reasons: &[Option<WhyNot>],
) -> Result<Vec<Vec<ReaderNo>>, NoMemory>
    requires { ShowsReasons lists.now reasons.now }
    ensures { IfOk result (λ all. ShowsEach (matched_readers (network_of lists.now)) all.items) }
{
    let mut all = Vec::new(alloc);
    for w in 0..lists.writers() {
        all.push(readers_of(alloc, lists, reasons, WriterNo::new(w))?)?;
    }
    Ok(all)
}

/// For each reader the writers that match it.
fn writers_of_each(
    alloc: Global,
    lists: &Deployment,
    reasons: &[Option<WhyNot>],
) -> Result<Vec<Vec<WriterNo>>, NoMemory>
    requires { ShowsReasons lists.now reasons.now }
    ensures { IfOk result (λ all. ShowsEach (matched_writers (network_of lists.now)) all.items) }
{
    let mut all = Vec::new(alloc);
    for r in 0..lists.readers() {
        all.push(writers_of(alloc, lists, reasons, ReaderNo::new(r))?)?;
    }
    Ok(all)
}

/// For each participant its writers.
fn writers_at_each(alloc: Global, lists: &Deployment) -> Result<Vec<Vec<WriterNo>>, NoMemory>
    requires { IsWellFormed lists.now }
    ensures { IfOk result (λ all. ShowsEach (participant_writers lists.now) all.items) }
{
    let mut all = Vec::new(alloc);
    for p in 0..lists.participants() {
        all.push(writers_at(alloc, lists, ParticipantNo::new(p))?)?;
    }
    Ok(all)
}

/// For each participant its readers.
fn readers_at_each(alloc: Global, lists: &Deployment) -> Result<Vec<Vec<ReaderNo>>, NoMemory>
    requires { IsWellFormed lists.now }
    ensures { IfOk result (λ all. ShowsEach (participant_readers lists.now) all.items) }
{
    let mut all = Vec::new(alloc);
    for p in 0..lists.participants() {
        all.push(readers_at(alloc, lists, ParticipantNo::new(p))?)?;
    }
    Ok(all)
}

impl Neighbours {
    /// The lists of a deployment.
    pub(crate) fn of(
        alloc: Global,
        lists: &Deployment,
        reasons: &[Option<WhyNot>],
    ) -> Result<Neighbours, NoMemory>
        requires well_formed { IsWellFormed lists.now }
        requires reasons { ShowsReasons lists.now reasons.now }
        ensures { IfOk result (ShowsNeighbours lists.now) }
    {
        Ok(Neighbours {
            readers_of: readers_of_each(alloc, lists, reasons)?,
            writers_of: writers_of_each(alloc, lists, reasons)?,
            writers_at: writers_at_each(alloc, lists)?,
            readers_at: readers_at_each(alloc, lists)?,
        })
    }
}
