//! The circle of things that an application may do.
ghost use Rattle.std.specs.Prelude.{◌≡◌, ◌<◌, ◌++◌, ◌==◌, ◌&&◌, length, IfOk};
ghost use Rattle.std.specs.List.{list_any};
ghost use Rattle.dds_peers.specs.Steady.{all_firings, all_takes, all_writes, is_fired, is_publish, is_write};
ghost use Rattle.dds_peers.specs.Steady.{is_written, takes_of, write_step, writes_of};

use dds_base::{AppNo, KeyNo, NoMemory, Portion, ReaderNo, RuleNo, WriterNo};
use dds_lists::Deployment;
use dds_match::Plan;

/// One thing that an application may do.
#[derive(Clone, Copy, Debug, PartialEq, Eq)]
pub enum Step {
    /// Takes a sample of the key at the reader.
    Take { reader: ReaderNo, key: KeyNo },
    /// Fires the rule.
    Fire { rule: RuleNo },
    /// Writes a sample that needs a permit.
    Write { writer: WriterNo, key: KeyNo },
    /// Writes a sample that needs none: the key is free at the writer.
    Publish { writer: WriterNo, key: KeyNo },
}

impl Step {
    /// Whether it's a write that needs a permit.
    pub(crate) fn is_write(&self) -> bool
        ensures { result ≡ is_write self.now }
    {
        matches!(self, Step::Write { .. })
    }

    /// Whether it's a write that needs no permit.
    pub(crate) fn is_publish(&self) -> bool
        ensures { result ≡ is_publish self.now }
    {
        matches!(self, Step::Publish { .. })
    }
}

// Adds a take of each key of a reader's filter.
fn push_takes_of(
    lists: &Deployment,
    reader: ReaderNo,
    circle: &mut Vec<Step>,
) -> Result<(), NoMemory>
    requires { reader < length lists.now.readers.entries }
    ensures { IfOk result (λ _. circle.new.items ≡ circle.old.items ++ takes_of lists.now reader) }
{
    // What is known of every deployment: the topic is there.
    let _well_formed = lists.readers();
    let heard = lists.reader(reader);
    for key in 0..lists.keys(heard.topic).len() {
        let key = KeyNo::new(key);
        if heard.filter.contains(&key) {
            circle.push(Step::Take { reader, key })?;
        }
    }
    Ok(())
}

/// Adds the takes of each reader of an application.
pub(crate) fn push_takes(
    lists: &Deployment,
    app: AppNo,
    circle: &mut Vec<Step>,
) -> Result<(), NoMemory>
    requires { app < length lists.now.applications.entries }
    ensures { IfOk result (λ _. circle.new.items ≡ circle.old.items ++ all_takes lists.now app) }
{
    for reader in 0..lists.readers() {
        let reader = ReaderNo::new(reader);
        if lists.application(app).readers.contains(&reader) {
            push_takes_of(lists, reader, circle)?;
        }
    }
    Ok(())
}

// Whether the rule is the application's and needs takes.
fn is_fired(lists: &Deployment, app: AppNo, rule: RuleNo) -> bool
    requires { rule < length lists.now.rules.entries }
    ensures { result ≡ is_fired lists.now app rule }
{
    let rule = lists.rule(rule);
    rule.application == app && !rule.takes.is_empty()
}

/// Adds a firing of each rule of an application that needs takes.
pub(crate) fn push_firings(
    lists: &Deployment,
    app: AppNo,
    circle: &mut Vec<Step>,
) -> Result<(), NoMemory>
    ensures { IfOk result (λ _. circle.new.items ≡ circle.old.items ++ all_firings lists.now app) }
{
    for rule in 0..lists.rules() {
        let rule = RuleNo::new(rule);
        if is_fired(lists, app, rule) {
            circle.push(Step::Fire { rule })?;
        }
    }
    Ok(())
}

// Whether one of the portions is of this writer and key.
fn has_portion(portions: &[Portion<WriterNo>], writer: WriterNo, key: KeyNo) -> bool
    ensures { result ≡ list_any (λ p. (p.endpoint == writer) && (p.key == key)) portions.now }
{
    portions
        .iter()
        .any(|p| p.endpoint == writer && p.key == key)
}

// Whether a rule of the application writes the key at the writer.
fn is_written(lists: &Deployment, app: AppNo, writer: WriterNo, key: KeyNo) -> bool
    ensures { result ≡ is_written lists.now app writer key }
{
    for rule in 0..lists.rules() {
        let rule = lists.rule(RuleNo::new(rule));
        if rule.application == app && has_portion(rule.writes.as_slice(), writer, key) {
            return true;
        }
    }
    false
}

// The write of a key at a writer: one that needs no permit, if the key is free there.
fn write_step(plan: &Plan, writer: WriterNo, key: KeyNo) -> Step
    ensures { result ≡ write_step plan.now writer key }
{
    if plan.is_free(writer, key) {
        Step::Publish { writer, key }
    } else {
        Step::Write { writer, key }
    }
}

// Adds a write of each key that the application's rules write at a writer.
fn push_writes_of(
    plan: &Plan,
    app: AppNo,
    writer: WriterNo,
    circle: &mut Vec<Step>,
) -> Result<(), NoMemory>
    requires { writer < length plan.now.writers.entries }
    ensures { IfOk result (λ _. circle.new.items ≡ circle.old.items ++ writes_of plan.now app writer) }
{
    // What is known of every deployment: the topic is there.
    let lists = plan.lists();
    let _well_formed = lists.writers();
    for key in 0..lists.keys(lists.writer(writer).topic).len() {
        let key = KeyNo::new(key);
        if is_written(lists, app, writer, key) {
            circle.push(write_step(plan, writer, key))?;
        }
    }
    Ok(())
}

/// Adds the writes of each writer of an application.
pub(crate) fn push_writes(plan: &Plan, app: AppNo, circle: &mut Vec<Step>) -> Result<(), NoMemory>
    requires { app < length plan.now.applications.entries }
    ensures { IfOk result (λ _. circle.new.items ≡ circle.old.items ++ all_writes plan.now app) }
{
    let lists = plan.lists();
    for writer in 0..lists.writers() {
        let writer = WriterNo::new(writer);
        if lists.application(app).writers.contains(&writer) {
            push_writes_of(plan, app, writer, circle)?;
        }
    }
    Ok(())
}
