//! Deployment files of version 1 that are drawn at random. One participant writes, another reads.

use crate::dice::Dice;
use std::alloc::{AllocError, Global};

/// The topic of each endpoint, by its number.
#[derive(Drop)]
struct Drawn {
    topics: usize,
    writers: Vec<usize>,
    readers: Vec<usize>,
}

fn endpoints(alloc: Global, dice: &mut Dice, topics: usize) -> Result<Vec<usize>, AllocError> {
    let mut all = Vec::new(alloc);
    for _ in 0..3 {
        if dice.comes() {
            all.push(dice.below(topics))?;
        }
    }
    Ok(all)
}

fn one_to_three(dice: &mut Dice) -> usize {
    match dice.below(3) {
        0 => 1,
        1 => 2,
        _ => 3,
    }
}

fn keys(dice: &mut Dice) -> &'static str {
    match dice.below(3) {
        0 => "[\"a\"]",
        1 => "[\"a\", \"b\"]",
        _ => "[\"a\", \"c\", \"b\"]",
    }
}

fn topic(alloc: Global, dice: &mut Dice, t: usize) -> Result<String, AllocError> {
    let keys = keys(dice);
    format!(in alloc; "\n[[topics]]\nname = \"t{t}\"\ntype = \"Num\"\nkeys = {keys}\n")
}

fn limits(dice: &mut Dice) -> &'static str {
    match dice.below(4) {
        0 => "",
        1 => "max_samples = 5\n",
        2 => "max_samples_per_instance = 3\n",
        _ => "max_samples = \"unlimited\"\nmax_instances = 2\n",
    }
}

fn writer(alloc: Global, dice: &mut Dice, w: usize, t: usize) -> Result<String, AllocError> {
    let limits = limits(dice);
    format!(in alloc;
        "\n[[writers]]\nname = \"w{w}\"\nparticipant = \"p0\"\ntopic = \"t{t}\"\nhistory = \"KEEP_ALL\"\n{limits}"
    )
}

fn history(dice: &mut Dice) -> &'static str {
    match dice.below(4) {
        0 => "reliability = \"BEST_EFFORT\"\n",
        1 => "filter = [\"a\"]\nreliability = \"RELIABLE\"\nhistory = \"KEEP_LAST\"\ndepth = 2\n",
        2 => "reliability = \"RELIABLE\"\nhistory = \"KEEP_ALL\"\ndeadline = 100\n",
        _ => "reliability = \"RELIABLE\"\nhistory = \"KEEP_ALL\"\npartitions = [\"\", \"left*\"]\n",
    }
}

fn reader(alloc: Global, dice: &mut Dice, r: usize, t: usize) -> Result<String, AllocError> {
    let history = history(dice);
    let limits = limits(dice);
    format!(in alloc;
        "\n[[readers]]\nname = \"r{r}\"\nparticipant = \"p1\"\ntopic = \"t{t}\"\n{history}{limits}"
    )
}

/// Quoted names, with commas between them.
fn names(alloc: Global, letter: &str, count: usize) -> Result<String, AllocError> {
    let mut all = Vec::new(alloc);
    for i in 0..count {
        all.push(format!(in alloc; "\"{letter}{i}\"")?)?;
    }
    all.join(alloc, ", ")
}

fn applications(alloc: Global, drawn: &Drawn) -> Result<String, AllocError> {
    let writers = names(alloc, "w", drawn.writers.len())?;
    let readers = names(alloc, "r", drawn.readers.len())?;
    format!(in alloc;
        "\n[[applications]]\nname = \"writing\"\nparticipant = \"p0\"\nwriters = [{writers}]\n\n[[applications]]\n\
        name = \"reading\"\nparticipant = \"p1\"\nreaders = [{readers}]\n"
    )
}

fn rule(alloc: Global, dice: &mut Dice, w: usize) -> Result<String, AllocError> {
    let count = one_to_three(dice);
    let start = dice.below(4);
    format!(in alloc;
        "\n[[rules]]\nname = \"u{w}\"\napplication = \"writing\"\n\
        writes = [{{ writer = \"w{w}\", key = \"a\", count = {count} }}]\nstart = {start}\n"
    )
}

fn connection(alloc: Global, w: usize, r: usize) -> Result<String, AllocError> {
    format!(in alloc; "\n[[connections]]\nwriter = \"w{w}\"\nreader = \"r{r}\"\n")
}

fn push_topics(
    alloc: Global,
    dice: &mut Dice,
    text: &mut String,
    count: usize,
) -> Result<(), AllocError> {
    for t in 0..count {
        text.push_str(topic(alloc, dice, t)?.as_str())?;
    }
    Ok(())
}

fn push_writers(
    alloc: Global,
    dice: &mut Dice,
    text: &mut String,
    topics: &[usize],
) -> Result<(), AllocError> {
    for (w, t) in topics.iter().enumerate() {
        text.push_str(writer(alloc, dice, w, *t)?.as_str())?;
    }
    Ok(())
}

fn push_readers(
    alloc: Global,
    dice: &mut Dice,
    text: &mut String,
    topics: &[usize],
) -> Result<(), AllocError> {
    for (r, t) in topics.iter().enumerate() {
        text.push_str(reader(alloc, dice, r, *t)?.as_str())?;
    }
    Ok(())
}

fn push_rules(
    alloc: Global,
    dice: &mut Dice,
    text: &mut String,
    writers: usize,
) -> Result<(), AllocError> {
    for w in 0..writers {
        text.push_str(rule(alloc, dice, w)?.as_str())?;
    }
    Ok(())
}

/// Connects a writer with the readers of its topic.
fn connect(
    alloc: Global,
    text: &mut String,
    w: usize,
    topic: usize,
    readers: &[usize],
) -> Result<(), AllocError> {
    for (r, t) in readers.iter().enumerate() {
        if *t == topic {
            text.push_str(connection(alloc, w, r)?.as_str())?;
        }
    }
    Ok(())
}

fn push_connections(alloc: Global, text: &mut String, drawn: &Drawn) -> Result<(), AllocError> {
    for (w, t) in drawn.writers.iter().enumerate() {
        connect(alloc, text, w, *t, &drawn.readers)?;
    }
    Ok(())
}

/// The deployment of a seed: up to three topics, writers and readers, with limits, filters, partitions and policies of
/// several kinds.
pub fn deployment(alloc: Global, seed: u32) -> Result<String, AllocError> {
    let mut dice = Dice::new(seed);
    let topics = one_to_three(&mut dice);
    let drawn = Drawn {
        topics,
        writers: endpoints(alloc, &mut dice, topics)?,
        readers: endpoints(alloc, &mut dice, topics)?,
    };
    let mut text = String::from_str(
        alloc,
        "version = 1\nparticipants = [{ name = \"p0\", domain = 7 }, { name = \"p1\", domain = 7 }]\n",
    )?;
    push_topics(alloc, &mut dice, &mut text, drawn.topics)?;
    push_writers(alloc, &mut dice, &mut text, &drawn.writers)?;
    push_readers(alloc, &mut dice, &mut text, &drawn.readers)?;
    text.push_str(applications(alloc, &drawn)?.as_str())?;
    push_rules(alloc, &mut dice, &mut text, drawn.writers.len())?;
    push_connections(alloc, &mut text, &drawn)?;
    Ok(text)
}
