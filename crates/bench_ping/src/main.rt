//! Measures the deployment of `examples/ping`. The words are the number of round trips in a domain that one thread
//! drives, after how many samples a reader acknowledges there, the number of samples that each application writes and
//! takes in a run by the peers, how many of each 64 packets are lost in it, and the number of samples of a writer that
//! no rule limits, whose reader never acknowledges. A part with the number 0 is left out. What is kept, stored, written
//! and taken is printed, and to the error output how long it took.
#![tactic(auto)]

mod domain;
mod free;
mod peers;
mod trips;

use crate::domain::{Driven, drive};
use crate::free::write_freely;
use crate::peers::measure;
use std::env::{self, Env};
use std::process::ExitCode;

/// What the words ask for.
#[derive(Clone, Copy)]
struct Asked {
    trips: usize,
    every: usize,
    samples: usize,
    lost: usize,
    free: usize,
}

fn number(words: &[String], at: usize) -> Option<usize> {
    words.get(at)?.as_str().parse::<usize>().ok()
}

/// What the words ask for, of which the first is the program's name.
fn read_words(words: &[String]) -> Option<Asked> {
    Some(Asked {
        trips: number(words, 1)?,
        every: number(words, 2)?,
        samples: number(words, 3)?,
        lost: number(words, 4)?,
        free: number(words, 5)?,
    })
}

fn main(rt: HostRuntime) -> ExitCode {
    let alloc = rt.alloc();
    let Ok(words) = env::args(&rt) else {
        return ExitCode::from(3);
    };
    let Ok(words) = words.collect::<Vec<String>>(alloc) else {
        return ExitCode::from(3);
    };
    let Some(asked) = read_words(words.as_slice()) else {
        return ExitCode::from(4);
    };
    if asked.trips > 0 {
        let Some(driven) = drive(&rt, alloc, asked.trips, asked.every) else {
            return ExitCode::from(3);
        };
        let Driven { kept, stored, took } = driven;
        let _ = println!(rt;
            "{} round trips; kept {} and {}, stored {} and {}",
            asked.trips, kept[0], kept[1], stored[0], stored[1]
        );
        let _ = eprintln!(rt; "{} ms", took.as_millis());
    }
    if asked.samples > 0 {
        let Some(peered) = measure(&rt, alloc, asked.samples, asked.lost) else {
            return ExitCode::from(3);
        };
        let _ = println!(rt;
            "{} written, {} taken, all stopped: {}",
            peered.told.written, peered.told.taken, peered.told.stopped
        );
        let _ = eprintln!(rt;
            "{} entries, {} ms, half of the round trips within {} us, 99 of 100 within {} us",
            peered.told.entries,
            peered.took.as_millis(),
            peered.half,
            peered.most
        );
    }
    if asked.free > 0 {
        let Some((first, last)) = write_freely(alloc, asked.free) else {
            return ExitCode::from(3);
        };
        let _ = println!(rt;
            "{} samples that no rule limits; the HEARTBEAT has {first} to {last}",
            asked.free
        );
    }
    ExitCode::from(0)
}
