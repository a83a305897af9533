//! Programs of calls on a cache of either form, each call with the answer that Eclipse Cyclone DDS 0.10.2 gave.
//!
//! A program is a line: the depth of KEEP_LAST, max_samples, max_instances and max_samples_per_instance, each `-` where
//! there is none, and then its calls in order. A call is a key, `a` to `d`, and its answer. Of a sample that arrives
//! with the next number: `N` stored, `O` and a number stored in place of the sample with that number, `I`, `S` or `P`
//! rejected by max_instances, max_samples or max_samples_per_instance. Of a take: `T` and a number took the sample with
//! that number, `E` nothing was available.

mod earlier;
mod later;

use crate::tests::caches::Fed;
use crate::tests::comparing::expect_equal;
use crate::tests::forms::CacheForm;
use dds_base::{NoMemory, Rejection, Sample};
use dds_cache::Cache;
use dds_qos::{Admit, ReaderLimits};
use std::alloc::Global;
use std::process::Abort;
use std::test::Fail;
use test_forms::PlainCache;

/// What a call answers.
#[derive(Clone, Copy, Debug, PartialEq, Eq)]
enum Answer {
    Stored,
    Overwrote(u64),
    Rejected(Rejection),
    Took(u64),
    Empty,
}

/// A call as it is written: a key, the letter of its answer, and the number after it.
#[derive(Drop)]
struct Written {
    key: usize,
    letter: u8,
    number: u64,
}

/// The calls of a program.
fn calls(alloc: Global, text: &str) -> Result<Vec<Written>, NoMemory> {
    let mut calls: Vec<Written> = Vec::new(alloc);
    for byte in text.as_bytes() {
        if byte.is_ascii_lowercase() {
            calls.push(Written {
                key: (*byte as usize).wrapping_sub(97),
                letter: b' ',
                number: 0,
            })?;
        } else if let Some(call) = calls.last_mut() {
            if byte.is_ascii_digit() {
                let digit = (*byte as u64).wrapping_sub(48);
                call.number = call.number.wrapping_mul(10).wrapping_add(digit);
            } else {
                call.letter = *byte;
            }
        }
    }
    Ok(calls)
}

impl Written {
    fn is_take(&self) -> bool {
        self.letter == b'T' || self.letter == b'E'
    }
}

/// The answer that is wanted. `None` for a letter that none has.
fn wanted(call: &Written) -> Option<Answer> {
    match call.letter {
        b'N' => Some(Answer::Stored),
        b'O' => Some(Answer::Overwrote(call.number)),
        b'I' => Some(Answer::Rejected(Rejection::InstancesLimit)),
        b'S' => Some(Answer::Rejected(Rejection::SamplesLimit)),
        b'P' => Some(Answer::Rejected(Rejection::SamplesPerInstanceLimit)),
        b'T' => Some(Answer::Took(call.number)),
        b'E' => Some(Answer::Empty),
        _ => None,
    }
}

fn admitted(answer: Admit) -> Answer {
    match answer {
        Admit::Stored => Answer::Stored,
        Admit::Overwrote(old) => Answer::Overwrote(old.sn),
        Admit::Rejected(why) => Answer::Rejected(why),
    }
}

fn taken(took: Option<Sample>) -> Answer {
    match took {
        Some(sample) => Answer::Took(sample.sn),
        None => Answer::Empty,
    }
}

/// A limit, `None` for `-`.
fn limit(word: Option<&str>) -> Option<u32> {
    word?.parse::<u32>().ok()
}

/// Makes a call, where the next sample has this number. A sample is available at once.
fn make<C: CacheForm>(
    fed: &mut Fed<C>,
    call: &Written,
    next: u64,
) -> Result<Option<Answer>, NoMemory> {
    if call.is_take() {
        return Ok(Some(taken(fed.take(call.key))));
    }
    let answer = fed.admit(0, next, call.key)?;
    fed.release(0, next);
    Ok(answer.map(admitted))
}

/// The limits of a program.
fn limits(program: &str) -> ReaderLimits {
    let mut words = program.split(' ');
    ReaderLimits {
        keep_last: limit(words.next()),
        max_samples: limit(words.next()),
        max_instances: limit(words.next()),
        max_samples_per_instance: limit(words.next()),
    }
}

/// Compares the answer to a call, at which the next sample has this number.
fn expect_answer(
    rt: &impl Abort,
    program: &str,
    call: &Written,
    answer: Option<Answer>,
    next: u64,
) {
    let Some(want) = wanted(call) else {
        panic!(rt; "{program}");
    };
    expect_equal(rt, (next, answer), (next, Some(want)), program);
}

/// Makes the calls of a program.
fn expect<C: CacheForm>(
    rt: &impl Abort,
    alloc: Global,
    program: &str,
    calls: &[Written],
) -> Result<(), NoMemory> {
    let mut fed = Fed::<C>::new(alloc, limits(program))?;
    let mut next: u64 = 1;
    for call in calls {
        let answer = make(&mut fed, call, next)?;
        expect_answer(rt, program, call, answer, next);
        if !call.is_take() {
            next = next.wrapping_add(1);
        }
    }
    Ok(())
}

/// Makes the 40 calls of a program on both forms.
fn expect_on_both(rt: &impl Abort, alloc: Global, program: &str) -> Result<(), NoMemory> {
    let calls = calls(alloc, program.split(' ').nth(4).unwrap_or(""))?;
    expect_equal(rt, calls.len(), 40, program);
    expect::<Cache>(rt, alloc, program, &calls)?;
    expect::<PlainCache>(rt, alloc, program, &calls)
}

/// Makes the programs of a text, and answers how many there are.
fn expect_programs(rt: &impl Abort, alloc: Global, programs: &str) -> Result<u64, NoMemory> {
    let mut count: u64 = 0;
    for program in programs.lines() {
        expect_on_both(rt, alloc, program)?;
        count = count.wrapping_add(1);
    }
    Ok(count)
}

#[test]
fn admits_as_elsewhere(rt: HostRuntime) -> Result<(), Fail> {
    let earlier = expect_programs(&rt, rt.alloc(), earlier::PROGRAMS)?;
    let later = expect_programs(&rt, rt.alloc(), later::PROGRAMS)?;
    expect_equal(&rt, earlier.wrapping_add(later), 1200, "programs");
    Ok(())
}
