//! When the threads of a run begin.
ghost use Rattle.std.specs.Prelude.{◌≡◌, ◌<◌, IfOk, length};
ghost use Rattle.dds_peers.specs.Delays.{AreDelays, IsDelay};

use dds_base::{AppNo, NoMemory, ParticipantNo};
use dds_lists::{Deployment, Joins};
use rand_core::utils::NextWord;
use rand_pcg::Pcg32;
use std::alloc::Global;
use std::thread;
use std::time::{Clock, Duration};

/// So many milliseconds a thread waits at most before it begins.
const MOST: u32 = 64;

// How long the threads of a participant wait: at random, if it may come at any time.
fn delay_of(lists: &Deployment, participant: ParticipantNo, seed: u16) -> u16
    requires { participant < length lists.now.participants.entries }
    ensures { IsDelay lists.now participant result }
{
    match lists.participant(participant).joins {
        Joins::Before => 0,
        Joins::Any => {
            let mut random = Pcg32::new(u64::from(seed), participant.number() as u64);
            (random.next_word() % MOST) as u16
        }
    }
}

/// For how many milliseconds the thread of each seat waits before it begins, 0 to 63: those of the applications first,
/// and then those of the participants. A participant that may come at any time begins at a moment that the seed draws,
/// its applications with it; all others begin at once. `NoMemory` is the only error.
pub fn draw_delays(alloc: Global, lists: &Deployment, seed: u16) -> Result<Vec<u16>, NoMemory>
    ensures { IfOk result (λ delays. AreDelays lists.now delays.items) }
{
    let mut delays = Vec::new(alloc);
    for app in 0..lists.applications() {
        let participant = lists.application(AppNo::new(app)).participant;
        delays.push(delay_of(lists, participant, seed))?;
    }
    for participant in 0..lists.participants() {
        delays.push(delay_of(lists, ParticipantNo::new(participant), seed))?;
    }
    Ok(delays)
}

/// Waits as long as the thread of a seat is to wait before it begins: not at all, if there's no such delay.
pub(crate) fn wait_to_begin<R: Clock>(rt: &R, delays: &[u16], seat: usize) {
    let delay = delays.get(seat).copied().unwrap_or(0);
    if delay > 0 {
        thread::sleep(rt, Duration::from_millis(u64::from(delay)));
    }
}
