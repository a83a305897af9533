//! The bus: 4,096 places for packets under way.
ghost use Rattle.std.specs.Prelude.{◌≡◌, None, is_none, is_some, nat_lt, replicate, option_map, position, slice_set};
ghost use Rattle.std.specs.Prelude.{IfOk};
ghost use Rattle.dds_runs.specs.Steps.{places};
ghost use Rattle.dds_domain.specs.Bus.{IsLastPlace, at_place, last_taken, sent_to, taken_count, with_packet};

use dds_base::{NoMemory, Packet};
use std::alloc::Global;
use std::marker::Model;

/// How many packets are under way at most.
const BUS_PLACES: usize = 4096;

/// The places are searched in blocks of so many.
const BLOCK: usize = 64;

/// How many blocks there are.
const BLOCKS: usize = 64;

/// The packets under way, each at a place from 0 to 4,095. It loses what is sent while each place is taken. How many
/// places of each block are taken is counted, so that no call walks more than one block and the counts.
#[derive(Drop)]
pub(crate) struct Bus {
    held: Vec<Option<Packet>>,
    taken: Vec<usize>,
    count: usize,
}

impl Model for Bus {
    ghost use Rattle.std.specs.Prelude.{List, Option};
    ghost use Rattle.dds_base.specs.declared.messages.Packet.{Packet};
    ghost use Rattle.dds_domain.specs.Bus.{IsCounted};

    ghost Value = { List (Option Packet) };

    ghost view = { λ b. b.held.items };

    ghost invariant = { λ b. IsCounted b.held.items b.taken.items b.count };
}

impl Bus {
    /// A bus without packets. An `Err` means that memory ran out.
    pub(crate) fn new(alloc: Global) -> Result<Bus, NoMemory>
        ensures { IfOk result (λ b. b ≡ replicate places None) }
    {
        let held = vec![in alloc; None; BUS_PLACES]?;
        let taken = vec![in alloc; 0; BLOCKS]?;
        let count = 0;
        Ok(Bus { held, taken, count })
    }

    /// The packet at a place, if there is one.
    pub(crate) fn at(&self, place: usize) -> Option<Packet>
        ensures { result ≡ at_place self.now place }
    {
        if place < self.held.len() {
            self.held[place]
        } else {
            None
        }
    }

    /// The packet at a place, where it stands.
    pub(crate) fn packet(&self, place: usize) -> Option<&Packet>
        ensures { option_map (λ p. p.now) result ≡ at_place self.now place }
    {
        self.held.get(place)?.as_ref()
    }

    /// How many places are taken.
    pub(crate) fn count(&self) -> usize
        ensures { result ≡ taken_count self.now }
    {
        self.count
    }

    /// The lowest taken place. `None` where no place is taken.
    pub(crate) fn lowest(&self) -> Option<usize>
        ensures { result ≡ position is_some self.now }
    {
        let block = first_used(&self.taken)?;
        let start = block * BLOCK;
        let at = first_packet(&self.held[start..start + BLOCK])?;
        Some(start + at)
    }

    /// The highest taken place. `None` where no place is taken.
    pub(crate) fn highest(&self) -> Option<usize>
        ensures { result ≡ last_taken self.now }
    {
        let block = last_used(&self.taken)?;
        let start = block * BLOCK;
        let at = last_packet(&self.held[start..start + BLOCK])?;
        Some(start + at)
    }

    // The lowest free place. `None` where each place is taken.
    fn free(&self) -> Option<usize>
        ensures { result ≡ sent_to self.now }
    {
        let block = first_open(&self.taken)?;
        let start = block * BLOCK;
        let at = first_free(&self.held[start..start + BLOCK])?;
        Some(start + at)
    }

    /// Puts a packet at the least free place, and returns that place. `None` where none is free: the packet is lost.
    pub(crate) fn send(&mut self, packet: Packet) -> Option<usize>
        ensures place { result ≡ sent_to self.old }
        ensures state { self.new ≡ with_packet self.old packet result }
    {
        let place = self.free()?;
        self.held[place] = Some(packet);
        self.taken[place / BLOCK] += 1;
        self.count += 1;
        Some(place)
    }

    /// Frees a place.
    pub(crate) fn clear(&mut self, place: usize)
        ensures { self.new ≡ slice_set self.old place None }
    {
        if self.at(place).is_some() {
            self.held[place] = None;
            self.taken[place / BLOCK] -= 1;
            self.count -= 1;
        }
    }
}

// The first block with a packet, by the counts of the blocks.
fn first_used(taken: &[usize]) -> Option<usize>
    ensures { result ≡ position (nat_lt 0) taken.now }
{
    taken.iter().position(|n| 0 < *n)
}

// The last block with a packet.
fn last_used(taken: &[usize]) -> Option<usize>
    ensures { IsLastPlace (nat_lt 0) taken.now result }
{
    taken.iter().rposition(|n| 0 < *n)
}

// The first block with a free place.
fn first_open(taken: &[usize]) -> Option<usize>
    ensures { result ≡ position (λ n. nat_lt n 64) taken.now }
{
    taken.iter().position(|n| *n < BLOCK)
}

// The first packet of a block.
fn first_packet(block: &[Option<Packet>]) -> Option<usize>
    ensures { result ≡ position is_some block.now }
{
    block.iter().position(|p| p.is_some())
}

// The last packet of a block.
fn last_packet(block: &[Option<Packet>]) -> Option<usize>
    ensures { IsLastPlace is_some block.now result }
{
    block.iter().rposition(|p| p.is_some())
}

// The first free place of a block.
fn first_free(block: &[Option<Packet>]) -> Option<usize>
    ensures { result ≡ position is_none block.now }
{
    block.iter().position(|p| p.is_none())
}
