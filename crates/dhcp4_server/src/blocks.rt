//! The blocks of a pool, by which its lowest free address is found without a look at each.

ghost use Rattle.std.specs.Prelude.{◌≡◌, ◌≤◌, ◌<◌, ℕ, IfOk, None, Some, length, replicate, slice_set};
ghost use Rattle.dhcp4_server.specs.Blocks as blocks;
ghost use Rattle.dhcp4_server.specs.Blocks.{BoundsBlocks, IsLowestIn, is_over_at};

use crate::binding::{Binding, end_of};
use std::alloc::{AllocError, Global};
use std::marker::Model;

// How many places a block has: the square root of the largest pool.
const BLOCK: usize = 256;

/// For each block of places, the earliest moment at which one of its addresses is free for every
/// client.
#[derive(Drop)]
pub(crate) struct Blocks {
    earliest: Vec<u64>,
}

impl Model for Blocks {
    ghost use Rattle.std.specs.Prelude.{ℕ, List};

    ghost Value = { List ℕ };

    ghost view = { λ blocks. blocks.earliest.items };
}

impl Blocks {
    /// The blocks of so many places without bindings.
    pub(crate) fn new(alloc: Global, count: u32) -> Result<Blocks, AllocError>
        ensures { IfOk result (λ blocks. BoundsBlocks blocks (replicate count None)) }
    {
        let earliest = vec![in alloc; 0u64; count.div_ceil(BLOCK as u32) as usize]?;
        Ok(Blocks { earliest })
    }

    /// The lowest place whose address is free for every client.
    pub(crate) fn lowest_over(&self, places: &[Option<Binding>], now: u64) -> Option<usize>
        requires { BoundsBlocks self.now places.now }
        ensures { IsLowestIn (is_over_at places.now now) 0 (length places.now) result }
    {
        for block in 0..self.earliest.len() {
            if self.earliest[block] <= now {
                let found = first_over(places, block * BLOCK, now);
                if found.is_some() {
                    return found;
                }
            }
        }
        None
    }

    /// Binds the address at a place.
    pub(crate) fn bind(&mut self, places: &mut [Option<Binding>], place: usize, binding: Binding)
        requires place { place < length places.old }
        requires bounds { BoundsBlocks self.old places.old }
        ensures places { places.new ≡ slice_set places.old place (Some binding) }
        ensures bounds { BoundsBlocks self.new places.new }
    {
        places[place] = Some(binding);
        let block = place / BLOCK;
        self.earliest[block] = earliest_from(places, block * BLOCK);
    }
}

// The place after the last one of the block that begins at this place.
fn end_of_block(places: &[Option<Binding>], start: usize) -> usize
    requires { start < length places.now }
    ensures { result ≡ blocks.end_of_block (length places.now) start }
{
    if places.len() - start < BLOCK {
        places.len()
    } else {
        start + BLOCK
    }
}

// The moment from which the address at a place is free for every client.
fn end_at(places: &[Option<Binding>], place: usize) -> u64
    ensures { result ≡ blocks.end_at places.now place }
{
    match places.get(place) {
        Some(binding) => end_of(*binding),
        None => 0,
    }
}

// The lowest place of the block that begins at this place whose address is free for every client.
fn first_over(places: &[Option<Binding>], start: usize, now: u64) -> Option<usize>
    requires { start < length places.now }
    ensures { IsLowestIn (is_over_at places.now now) start
        (blocks.end_of_block (length places.now) start) result }
{
    for place in start..end_of_block(places, start) {
        if end_at(places, place) <= now {
            return Some(place);
        }
    }
    None
}

// The earliest moment at which an address of the block that begins at this place is free for every
// client.
fn earliest_from(places: &[Option<Binding>], start: usize) -> u64
    requires { start < length places.now }
    ensures { (k : ℕ) → start ≤ k → k < blocks.end_of_block (length places.now) start →
        result ≤ blocks.end_at places.now k }
{
    let mut earliest = u64::MAX;
    for place in start..end_of_block(places, start) {
        earliest = earliest.min(end_at(places, place));
    }
    earliest
}
