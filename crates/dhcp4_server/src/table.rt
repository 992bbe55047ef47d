//! The bindings of a server, RFC 2131 section 4.3.1, and what they decide.

ghost use Rattle.std.specs.Prelude.{◌≡◌, ℕ, ◌+◌, ◌-◌, ◌<◌, ◌≤◌, ◌^◌, length, replicate, slice_get, IfOk, OnErr, OnOk, None};
ghost use Rattle.std.specs.BTreeSet.{contains};
ghost use Rattle.dhcp4_server.specs.Binding.{Rebinds, bound_at, is_over_by, is_own_by};
ghost use Rattle.dhcp4_server.specs.Decision.{BindsBy, GrantsInside, decide_by, is_in_pool, lowest};
ghost use Rattle.dhcp4_server.specs.Table.{ChangesOwner, bound, pair_order, pool_in};

use crate::binding::{Binding, is_free};
use crate::blocks::Blocks;
use crate::decision::{Decision, Query};
use std::alloc::{AllocError, Global};
use std::collections::BTreeSet;
use std::marker::Model;

/// The bindings of a pool: a place for each address, from the first on. The set has the transaction
/// id and the address of each binding, so that the addresses of a client are found by it.
#[derive(Drop)]
pub(crate) struct Table {
    first: u32,
    places: Vec<Option<Binding>>,
    owned: BTreeSet<(u32, u32)>,
    blocks: Blocks,
}

impl Model for Table {
    ghost use Rattle.std.specs.Prelude.{◌+◌, ◌≤◌, ◌^◌, length};
    ghost use Rattle.dhcp4_server.specs.Blocks.{BoundsBlocks};
    ghost use Rattle.dhcp4_server.specs.Table.{BindingTable, ListsOwners};

    ghost Value = { BindingTable };

    ghost view = { λ table. record { first = table.first; places = table.places.items } };

    ghost invariant = { λ table. (table.first + length table.places.items ≤ 2 ^ 32)
        × ListsOwners table.owned table.first table.places.items
        × BoundsBlocks table.blocks table.places.items };
}

// Makes this client the one owner of an address. Out of memory is the only error, and changes
// nothing.
fn change_owner(
    owned: &mut BTreeSet<(u32, u32)>,
    address: u32,
    before: Option<Binding>,
    xid: u32,
) -> Result<(), AllocError>
    requires { (other : ℕ) → contains pair_order owned.old (other, address)
        ≡ is_own_by before other }
    ensures changed { OnOk result (ChangesOwner address xid owned.old owned.new) }
    ensures err { OnErr result (owned.new.keys ≡ owned.old.keys) }
{
    owned.insert((xid, address))?;
    let Some(binding) = before else {
        return Ok(());
    };
    if binding.xid == xid {
        return Ok(());
    }
    owned.remove(&(binding.xid, address));
    Ok(())
}

impl Table {
    /// No bindings, of so many addresses from the first on.
    pub(crate) fn new(alloc: Global, first: u32, count: u32) -> Result<Table, AllocError>
        requires { first + count ≤ 2 ^ 32 }
        ensures first { IfOk result (λ table. table.first ≡ first) }
        ensures empty { IfOk result (λ table. table.places ≡ replicate count None) }
    {
        let mut places = Vec::new(alloc);
        for _ in 0..count {
            places.push(None)?;
        }
        Ok(Table {
            first,
            places,
            owned: BTreeSet::new(alloc),
            blocks: Blocks::new(alloc, count)?,
        })
    }

    // The binding of an address.
    fn bound(&self, address: u32) -> Option<Binding>
        ensures { result ≡ bound self.now address }
    {
        if address < self.first {
            return None;
        }
        match self.places.as_slice().get((address - self.first) as usize) {
            Some(binding) => *binding,
            None => None,
        }
    }

    // The binding of the address at a place.
    fn at(&self, place: usize) -> Option<Binding>
        ensures { result ≡ bound_at (slice_get self.now.places place) }
    {
        match self.places.as_slice().get(place) {
            Some(binding) => *binding,
            None => None,
        }
    }

    // The lowest address that is bound to this client.
    fn lowest_own(&self, xid: u32) -> Option<u32>
        ensures { result ≡ lowest (λ address. is_own_by (bound self.now address) xid)
            self.now.first (length self.now.places) }
    {
        match self.owned.range((xid, 0)..=(xid, u32::MAX)).next() {
            Some(key) => Some(key.1),
            None => None,
        }
    }

    // The lowest address that is free for every client.
    fn lowest_over(&self, now: u64) -> Option<u32>
        ensures { result ≡ lowest (λ address. is_over_by (bound self.now address) now)
            self.now.first (length self.now.places) }
    {
        match self.blocks.lowest_over(self.places.as_slice(), now) {
            Some(place) => Some(self.first + place as u32),
            None => None,
        }
    }

    // Whether an address is one of the pool.
    fn is_in_pool(&self, address: u32) -> bool
        ensures { result ≡ is_in_pool (pool_in self.now) address }
    {
        address >= self.first && ((address - self.first) as usize) < self.places.len()
    }

    /// What these bindings decide for a client at a moment.
    pub(crate) fn decide(&self, xid: u32, now: u64, query: Query) -> Decision
        ensures decided { result ≡ decide_by (pool_in self.now) (bound self.now) xid now query }
        ensures inside { GrantsInside self.now.first (length self.now.places) result }
    {
        match query {
            Query::Discover => self.offer(xid, now),
            Query::Request(address) => {
                if self.is_in_pool(address) && is_free(self.bound(address), xid, now) {
                    Decision::Grant(address)
                } else {
                    Decision::Refuse
                }
            }
        }
    }

    // What is offered to a client.
    fn offer(&self, xid: u32, now: u64) -> Decision
        ensures decided { result ≡ decide_by (pool_in self.now) (bound self.now) xid now
            Query.Discover }
        ensures inside { GrantsInside self.now.first (length self.now.places) result }
    {
        if let Some(address) = self.lowest_own(xid) {
            return Decision::Offer(address);
        }
        match self.lowest_over(now) {
            Some(address) => Decision::Offer(address),
            None => Decision::Silence,
        }
    }

    /// Notes what was decided for a client: an address that is granted is bound to it until `end`.
    /// Out of memory is the only error, and changes nothing.
    pub(crate) fn note(&mut self, xid: u32, end: u64, decision: Decision) -> Result<(), AllocError>
        requires { GrantsInside self.old.first (length self.old.places) decision }
        ensures first { self.new.first ≡ self.old.first }
        ensures size { length self.new.places ≡ length self.old.places }
        ensures bound { OnOk result (BindsBy xid end decision (bound self.old) (bound self.new)) }
        ensures err { OnErr result (self.new ≡ self.old) }
    {
        match decision {
            Decision::Grant(address) => self.bind(address, Binding { xid, end }),
            Decision::Silence => Ok(()),
            Decision::Offer(_) => Ok(()),
            Decision::Refuse => Ok(()),
        }
    }

    // Binds an address of the pool.
    fn bind(&mut self, address: u32, binding: Binding) -> Result<(), AllocError>
        requires low { self.old.first ≤ address }
        requires high { address - self.old.first < length self.old.places }
        ensures first { self.new.first ≡ self.old.first }
        ensures size { length self.new.places ≡ length self.old.places }
        ensures bound { OnOk result (Rebinds address binding (bound self.old) (bound self.new)) }
        ensures err { OnErr result (self.new ≡ self.old) }
    {
        let place = (address - self.first) as usize;
        let before = self.at(place);
        change_owner(&mut self.owned, address, before, binding.xid)?;
        self.blocks.bind(self.places.as_mut_slice(), place, binding);
        Ok(())
    }
}
