//! Listers: they compute the legs of a party, and a certificate's claims about its members.

ghost use Rattle.std.specs.Prelude.{⊤, IfOk};
ghost use Rattle.std.specs.Thread.{IsSync};
ghost use Rattle.mud_search.specs.Least.{label_in, AreBounded};
ghost use Rattle.mud_guide.specs.inner.Travellers.{AreMembers};
ghost use Rattle.mud_guide.specs.inner.Listings.{IsListing};

use crate::accounts::accounts_of;
use crate::leg::{Leg, legs_to};
use mud_cert::Member;
use mud_roads::Traveller;
use mud_search::{Labels, last_share};
use mud_world::World;
use std::alloc::{AllocError, Global};
use std::thread::{Threads, join};

/// The legs of a party's members, and the claims about each.
#[derive(Drop)]
pub(crate) struct Listing {
    pub(crate) legs: Vec<Leg>,
    pub(crate) accounts: Vec<Member>,
}

/// Lists the legs of all members to a room, if there is one to go to, and the claims about them.
pub(crate) trait Lister {
    // The precondition of a lister: with several workers, threads may share their handle.
    ghost ready: { Self → Type 0 } = { λ _. ⊤ };

    fn list(
        &self,
        alloc: Global,
        world: &World,
        party: &[Traveller],
        labels: &Labels,
        to: Option<u32>,
    ) -> Result<Listing, AllocError>
        requires ready { Self.ready self.now }
        requires members { AreMembers world.now (label_in labels.now) 0 party.now }
        requires bounded { AreBounded (label_in labels.now) }
        ensures { IfOk result (IsListing world.now (label_in labels.now) 0 to party.now) };
}

/// The caller's thread without other workers.
#[derive(Clone, Copy, Drop)]
pub(crate) struct Alone;

impl Lister for Alone {
    fn list(
        &self,
        alloc: Global,
        world: &World,
        party: &[Traveller],
        labels: &Labels,
        to: Option<u32>,
    ) -> Result<Listing, AllocError> {
        listing_of(alloc, world, party, labels, 0, to)
    }
}

/// Several workers; the caller's thread is one of them.
#[derive(Drop)]
pub(crate) struct Crew<'a, R: Threads + Sync> {
    pub(crate) rt: &'a R,
    pub(crate) workers: usize,
}

impl<'a, R: Threads + Sync> Lister for Crew<'a, R> {
    ghost ready = { λ _. IsSync R.row };

    fn list(
        &self,
        alloc: Global,
        world: &World,
        party: &[Traveller],
        labels: &Labels,
        to: Option<u32>,
    ) -> Result<Listing, AllocError> {
        listing_with(self, alloc, world, party, labels, 0, to)
    }
}

// Returns the listing of members from a number on.
fn listing_of(
    alloc: Global,
    world: &World,
    party: &[Traveller],
    labels: &Labels,
    first: usize,
    to: Option<u32>,
) -> Result<Listing, AllocError>
    requires members { AreMembers world.now (label_in labels.now) first party.now }
    requires bounded { AreBounded (label_in labels.now) }
    ensures { IfOk result (IsListing world.now (label_in labels.now) first to party.now) }
{
    let next = world.next_number();
    let legs = legs_to(alloc, world, party, labels, first, to)?;
    let accounts = accounts_of(alloc, next, legs.as_slice(), labels, first)?;
    Ok(Listing { legs, accounts })
}

// Returns the listing of members from a number on. While there are two members and two workers, the last members are
// split off for the last workers.
#[tactic(auto, using(crate::proofs::Parts::members_front, crate::proofs::Parts::members_back))]
fn listing_with<R: Threads + Sync>(
    crew: &Crew<'_, R>,
    alloc: Global,
    world: &World,
    party: &[Traveller],
    labels: &Labels,
    first: usize,
    to: Option<u32>,
) -> Result<Listing, AllocError>
    requires members { AreMembers world.now (label_in labels.now) first party.now }
    requires bounded { AreBounded (label_in labels.now) }
    ensures { IfOk result (IsListing world.now (label_in labels.now) first to party.now) }
{
    let (rt, workers, members) = (crew.rt, crew.workers, party.len());
    if members < 2 || workers < 2 {
        return listing_of(alloc, world, party, labels, first, to);
    }
    let ahead = members - last_share(members, workers);
    let (front, back) = party.split_at(ahead);
    let behind = first + ahead;
    let after = last_share(workers, members);
    let before = workers - after;
    let (others, listing) = join(
        rt,
        || -> Result<Listing, AllocError>
            requires { IsSync R.row × AreMembers world.now (label_in labels.now) behind back.now
                × AreBounded (label_in labels.now) }
            ensures { IfOk result
                (IsListing world.entry.now (label_in labels.entry.now) behind to back.entry.now) }
        {
            listing_with(
                &Crew { rt, workers: after },
                alloc,
                world,
                back,
                labels,
                behind,
                to,
            )
        },
        || -> Result<Listing, AllocError>
            requires { IsSync R.row × AreMembers world.now (label_in labels.now) first front.now
                × AreBounded (label_in labels.now) }
            ensures { IfOk result
                (IsListing world.entry.now (label_in labels.entry.now) first to front.entry.now) }
        {
            listing_with(
                &Crew {
                    rt,
                    workers: before,
                },
                alloc,
                world,
                front,
                labels,
                first,
                to,
            )
        },
    );
    let mut listing = listing?;
    let mut others = others?;
    listing.legs.append(&mut others.legs)?;
    listing.accounts.append(&mut others.accounts)?;
    Ok(listing)
}
