//! The rooms where players have to be.

use crate::column::Lists;
use crate::makings::Making;
use crate::story::Story;
use std::alloc::{AllocError, Global};

/// A player's move of a thing.
#[derive(Clone, Copy)]
pub(crate) struct Delivery {
    /// Before the entry of this time.
    pub(crate) time: usize,
    pub(crate) actor: u32,
    /// The room of the actor, and of the player to whom the thing goes, if it goes to one.
    pub(crate) room: u32,
    pub(crate) thing: u32,
    pub(crate) to: u32,
}

/// A room where a player has to be.
#[derive(Clone, Copy)]
pub(crate) struct Stop {
    /// Before the entry of this time.
    pub(crate) time: usize,
    pub(crate) room: u32,
}

// A player's stop.
#[derive(Clone, Copy)]
struct Errand {
    player: u32,
    stop: Stop,
}

// Adds the stops for changes that make objects.
fn add_makings(errands: &mut Vec<Errand>, makings: &[Making]) -> Result<(), AllocError> {
    for making in makings {
        let Some(room) = making.room else {
            continue;
        };
        let stop = Stop {
            time: making.time,
            room,
        };
        errands.push(Errand {
            player: making.actor,
            stop,
        })?;
    }
    Ok(())
}

// Adds the stops of a delivery.
fn add_delivery(
    errands: &mut Vec<Errand>,
    story: &Story,
    delivery: Delivery,
) -> Result<(), AllocError> {
    let stop = Stop {
        time: delivery.time,
        room: delivery.room,
    };
    errands.push(Errand {
        player: delivery.actor,
        stop,
    })?;
    if story.is_player(delivery.to) && delivery.to != delivery.actor {
        errands.push(Errand {
            player: delivery.to,
            stop,
        })?;
    }
    Ok(())
}

// Adds the stops of deliveries.
fn add_deliveries(
    errands: &mut Vec<Errand>,
    story: &Story,
    deliveries: &[Delivery],
) -> Result<(), AllocError> {
    for delivery in deliveries {
        add_delivery(errands, story, *delivery)?;
    }
    Ok(())
}

// Returns the stops of each player, in this order.
fn stops_by_player(
    alloc: Global,
    count: u32,
    errands: &[Errand],
) -> Result<Lists<Stop>, AllocError> {
    let mut stops = Lists::new(alloc, count)?;
    for errand in errands {
        stops.push(errand.player, errand.stop)?;
    }
    Ok(stops)
}

/// Returns the stops of each player, sorted by time: those for changes that make objects, and those of deliveries.
pub(crate) fn stops_of(
    alloc: Global,
    story: &Story,
    makings: &[Making],
    deliveries: &[Delivery],
) -> Result<Lists<Stop>, AllocError> {
    let mut errands = Vec::new(alloc);
    add_makings(&mut errands, makings)?;
    add_deliveries(&mut errands, story, deliveries)?;
    errands.sort_by_key(|errand: &Errand| -> usize { errand.stop.time })?;
    stops_by_player(alloc, story.count, &errands)
}
