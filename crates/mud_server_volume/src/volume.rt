//! Both ends of a volume: its hall, its journal, and the sessions that come from it and go on to the next one.

ghost use Rattle.std.specs.Prelude.{◌≡◌, ◌≤◌, length, IfOk, IfErr, false};
ghost use Rattle.mud_world.specs.declared.limits.TheConstants.{MOST_ENTRIES};
ghost use Rattle.mud_search.specs.declared.limits.TheConstants.{MOST_WORKERS};
ghost use Rattle.mud_journal.specs.Disk.{Holds};
ghost use Rattle.mud_server_end.specs.Server.{MayEnd, IsInnerFault};

use crate::course::{Comers, Served};
use crate::proposal::Proposal;
use crate::turning::Turning;
use log::Log;
use mud_control::{Control, StopSign};
use mud_hall::{Hall, HallName, NewHall};
use mud_journal::{Disk, Journal, Nameless};
use mud_listeners::{Arrivals, Doors};
use mud_row::History;
use mud_server_end::{GroupCommit, ServerFault, settle_group};
use mud_server_session::{Came, Guest};
use mud_server_state::{Commits, Limits, Lobby, ServerState, StateOf};
use mud_socket::Ending;
use std::alloc::Global;
use std::sync::{Arc, Wait};

/// The terms of all volumes of a server: the limits, and the means of its host.
#[derive(Clone, Copy)]
pub struct Terms<'s> {
    pub limits: Limits,
    pub stop: Option<&'s StopSign>,
    pub control: &'s Arc<Control>,
}

/// The values that outlive a volume: the listeners, the lobby, the sessions that rest, and the number of sessions that
/// became a player's. None of them names a hall.
#[derive(Drop)]
pub struct Company {
    pub arrivals: Option<Arrivals>,
    pub lobby: Lobby,
    pub guests: Vec<Guest>,
    pub players: u32,
}

/// The beginning of a volume, also after a turn that was called off: its hall, its journal and number, the origin of
/// its sessions, and its turn.
#[derive(Drop)]
pub struct Beginning<D: Disk + Drop> {
    pub hall: NewHall,
    pub journal: Journal<Nameless, D>,
    pub volume: u32,
    pub came: Option<Came>,
    pub turning: Turning,
}

/// The end of a volume: the values that outlive it, its history and its journal, a proposal for the next one, and the
/// reason why no further connection was accepted.
#[derive(Drop)]
pub struct Ended<D: Disk + Drop> {
    pub company: Company,
    pub history: History,
    pub journal: Journal<Nameless, D>,
    pub proposal: Option<Proposal>,
    pub served: Served,
}

impl<D: Disk + Drop> Ended<D> {
    /// Returns its history and its journal, and the reason why no further connection was accepted.
    pub fn into_parts(self) -> (History, Journal<Nameless, D>, Served)
        ensures { result ≡ (self.history, self.journal, self.served) }
    {
        let Ended {
            history,
            journal,
            served,
            ..
        } = self;
        (history, journal, served)
    }
}

/// Returns the state of a volume, and its players.
pub fn state_of<J: HallName, G: Commits<J>, R: Wait + Log>(
    rt: &R,
    alloc: Global,
    hall: Hall<J>,
    gate: G,
    company: Company,
    terms: Terms<'_>,
    volume: u32,
) -> Result<(StateOf<J, G>, Comers), ServerFault>
    requires { terms.limits.workers ≤ MOST_WORKERS }
    ensures places { IfOk result (λ s. length s.0.places.list.items ≡ terms.entry.limits.sessions) }
    ensures fault { IfErr result IsInnerFault }
{
    let Company {
        arrivals,
        lobby,
        guests,
        players,
    } = company;
    let control = Arc::try_clone(terms.control)?;
    let state = ServerState::new(alloc, hall, terms.limits, gate, lobby, control)?;
    state.shared.set_player_count(players);
    state.begin(rt, volume);
    Ok((state, Comers { guests, arrivals }))
}

/// The values that the threads of a volume left: the listeners, unless they were closed, the reason why no further
/// connection was accepted, the sessions that rest, and a proposal.
#[derive(Drop)]
pub struct Left {
    pub arrivals: Option<Arrivals>,
    pub served: Served,
    pub guests: Vec<Guest>,
    pub proposal: Option<Proposal>,
}

/// Ends the sessions that rest, because the journal has failed.
pub fn part_all<R: Wait + Log>(rt: &R, guests: Vec<Guest>) {
    for guest in guests {
        guest.part(rt, Ending::JournalFault);
    }
}

/// Settles a volume whose threads have ended. If its journal fails, the sessions that rest are told so, and end.
pub fn settle_volume<J: HallName, D: Disk + Drop, R: Wait + Log>(
    rt: &R,
    alloc: Global,
    limits: Limits,
    state: StateOf<J, GroupCommit<J, D>>,
    left: Left,
) -> Result<Ended<D>, ServerFault>
    requires places { length state.places.list.items ≡ limits.sessions }
    requires capacity { limits.capacity ≤ MOST_ENTRIES }
    ensures ends { IfOk result (λ e. MayEnd limits J.loaded e.history) }
    ensures journaled { IfOk result (λ e. Holds (D.kept e.journal.disk) e.history) }
    ensures count { IfOk result (λ e. e.journal.count ≡ length e.history) }
    ensures going { IfOk result (λ e. e.journal.has_failed ≡ false) }
    ensures fault { IfErr result IsInnerFault }
{
    let players = state.shared.player_count();
    let Ok((hall, desks, lobby, gate)) = state.into_parts(alloc) else {
        return Err(ServerFault::OutOfMemory);
    };
    let Left {
        arrivals,
        served,
        guests,
        proposal,
    } = left;
    let (history, journal) = match settle_group(rt, alloc, limits, hall, desks, gate) {
        Ok(settled) => settled,
        Err(fault) => {
            if matches!(fault, ServerFault::Journal(_)) {
                part_all(rt, guests);
            }
            return Err(fault);
        }
    };
    Ok(Ended {
        company: Company {
            arrivals,
            lobby,
            guests,
            players,
        },
        history,
        journal,
        proposal,
        served,
    })
}

/// Returns the values that come to the first volume: the listeners, and an empty lobby.
pub fn new_company(alloc: Global, doors: Doors) -> Result<Company, ServerFault>
    ensures fault { IfErr result IsInnerFault }
{
    let (listeners, site) = doors.into_parts();
    let Some(arrivals) = Arrivals::new(listeners) else {
        return Err(ServerFault::Accept);
    };
    Ok(Company {
        arrivals: Some(arrivals),
        lobby: Lobby::new(alloc, site)?,
        guests: Vec::new(alloc),
        players: 0,
    })
}
