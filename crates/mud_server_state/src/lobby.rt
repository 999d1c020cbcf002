//! The lobby: browsers that have no session yet, and the tickets for sessions.

use crate::limits::Limits;
use mud_control::host_of;
use mud_listeners::Site;
use mud_socket::Socket;
use std::alloc::{AllocError, Global};
use std::net::IpAddr;
use std::sync::atomic::{AtomicBool, AtomicU32, AtomicU64, Ordering};
use std::sync::{Arc, Mutex, Wait};

// The number of chairs: browsers whose head is being read.
const CHAIRS: u32 = 32;

// The greatest number of browsers whose head is being read, including those that gave up their chair and have not left
// yet.
const MOST_HEARD: u32 = 64;

// The number of connections that a browser opens to one server. An address has at least this many chairs, whatever its
// limit.
const CONNECTIONS: u32 = 6;

/// A browser whose head is being read: its socket, its address, and the number of browsers before it.
#[derive(Drop)]
struct Head {
    socket: Arc<Socket>,
    address: IpAddr,
    number: u64,
}

/// The browsers whose head is being read, each in a chair of its own, and the number of sessions that have begun or are
/// about to.
pub struct Lobby {
    site: Option<Site>,
    // No other lock is taken under it.
    chairs: Mutex<Vec<Option<Head>>>,
    came: AtomicU64,
    heard: AtomicU32,
    started: AtomicU32,
    begun: AtomicU32,
    is_closed: AtomicBool,
}

impl Drop for Lobby {
    fn drop(self) {
        let Lobby {
            site,
            chairs,
            came,
            heard,
            started,
            begun,
            is_closed,
        } = self;
        drop(site);
        drop(chairs);
        drop(came);
        drop(heard);
        drop(started);
        drop(begun);
        drop(is_closed);
    }
}

// Returns this many free chairs.
fn free_chairs(alloc: Global, count: u32) -> Result<Vec<Option<Head>>, AllocError> {
    let mut chairs = Vec::new(alloc);
    for _ in 0..count {
        chairs.push(None)?;
    }
    Ok(chairs)
}

// Returns the number of the browser at a chair, if there is one.
fn number_of(seat: &Option<Head>) -> Option<u64> {
    match seat {
        Some(head) => Some(head.number),
        None => None,
    }
}

// Returns the number of chairs of this address.
fn count_of(chairs: &[Option<Head>], address: IpAddr) -> u32 {
    let mut count = 0u32;
    for chair in chairs {
        if let Some(head) = chair
            && head.address == address
        {
            count = count.saturating_add(1);
        }
    }
    count
}

// Returns the free chair with the lowest number.
fn free_chair(chairs: &[Option<Head>]) -> Option<usize> {
    chairs.iter().position(|chair| chair.is_none())
}

// Returns the chair of this address whose browser has waited longest.
fn longest_of(chairs: &[Option<Head>], address: IpAddr) -> Option<usize> {
    let mut longest = None;
    let mut least = u64::MAX;
    for (at, chair) in chairs.iter().enumerate() {
        if let Some(head) = chair
            && head.address == address
            && head.number < least
        {
            longest = Some(at);
            least = head.number;
        }
    }
    longest
}

// Returns the address with the most chairs; among equals, that of the browser that has waited longest.
fn most_seated(chairs: &[Option<Head>]) -> Option<IpAddr> {
    let mut seated = None;
    let mut most = 0u32;
    let mut least = u64::MAX;
    for chair in chairs {
        if let Some(head) = chair {
            let count = count_of(chairs, head.address);
            if most < count || (most == count && head.number < least) {
                seated = Some(head.address);
                most = count;
                least = head.number;
            }
        }
    }
    seated
}

// Returns the chair for one more browser of an address that may have `most` chairs. It is a free one if the address has
// fewer. Otherwise it is that of the browser that has waited longest: of this address if it has as many, or else of the
// address with the most.
fn chair_for(chairs: &[Option<Head>], address: IpAddr, most: u32) -> Option<usize> {
    if most <= count_of(chairs, address) {
        return longest_of(chairs, address);
    }
    match free_chair(chairs) {
        Some(at) => Some(at),
        None => longest_of(chairs, most_seated(chairs)?),
    }
}

// Returns the number of chairs that one address may have.
fn most_chairs(limits: &Limits) -> u32 {
    match limits.per_address {
        0 => CHAIRS,
        most => most.max(CONNECTIONS),
    }
}

impl Lobby {
    /// Returns an empty lobby, which has chairs only if there is a web listener.
    pub fn new(alloc: Global, site: Option<Site>) -> Result<Lobby, AllocError> {
        let count = if site.is_some() { CHAIRS } else { 0 };
        Ok(Lobby {
            site,
            chairs: Mutex::new(free_chairs(alloc, count)?),
            came: AtomicU64::new(0),
            heard: AtomicU32::new(0),
            started: AtomicU32::new(0),
            begun: AtomicU32::new(0),
            is_closed: AtomicBool::new(false),
        })
    }

    /// Returns the origin whose pages may play; empty without a web listener.
    pub fn origin(&self) -> &[u8] {
        match &self.site {
            Some(site) => site.origin.as_bytes(),
            None => b"",
        }
    }

    /// Returns the answer to a browser that asks for the page.
    pub fn page(&self) -> &'static [u8] {
        match &self.site {
            Some(site) => site.page,
            None => b"",
        }
    }

    /// Takes a chair for a browser of this address, if the lobby is open. If no chair is free, or the address has as
    /// many as it may have, the browser that has waited longest gives way, and its socket is shut. Returns `None` if 64
    /// browsers are still being read, including those that gave way. Returns the number of browsers before it as the
    /// chair's name.
    pub fn take_chair<R: Wait>(
        &self,
        rt: &R,
        socket: Arc<Socket>,
        address: IpAddr,
        limits: &Limits,
    ) -> Option<u64> {
        if self.is_closed.load(Ordering::SeqCst) {
            return None;
        }
        if self.heard.fetch_add(1, Ordering::SeqCst) >= MOST_HEARD {
            self.heard.fetch_sub(1, Ordering::SeqCst);
            return None;
        }
        let chair = self.seat(rt, socket, address, limits);
        if chair.is_none() {
            self.heard.fetch_sub(1, Ordering::SeqCst);
        }
        chair
    }

    // Gives a browser its chair, and shuts the socket of the browser that had it. A chair counts for the host of its
    // address.
    fn seat<R: Wait>(
        &self,
        rt: &R,
        socket: Arc<Socket>,
        address: IpAddr,
        limits: &Limits,
    ) -> Option<u64> {
        let number = self.came.fetch_add(1, Ordering::SeqCst);
        let address = host_of(address);
        let head = Head {
            socket,
            address,
            number,
        };
        let mut chairs = self.chairs.lock(rt);
        let at = chair_for(chairs.as_slice(), address, most_chairs(limits))?;
        let seat = chairs.get_mut(at)?;
        if let Some(former) = seat.take() {
            former.socket.shut();
        }
        *seat = Some(head);
        Some(number)
    }

    /// Releases the chair with this name, unless another browser has it now.
    pub fn release_chair<R: Wait>(&self, rt: &R, number: u64) {
        let mut chairs = self.chairs.lock(rt);
        for chair in chairs.iter_mut() {
            if number_of(chair) == Some(number) {
                *chair = None;
            }
        }
        self.heard.fetch_sub(1, Ordering::SeqCst);
    }

    /// Returns whether no browser's head is being read.
    pub fn is_empty(&self) -> bool {
        self.heard.load(Ordering::SeqCst) == 0
    }

    /// Closes the lobby: no further session may begin, and the sockets of its browsers are shut.
    pub fn close<R: Wait>(&self, rt: &R) {
        self.is_closed.store(true, Ordering::SeqCst);
        let chairs = self.chairs.lock(rt);
        for chair in chairs.iter() {
            if let Some(head) = chair {
                head.socket.shut();
            }
        }
    }

    /// Sends the browsers away whose head is being read, by shutting their sockets. The lobby stays open.
    pub fn send_away<R: Wait>(&self, rt: &R) {
        let chairs = self.chairs.lock(rt);
        for chair in chairs.iter() {
            if let Some(head) = chair {
                head.socket.shut();
            }
        }
    }

    /// Takes a ticket for one more session, if one may begin. `settle_ticket` must follow.
    pub fn take_ticket(&self, limits: &Limits) -> bool {
        if self.is_closed.load(Ordering::SeqCst) {
            return false;
        }
        if limits.total == 0 || limits.counts_players {
            return true;
        }
        let is_free = self.started.fetch_add(1, Ordering::SeqCst) < limits.total;
        if !is_free {
            self.settle_ticket(limits, false);
        }
        is_free
    }

    /// Uses the ticket of a session that has begun, or returns it if the session does not begin.
    pub fn settle_ticket(&self, limits: &Limits, has_begun: bool) {
        if limits.total == 0 || limits.counts_players {
            return;
        }
        if has_begun {
            self.begun.fetch_add(1, Ordering::SeqCst);
        } else {
            self.started.fetch_sub(1, Ordering::SeqCst);
        }
    }

    /// Returns the number of sessions that have begun, if these count for a total.
    pub fn begun_count(&self) -> u32 {
        self.begun.load(Ordering::SeqCst)
    }
}
