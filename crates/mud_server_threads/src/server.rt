//! Starts threads and sessions.

use crate::ending::leave;
use crate::notice::{Sleeper, tell_all};
use crate::reader::{read_all, read_on};
use crossbeam_utils::sync::{Parker, Unparker};
use log::Log;
use mud_client::RestingClient;
use mud_control::{Member, Refusal};
use mud_server_session::{Converses, Guest, Habits, Quay, log_end, log_number, log_refusal};
use mud_server_state::NoPlace;
use mud_socket::{Parting, Socket, now, unix_seconds};
use std::alloc::Global;
use std::marker::PhantomData;
use std::net::IpAddr;
use std::sync::{Arc, Wait};
use std::thread::{Scope, Threads};
use std::time::{Clock, Duration};

/// The values of each thread that starts others: the scope in which they run, the handle that starts them, the
/// allocator, and the shared state.
///
/// They are one struct, because the prover's search for types that may cross threads gives up on a closure that
/// captures many values. Each method that starts a thread cites lemmas for the captured values (`proofs/Crosses.antt`).
#[derive(Drop)]
pub struct Server<'s, E, S, C, R> {
    pub scope: &'s Scope<'s, E>,
    pub rt: &'s R,
    pub alloc: Global,
    pub state: &'s S,
    pub quay: &'s Quay,
    /// The type of its connections.
    pub of: PhantomData<C>,
}

/// A session that sits at a desk again, and has no threads yet.
#[derive(Drop)]
pub struct Seated<C> {
    begun: Begun<C>,
    at: usize,
    habits: Habits,
}

/// The values for the threads of a new session.
#[derive(Drop)]
pub(crate) struct Begun<C> {
    pub(crate) kept: Arc<C>,
    pub(crate) reads: Arc<C>,
    pub(crate) tells: Arc<C>,
    pub(crate) sleeper: Sleeper,
    pub(crate) number: u32,
}

/// The session of a reader thread: its connection, its place, and the number of its desk. It is one struct for the same
/// reason as [`Server`].
#[derive(Drop)]
pub(crate) struct Post<C> {
    pub(crate) connection: Arc<C>,
    pub(crate) at: usize,
    pub(crate) number: u32,
}

// Returns why a connection without a place is refused.
fn refusal_of(no_place: NoPlace) -> Refusal {
    match no_place {
        NoPlace::Full => Refusal::Full,
        NoPlace::TooMany => Refusal::Address,
    }
}

// Returns a connection for the session's opener and its two threads.
fn shared<C: Drop>(alloc: Global, connection: C) -> Option<(Arc<C>, Arc<C>, Arc<C>)> {
    let kept = Arc::new(alloc, connection).ok()?;
    let reads = Arc::try_clone(&kept).ok()?;
    let tells = Arc::try_clone(&kept).ok()?;
    Some((kept, reads, tells))
}

// Returns a parker for a notice thread, and its waker.
fn waker(alloc: Global) -> Option<(Parker, Unparker)> {
    let parker = Parker::new(alloc).ok()?;
    let unparker = parker.unparker().clone().ok()?;
    Some((parker, unparker))
}

impl<'s, E, S, C, R> Server<'s, E, S, C, R>
where
    S: Converses<C> + Sync + 's,
    C: Drop + Send + Sync + 's,
    R: Threads + Wait + Log + Clock + Sync + 's,
{
    /// Returns a copy for another thread. A derived `Clone` would require `Clone` of what this only refers to.
    pub fn again(&self) -> Server<'s, E, S, C, R> {
        let Server {
            scope,
            rt,
            alloc,
            state,
            quay,
            of: _,
        } = *self;
        Server {
            scope,
            rt,
            alloc,
            state,
            quay,
            of: PhantomData,
        }
    }

    /// Returns the number of sessions that count for the total.
    pub fn counted_sessions(&self) -> u32 {
        let shared = self.state.shared();
        if shared.limits.counts_players {
            shared.player_count()
        } else {
            shared.lobby.begun_count()
        }
    }

    /// Returns whether a connection of this address may be accepted: the address is not banned, and within its limit.
    /// Otherwise the connection is closed without a word.
    pub(crate) fn may_come(&self, address: IpAddr) -> bool {
        let (rt, control) = (self.rt, self.state.control());
        if control.is_banned(rt, address) {
            log_refusal(rt, &control.tally, address, Refusal::Banned);
            return false;
        }
        if !control.crowd.connect(rt, address, now(rt)) {
            log_refusal(rt, &control.tally, address, Refusal::Often);
            return false;
        }
        true
    }

    /// Takes the free place with the lowest number for a session of this address that is about to begin.
    pub(crate) fn admit(&self, address: IpAddr) -> Result<usize, NoPlace> {
        let shared = self.state.shared();
        if !shared.lobby.take_ticket(&shared.limits) {
            return Err(NoPlace::Full);
        }
        let place = self.state.take_place(self.rt, address);
        if let Err(no_place) = place {
            self.settle(false);
            let tally = &shared.control().tally;
            log_refusal(self.rt, tally, address, refusal_of(no_place));
        }
        place
    }

    // Settles the ticket of a session that has begun, or does not begin.
    pub(crate) fn settle(&self, has_begun: bool) {
        let shared = self.state.shared();
        shared.lobby.settle_ticket(&shared.limits, has_begun);
    }

    // Enters a session at the place, before it has a desk. The notice thread's waker is set then, so that it misses no
    // change. The last line of the session came at the time `heard`.
    fn enter(
        &self,
        at: usize,
        socket: Arc<Socket>,
        since_seconds: u64,
        told: u64,
        heard: Duration,
    ) -> Option<Begun<C>> {
        let theirs = Arc::try_clone(&socket).ok()?;
        let (kept, reads, tells) = shared(self.alloc, self.state.connection(socket, told))?;
        let (parker, unparker) = waker(self.alloc)?;
        let member = Member::new(unparker, theirs, since_seconds);
        let roster = &self.state.control().roster;
        let visit = roster.enter(self.rt, at, member, heard);
        Some(Begun {
            kept,
            reads,
            tells,
            sleeper: Sleeper { parker, at, visit },
            number: 0,
        })
    }

    // Gives the session at the place the number of its desk, and ends it if its address was banned while it began.
    fn number(&self, at: usize, begun: &mut Begun<C>, number: u32) {
        begun.number = number;
        self.state.control().roster.number(self.rt, at, number);
        self.dismiss_banned(&begun.kept);
    }

    /// Opens a session at the place. Everything that can fail without a desk comes first.
    pub(crate) fn open(&self, at: usize, socket: Arc<Socket>) -> Option<Begun<C>> {
        let told = self.state.control().news.count();
        let mut begun = self.enter(at, socket, unix_seconds(self.rt), told, now(self.rt))?;
        let number = self.state.start(self.rt, self.alloc, &*begun.kept, at)?;
        self.number(at, &mut begun, number);
        Some(begun)
    }

    // Ends a session whose address was banned while it began.
    fn dismiss_banned(&self, connection: &C) {
        let socket = self.state.socket(connection);
        if self.state.control().is_banned(self.rt, socket.peer().ip()) {
            socket.dismiss();
        }
    }

    // Runs the notice thread of a session.
    fn tell(&self, connection: &C, sleeper: &Sleeper) {
        tell_all(self.rt, self.state, connection, sleeper);
    }

    /// Starts the notice thread of a session. Returns whether it could be started.
    pub(crate) fn begin_telling(&self, tells: Arc<C>, sleeper: Sleeper) -> bool {
        let server = self.again();
        let telling = self.scope.spawn(move || server.tell(&tells, &sleeper));
        telling.is_ok()
    }

    /// Runs the reader thread of the session at a place, at the desk with this number, with this first input.
    pub(crate) fn read(&self, connection: &C, at: usize, number: u32, first: &[u8]) {
        read_all(self, connection, at, number, first);
    }

    // Takes a place for a session that rested, and opens it there.
    fn sit(
        &self,
        socket: &Arc<Socket>,
        client: RestingClient,
        told: u64,
        habits: &Habits,
    ) -> Option<(usize, Begun<C>)> {
        let theirs = Arc::try_clone(socket).ok()?;
        let at = self.state.take_free(self.rt, habits.peer.ip())?;
        match self.open_again(at, theirs, client, told, habits) {
            Some(begun) => Some((at, begun)),
            None => {
                self.state.release_place(self.rt, at);
                None
            }
        }
    }

    /// Seats a session that rested. No thread starts yet: nobody may speak before all sit, because a session hears
    /// nothing until it sits. Returns `None` if the session ends, because memory lacks.
    pub fn seat(&self, guest: Guest) -> Option<Seated<C>> {
        let Guest {
            socket,
            client,
            told,
            number,
            habits,
        } = guest;
        socket.end_rest();
        let Some((at, begun)) = self.sit(&socket, client, told, &habits) else {
            self.lose(&socket, number, &habits);
            return None;
        };
        let (volume, new) = (self.quay.volume, begun.number);
        if new != number {
            log_number(self.rt, new, number, volume);
        }
        Some(Seated { begun, at, habits })
    }

    // Ends a session that can't sit again.
    fn lose(&self, socket: &Socket, number: u32, habits: &Habits) {
        let (rt, peer) = (self.rt, habits.peer);
        socket.shut();
        if habits.pace.is_shared() {
            self.state.control().crowd.end(rt, peer.ip());
        }
        let parting = socket.part(rt, Parting::OutOfMemory);
        log_end(rt, number, peer, parting);
    }

    // Opens a session that rested at a place.
    fn open_again(
        &self,
        at: usize,
        socket: Arc<Socket>,
        client: RestingClient,
        told: u64,
        habits: &Habits,
    ) -> Option<Begun<C>> {
        let (rt, alloc) = (self.rt, self.alloc);
        let heard = habits.patience.last_line();
        let mut begun = self.enter(at, socket, habits.since_seconds, told, heard)?;
        let kept = &*begun.kept;
        let number = self.state.go_on(rt, alloc, kept, at, client, self.quay)?;
        self.number(at, &mut begun, number);
        Some(begun)
    }

    /// Starts the threads of a session that sits again.
    pub fn go_on(&self, seated: Seated<C>) {
        let Seated { begun, at, habits } = seated;
        let Begun {
            kept,
            reads,
            tells,
            sleeper,
            number,
        } = begun;
        let post = Post {
            connection: reads,
            at,
            number,
        };
        let goes_on = self.begin_telling(tells, sleeper) && self.begin_reading_on(post, habits);
        if !goes_on {
            leave(self.rt, self.state, &*kept, at);
        }
    }

    /// Ends a session that sits again and has no threads. Its desk is stored.
    pub fn unseat(&self, seated: Seated<C>) {
        let Seated { begun, at, habits } = seated;
        let Begun { kept, number, .. } = begun;
        self.lose(self.state.socket(&*kept), number, &habits);
        leave(self.rt, self.state, &*kept, at);
    }

    // Runs the reader thread of a session that sits again.
    fn read_again(&self, post: Post<C>, habits: Habits) {
        let Post {
            connection,
            at,
            number,
        } = post;
        read_on(self, &connection, at, number, habits);
    }

    // Starts the reader thread of a session that sits again. Returns whether it could be started.
    fn begin_reading_on(&self, post: Post<C>, habits: Habits) -> bool {
        let server = self.again();
        let reading = self.scope.spawn(move || server.read_again(post, habits));
        reading.is_ok()
    }

    // Runs the reader thread of a session.
    fn read_first(&self, post: Post<C>) {
        self.read(&post.connection, post.at, post.number, &[]);
    }

    /// Starts the reader thread of the session at a place, at the desk with this number. Returns whether it could be
    /// started.
    pub(crate) fn begin_reading(&self, connection: Arc<C>, at: usize, number: u32) -> bool {
        let server = self.again();
        let post = Post {
            connection,
            at,
            number,
        };
        let reading = self.scope.spawn(move || server.read_first(post));
        reading.is_ok()
    }
}
