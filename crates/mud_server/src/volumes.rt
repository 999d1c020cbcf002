//! A server that keeps its history on a disk, volume by volume.

ghost use Rattle.std.specs.Prelude.{◌≡◌, ◌⊎◌, ◌≤◌, ◌<◌, ℕ, ◌∷◌, length, take, is_some, IfOk, IfErr, IfNone, OnOk};
ghost use Rattle.std.specs.Prelude.{OnErr};
ghost use Rattle.std.specs.Option.{option_map};
ghost use Rattle.std.specs.Io.KnownBytes.{Appends};
ghost use Rattle.mud_io.specs.Streams.{Writer};
ghost use Rattle.mud_world.specs.declared.limits.TheConstants.{MOST_ENTRIES};
ghost use Rattle.mud_chron.specs.declared.limits.TheConstants.{MOST_DESKS};
ghost use Rattle.mud_chron.specs.declared.format.Format.TheVariants.{Two};
ghost use Rattle.mud_chron.specs.Replay.{changes_of, AreLegal};
ghost use Rattle.mud_chron.specs.Text.{history_text, journal_text};
ghost use Rattle.mud_journal.specs.Disk.{Holds};
ghost use Rattle.mud_shelf.specs.Volume.{durable};
ghost use Rattle.mud_search.specs.declared.limits.TheConstants.{MOST_WORKERS};
ghost use Rattle.mud_server_end.specs.Server.{MayEnd, IsServerFault, IsInnerFault};
ghost use Rattle.mud_server.specs.MayBegin.{MayBegin};
ghost use Rattle.mud_server.specs.Volumes.{MayLast, SettlesVolumes, SettlesVolumesInPart, FinishesFirst, MatchLast};
ghost use Rattle.mud_server.specs.inner.Passed.{MatchOutcome, MatchTurned};
ghost use Rattle.mud_server.specs.inner.Between.{IsReady, MayTurn, MayStop, MayClose, WritesLast, WritesLastInPart};
ghost use Rattle.mud_server.specs.inner.Between.{IsLateFault};

use crate::beginning::{Next, NoNext, Volumes, beginning_of, make_next};
use log::{Log, warn};
use mud_chron::Entry;
use mud_control::{Hosting, Tally};
use mud_hall::{LoadFault, NewHall};
use mud_io::Sink;
use mud_journal::{Disk, Found, Journal, JournalFault, Nameless};
use mud_listeners::Doors;
use mud_server_accept::serve_volume;
use mud_server_end::{ServerFault, write_entries, write_ports};
use mud_server_session::Came;
use mud_server_state::Limits;
use mud_server_volume::marks::retry_step;
use mud_server_volume::{
    Beginning, Company, Ended, Proposal, Served, Terms, Turning, copies, count_objects,
    is_well_ended, new_company, part_all, ports_of, resume_hall, tell_large,
};
use mud_shelf::{Shelf, Volume};
use std::alloc::Global;
use std::io::Write;
use std::sync::Wait;
use std::thread::Threads;
use std::time::{Clock, Duration};

// The values with which a server goes on to a volume: what outlives the one before it, and the beginning.
struct Going<D: Disk + Drop> {
    company: Company,
    beginning: Beginning<D>,
}

// A volume that came to rest: its number, its entries and journal, and the time at which its sessions began to rest.
#[derive(Drop)]
struct Rested<D: Disk + Drop> {
    volume: u32,
    entries: Vec<Entry>,
    journal: Journal<Nameless, D>,
    since: Duration,
}

// The values with which a server turns: what outlives the volume, the volume, and a proposal for the next one.
struct Resting<D: Disk + Drop> {
    company: Company,
    rested: Rested<D>,
    proposal: Option<Proposal>,
}

// The result of a volume: the server ends with it, or turns.
enum Outcome<E, T> {
    Ends(E),
    Turns(T),
}

// The result of a turn: the next volume begins, or the turn was called off, and the same volume goes on.
enum Turned<N, S> {
    Next(N),
    Same(S),
}

// Returns the hall of a volume that begins or goes on after a turn. Its entries are legal and few enough, so the hall
// takes them unless memory lacks, or its history takes no entry.
fn hall_of(alloc: Global, capacity: u32, entries: Vec<Entry>) -> Result<NewHall, ServerFault>
    requires from { 1 ≤ capacity }
    requires to { capacity ≤ MOST_ENTRIES }
    requires legal { AreLegal (changes_of entries.items) }
    requires few { length entries.items ≤ capacity }
    ensures loaded { IfOk result (λ hall. hall.loaded ≡ entries.items) }
    ensures fault { IfErr result IsInnerFault }
{
    match NewHall::resume(alloc, capacity, entries) {
        Ok(hall) => Ok(hall),
        Err(LoadFault::OutOfMemory) => Err(ServerFault::OutOfMemory),
        Err(LoadFault::NotStored) => Err(ServerFault::Journal(JournalFault::Mismatch)),
        Err(LoadFault::BadChange(_)) => unreachable!(),
        Err(LoadFault::OverCapacity) => unreachable!(),
    }
}

// Returns the beginning of the next volume.
fn begin_next<D: Disk + Drop>(
    alloc: Global,
    capacity: u32,
    next: Next<D>,
    volume: u32,
    came: Came,
) -> Result<Beginning<D>, ServerFault>
    requires from { 1 ≤ capacity }
    requires to { capacity ≤ MOST_ENTRIES }
    requires legal { AreLegal (changes_of next.begun.items) }
    requires few { length next.begun.items ≤ capacity }
    requires ready { IsReady (D.kept next.journal.disk) next.journal.count next.journal.has_failed next.begun.items }
    ensures loaded { IfOk result (λ b. b.hall.loaded ≡ next.begun.items) }
    ensures ready { IfOk result (λ b. IsReady (D.kept b.journal.disk) b.journal.count b.journal.has_failed
        b.hall.loaded) }
    ensures fault { IfErr result IsInnerFault }
{
    let Next { journal, begun } = next;
    let turning = Turning::new(volume, copies(alloc, &begun)?, 0, false);
    Ok(Beginning {
        hall: hall_of(alloc, capacity, begun)?,
        journal,
        volume,
        came: Some(came),
        turning,
    })
}

// Returns the beginning of the same volume after its turn was called off for this reason. The turn is tried again after
// some more changes.
fn begin_again<D: Disk + Drop>(
    alloc: Global,
    capacity: u32,
    rested: Rested<D>,
    why: NoNext,
) -> Result<Beginning<D>, ServerFault>
    requires from { 1 ≤ capacity }
    requires to { capacity ≤ MOST_ENTRIES }
    requires legal { AreLegal (changes_of rested.entries.items) }
    requires few { length rested.entries.items ≤ capacity }
    requires ready { IsReady (D.kept rested.journal.disk) rested.journal.count rested.journal.has_failed
        rested.entries.items }
    ensures loaded { IfOk result (λ b. b.hall.loaded ≡ rested.entries.items) }
    ensures ready { IfOk result (λ b. IsReady (D.kept b.journal.disk) b.journal.count b.journal.has_failed
        b.hall.loaded) }
    ensures fault { IfErr result IsInnerFault }
{
    let Rested {
        volume,
        entries,
        journal,
        since,
    } = rested;
    let least = entries.len().saturating_add(retry_step(capacity as usize));
    let is_large = matches!(why, NoNext::Large(_));
    let turning = Turning::new(volume, copies(alloc, &entries)?, least, is_large);
    Ok(Beginning {
        hall: hall_of(alloc, capacity, entries)?,
        journal,
        volume,
        came: Some(Came {
            changes: None,
            since,
        }),
        turning,
    })
}

// Makes the volume after one that came to rest.
fn next_of<S: Shelf, D: Disk + Drop, R: Log>(
    rt: &R,
    alloc: Global,
    volumes: &mut Volumes<'_, S>,
    capacity: u32,
    rested: &Rested<D>,
    proposal: Option<Proposal>,
) -> Result<Next<Volume<S::Draft>>, NoNext>
    ensures begins { IfOk result (λ n. MayBegin rested.now.entries.items n.begun.items) }
    ensures few { IfOk result (λ n. length n.begun.items ≤ capacity) }
    ensures finished { S.finished volumes.new.shelf ≡ S.finished volumes.old.shelf }
    ensures ready { IfOk result (λ n. IsReady (option_map durable (S.Draft.stage n.journal.disk.draft))
        n.journal.count n.journal.has_failed n.begun.items) }
{
    let volume = rested.volume;
    let begun = beginning_of(alloc, capacity, &rested.entries, proposal);
    if let Err(NoNext::CalledOff) = &begun {
        warn!(rt; "no-turn volume={volume} why=\"out of memory\"");
    }
    make_next(rt, alloc, volumes, volume, begun?)
}

// Turns from a volume that came to rest, if it can. Otherwise the same volume goes on, with all of its entries.
fn turn_from<S: Shelf, D: Disk + Drop, R: Wait + Log>(
    rt: &R,
    alloc: Global,
    volumes: &mut Volumes<'_, S>,
    terms: Terms<'_>,
    resting: Resting<D>,
) -> Result<Turned<Going<Volume<S::Draft>>, Going<D>>, ServerFault>
    requires from { 1 ≤ terms.limits.capacity }
    requires to { terms.limits.capacity ≤ MOST_ENTRIES }
    requires legal { AreLegal (changes_of resting.rested.entries.items) }
    requires few { length resting.rested.entries.items ≤ terms.limits.capacity }
    requires ready { IsReady (D.kept resting.rested.journal.disk) resting.rested.journal.count
        resting.rested.journal.has_failed resting.rested.entries.items }
    ensures turned { IfOk result (MatchTurned
        (λ next. MayBegin resting.rested.entries.items next.beginning.hall.loaded
        × IsReady (option_map durable (S.Draft.stage next.beginning.journal.disk.draft))
        next.beginning.journal.count next.beginning.journal.has_failed next.beginning.hall.loaded
        × (S.finished volumes.new.shelf
        ≡ option_map (λ files. D.kept resting.rested.journal.disk ∷ files) (S.finished volumes.old.shelf)))
        (λ same. (same.beginning.hall.loaded ≡ resting.rested.entries.items)
        × IsReady (D.kept same.beginning.journal.disk) same.beginning.journal.count
        same.beginning.journal.has_failed same.beginning.hall.loaded
        × (S.finished volumes.new.shelf ≡ S.finished volumes.old.shelf))) }
    ensures stopped { OnErr result ((S.finished volumes.new.shelf ≡ S.finished volumes.old.shelf)
        ⊎ (S.finished volumes.new.shelf
        ≡ option_map (λ files. D.kept resting.rested.journal.disk ∷ files) (S.finished volumes.old.shelf))) }
    ensures fault { IfErr result IsInnerFault }
{
    let Resting {
        company,
        rested,
        proposal,
    } = resting;
    let (capacity, volume) = (terms.limits.capacity, rested.volume);
    match next_of(rt, alloc, volumes, capacity, &rested, proposal) {
        Ok(next) => {
            let Rested {
                entries,
                journal,
                since,
                ..
            } = rested;
            volumes.shelf.finish(journal);
            let came = Came {
                changes: Some(entries.len()),
                since,
            };
            let number = volume.saturating_add(1);
            let beginning = begin_next(alloc, capacity, next, number, came)?;
            Ok(Turned::Next(Going { company, beginning }))
        }
        Err(NoNext::Unknown) => {
            terms.control.tally.note_failure();
            part_all(rt, company.guests);
            Err(ServerFault::Journal(JournalFault::Disk))
        }
        Err(why) => {
            if let NoNext::Large(taken) = why {
                let (tally, most) = (&terms.control.tally, capacity as usize);
                tell_large(rt, tally, volume, taken, most, true);
            }
            let beginning = begin_again(alloc, capacity, rested, why)?;
            Ok(Turned::Same(Going { company, beginning }))
        }
    }
}

// Serves a volume until the server ends or turns.
fn serve_once<D: Disk + Drop + Send, R: Threads + Wait + Log + Clock + Sync>(
    rt: &R,
    alloc: Global,
    terms: Terms<'_>,
    going: Going<D>,
) -> Result<Outcome<Ended<D>, Resting<D>>, ServerFault>
    requires workers { terms.limits.workers ≤ MOST_WORKERS }
    requires capacity { terms.limits.capacity ≤ MOST_ENTRIES }
    requires ready { IsReady (D.kept going.beginning.journal.disk) going.beginning.journal.count
        going.beginning.journal.has_failed going.beginning.hall.loaded }
    ensures served { IfOk result (MatchOutcome
        (λ e. MayEnd terms.entry.limits going.beginning.hall.loaded e.history
        × Holds (D.kept e.journal.disk) e.history)
        (λ r. MayEnd terms.entry.limits going.beginning.hall.loaded r.rested.entries.items
        × IsReady (D.kept r.rested.journal.disk) r.rested.journal.count r.rested.journal.has_failed
        r.rested.entries.items)) }
    ensures fault { IfErr result IsInnerFault }
{
    let Going { company, beginning } = going;
    let volume = beginning.volume;
    let mut ended = serve_volume(rt, alloc, company, beginning, terms)?;
    let Served::Turns(since) = ended.served else {
        return Ok(Outcome::Ends(ended));
    };
    let entries = ended.history.entries(alloc)?;
    let Ended {
        company,
        journal,
        proposal,
        ..
    } = ended;
    let rested = Rested {
        volume,
        entries,
        journal,
        since,
    };
    Ok(Outcome::Turns(Resting {
        company,
        rested,
        proposal,
    }))
}

// Serves a volume, and again after each turn that is called off, until the server ends or the next volume begins.
fn serve_until_turn<S: Shelf, D: Disk + Drop + Send, R: Threads + Wait + Log + Clock + Sync>(
    rt: &R,
    alloc: Global,
    volumes: &mut Volumes<'_, S>,
    terms: Terms<'_>,
    going: Going<D>,
) -> Result<Outcome<Ended<D>, Going<Volume<S::Draft>>>, ServerFault>
    requires workers { terms.limits.workers ≤ MOST_WORKERS }
    requires from { 1 ≤ terms.limits.capacity }
    requires to { terms.limits.capacity ≤ MOST_ENTRIES }
    requires ready { IsReady (D.kept going.beginning.journal.disk) going.beginning.journal.count
        going.beginning.journal.has_failed going.beginning.hall.loaded }
    ensures served { IfOk result (MatchOutcome
        (λ e. MayLast terms.entry.limits going.beginning.hall.loaded e.history
        × Holds (D.kept e.journal.disk) e.history
        × (S.finished volumes.new.shelf ≡ S.finished volumes.old.shelf))
        (λ next. MayTurn terms.entry.limits going.beginning.hall.loaded next.beginning.hall.loaded
        (S.finished volumes.old.shelf) (S.finished volumes.new.shelf)
        × IsReady (option_map durable (S.Draft.stage next.beginning.journal.disk.draft))
        next.beginning.journal.count next.beginning.journal.has_failed next.beginning.hall.loaded)) }
    ensures stopped { OnErr result (MayStop terms.entry.limits going.beginning.hall.loaded
        (S.finished volumes.old.shelf) (S.finished volumes.new.shelf)) }
    ensures fault { IfErr result IsInnerFault }
{
    let mut going = going;
    for _ in rt.forever() {
        let resting = match serve_once(rt, alloc, terms, going)? {
            Outcome::Ends(ended) => return Ok(Outcome::Ends(ended)),
            Outcome::Turns(resting) => resting,
        };
        match turn_from(rt, alloc, volumes, terms, resting)? {
            Turned::Next(next) => return Ok(Outcome::Turns(next)),
            Turned::Same(same) => going = same,
        }
    }
    unreachable!()
}

// Serves a volume after the first one, and all that follow.
fn serve_later<S: Shelf, R: Threads + Wait + Log + Clock + Sync>(
    rt: &R,
    alloc: Global,
    volumes: &mut Volumes<'_, S>,
    terms: Terms<'_>,
    going: Going<Volume<S::Draft>>,
) -> Result<Ended<Volume<S::Draft>>, ServerFault>
    requires workers { terms.limits.workers ≤ MOST_WORKERS }
    requires from { 1 ≤ terms.limits.capacity }
    requires to { terms.limits.capacity ≤ MOST_ENTRIES }
    requires ready { IsReady (option_map durable (S.Draft.stage going.beginning.journal.disk.draft))
        going.beginning.journal.count going.beginning.journal.has_failed going.beginning.hall.loaded }
    ensures closes { IfOk result (λ e. MayClose terms.entry.limits going.beginning.hall.loaded
        (S.finished volumes.old.shelf) (S.finished volumes.new.shelf)
        (option_map durable (S.Draft.stage e.journal.disk.draft)) e.history) }
    ensures stopped { OnErr result (FinishesFirst terms.entry.limits going.beginning.hall.loaded
        (S.finished volumes.old.shelf) (S.finished volumes.new.shelf)) }
    ensures fault { IfErr result IsInnerFault }
{
    let mut going = going;
    for _ in rt.forever() {
        match serve_until_turn(rt, alloc, volumes, terms, going)? {
            Outcome::Ends(ended) => return Ok(ended),
            Outcome::Turns(next) => going = next,
        }
    }
    unreachable!()
}

// Writes the history of the last volume, and returns its journal.
fn finish<D: Disk + Drop, W: Write>(
    alloc: Global,
    ended: Ended<D>,
    terms: Terms<'_>,
    out: &mut Sink<W>,
) -> Result<Journal<Nameless, D>, ServerFault>
    ensures journal { IfOk result (λ j. j ≡ ended.journal) }
    ensures ok { OnOk result (Appends out.old.holds out.new.holds (history_text Two ended.history)) }
    ensures front { OnErr result ((n : ℕ) × Appends out.old.holds out.new.holds
        (take n (history_text Two ended.history))) }
    ensures fault { IfErr result (IsLateFault out.new) }
    ensures total { OnOk result (IfNone terms.entry.stop (0 < terms.entry.limits.total)) }
{
    let (mut history, journal, served) = ended.into_parts();
    write_entries(alloc, out, &mut history)?;
    if is_well_ended(served == Served::All, terms.stop, terms.limits.total) {
        Ok(journal)
    } else {
        Err(ServerFault::Accept)
    }
}

// Serves the first volume and all that follow, and writes the history of the last one.
fn serve_volumes<S: Shelf, D: Disk + Drop + Send, R: Threads + Wait + Log + Clock + Sync, W: Write>(
    rt: &R,
    alloc: Global,
    volumes: &mut Volumes<'_, S>,
    terms: Terms<'_>,
    first: Going<D>,
    out: &mut Sink<W>,
) -> Result<LastJournal<Journal<Nameless, D>, Journal<Nameless, Volume<S::Draft>>>, ServerFault>
    requires workers { terms.limits.workers ≤ MOST_WORKERS }
    requires from { 1 ≤ terms.limits.capacity }
    requires to { terms.limits.capacity ≤ MOST_ENTRIES }
    requires ready { IsReady (D.kept first.beginning.journal.disk) first.beginning.journal.count
        first.beginning.journal.has_failed first.beginning.hall.loaded }
    ensures ok { IfOk result (λ journal.
        (w : WritesLast terms.entry.limits first.beginning.hall.loaded (S.finished volumes.old.shelf)
        (S.finished volumes.new.shelf) out.old.holds out.new.holds)
        × MatchLast (λ f. Holds (D.kept f.disk) w.last.ended)
        (λ l. Holds (option_map durable (S.Draft.stage l.disk.draft)) w.last.ended) journal) }
    ensures front { OnErr result (WritesLastInPart terms.entry.limits first.beginning.hall.loaded
        (S.finished volumes.old.shelf) (S.finished volumes.new.shelf) out.old.holds out.new.holds) }
    ensures fault { IfErr result (IsLateFault out.new) }
    ensures total { OnOk result (IfNone terms.entry.stop (0 < terms.entry.limits.total)) }
{
    match serve_until_turn(rt, alloc, volumes, terms, first)? {
        Outcome::Ends(ended) => Ok(LastJournal::First(finish(alloc, ended, terms, out)?)),
        Outcome::Turns(next) => {
            let ended = serve_later(rt, alloc, volumes, terms, next)?;
            Ok(LastJournal::Later(finish(alloc, ended, terms, out)?))
        }
    }
}

/// The volume with which a server begins: its number, the journal that was found in it, and the entries that the world
/// continues. The first of the entries were found in the journal.
#[derive(Drop)]
pub struct FirstVolume<D> {
    pub number: u32,
    pub found: Found<D>,
    pub loaded: Vec<Entry>,
}

// Returns the beginning of the first volume. Its journal is rewritten with all loaded entries.
fn begin_first<D: Disk + Drop>(
    alloc: Global,
    capacity: u32,
    first: FirstVolume<D>,
    tally: &Tally,
) -> Result<Beginning<D>, ServerFault>
    requires from { 1 ≤ capacity }
    requires to { capacity ≤ MOST_ENTRIES }
    requires found { first.found.text.items ≡ journal_text Two (take first.found.count first.loaded.items) }
    requires within { first.found.count ≤ length first.loaded.items }
    ensures loaded { IfOk result (λ b. b.hall.loaded ≡ first.loaded.items) }
    ensures ready { IfOk result (λ b. IsReady (D.kept b.journal.disk) b.journal.count b.journal.has_failed
        b.hall.loaded) }
    ensures fault { IfErr result (λ f. (writer : Writer) → IsServerFault capacity first.loaded.items
        writer writer f) }
{
    let FirstVolume {
        number,
        found,
        loaded,
    } = first;
    let more = copies(alloc, &loaded[found.len()..])?;
    let turning = Turning::new(number, copies(alloc, &loaded)?, 0, false);
    count_objects(tally, &loaded);
    let hall = resume_hall(alloc, capacity, loaded)?;
    let journal = found.begin(alloc, &more)?;
    Ok(Beginning {
        hall,
        journal,
        volume: number,
        came: None,
        turning,
    })
}

/// The journal of the last volume of a server: that of the first volume, or of a later one.
#[derive(Drop)]
pub enum LastJournal<F, L> {
    First(F),
    Later(L),
}

/// Serves like `listen_on` of `mud_server_accept`, and keeps the history in volumes on a disk while it runs. The first
/// volume is rewritten with all loaded entries before the ports are named. By its type, a text that names a version
/// waits for its sync.
///
/// When a volume is nearly full, or the host requests it, the server turns to the next one. That begins with a shorter
/// history of the same world. All sessions rest, sit down in the next hall, and go on there. The result is the journal
/// of the last volume, which has the whole history that is written. The folder has the files of all earlier volumes,
/// which had their whole histories when they were finished.
///
/// `Load` comes before anything is written, also to the journal. After `Open` the volume has its old contents, or all
/// loaded entries. After `Journal` all sessions have ended. After any error no volume was finished, or exactly the
/// first ones of such a server were, and each is whole.
pub fn listen_volumes<S: Shelf, R: Threads + Wait + Log + Clock + Sync + AllocGlobal, W: Write>(
    rt: &R,
    volumes: &mut Volumes<'_, S>,
    doors: Doors,
    limits: Limits,
    first: FirstVolume<S::Disk>,
    hosting: Hosting<'_>,
    out: &mut Sink<W>,
) -> Result<
    LastJournal<Journal<Nameless, S::Disk>, Journal<Nameless, Volume<S::Draft>>>,
    ServerFault,
>
    requires sessions { limits.sessions ≤ MOST_DESKS }
    requires workers { limits.workers ≤ MOST_WORKERS }
    requires from { 1 ≤ limits.capacity }
    requires to { limits.capacity ≤ MOST_ENTRIES }
    requires found { first.found.text.items ≡ journal_text Two (take first.found.count first.loaded.items) }
    requires within { first.found.count ≤ length first.loaded.items }
    ensures ok { IfOk result (λ journal.
        (s : SettlesVolumes limits (is_some doors.web) first.loaded.items (S.finished volumes.old.shelf)
        (S.finished volumes.new.shelf) out.old.holds out.new.holds)
        × MatchLast (λ f. Holds (S.Disk.kept f.disk) s.last.ended)
        (λ l. Holds (option_map durable (S.Draft.stage l.disk.draft)) s.last.ended) journal) }
    ensures front { OnErr result (SettlesVolumesInPart limits (is_some doors.web) first.loaded.items
        (S.finished volumes.old.shelf) (S.finished volumes.new.shelf) out.old.holds out.new.holds) }
    ensures fault { IfErr result (IsServerFault limits.capacity first.loaded.items out.old out.new) }
    ensures total { OnOk result (IfNone hosting.entry.stop (0 < limits.total)) }
{
    let alloc = rt.alloc();
    let Hosting { stop, control } = hosting;
    let ports = ports_of(&doors)?;
    let beginning = begin_first(alloc, limits.capacity, first, &control.tally)?;
    write_ports(alloc, out, ports)?;
    let company = new_company(alloc, doors)?;
    let terms = Terms {
        limits,
        stop,
        control,
    };
    let going = Going { company, beginning };
    serve_volumes(rt, alloc, volumes, terms, going, out)
}
