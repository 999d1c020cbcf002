//! Decides when a server turns to its next volume.

ghost use Rattle.std.specs.Prelude.{◌≡◌, ◌≤◌, ◌<◌, ◌+◌, ◌*◌, false};
ghost use Rattle.mud_chron.specs.declared.limits.TheConstants.{MOST_DESKS};
ghost use Rattle.mud_server_volume.specs.Marks.{search_mark, turn_mark, last_mark, most_begun, has, decision};

use mud_chron::limits::MOST_DESKS;

/// The number of changes at which the search for a shorter history begins.
pub fn search_mark(capacity: usize) -> usize
    ensures { result ≡ search_mark capacity }
{
    capacity - capacity / 4
}

/// The number of changes from which the server turns once the search has ended.
pub fn turn_mark(capacity: usize) -> usize
    ensures { result ≡ turn_mark capacity }
{
    capacity - capacity / 8
}

/// The number of changes from which the server turns while the search runs, unless the world is known to be large.
/// Lines wait for that turn, but each session may just make one more change. For that there is room with a capacity of
/// 512 or more.
pub fn last_mark(capacity: usize) -> usize
    ensures mark { result ≡ last_mark capacity }
    ensures room { 8 * MOST_DESKS ≤ capacity → result + MOST_DESKS ≤ capacity }
{
    let room = (capacity / 16).max(MOST_DESKS as usize);
    turn_mark(capacity).max(capacity.saturating_sub(room))
}

/// The greatest number of changes with which a next volume begins: fewer than those at which a server turns by itself.
pub fn most_begun(capacity: usize) -> usize
    ensures most { result ≡ most_begun capacity }
    ensures fewer { 1 ≤ capacity → result < turn_mark capacity }
{
    capacity.saturating_sub((capacity / 4).max(1))
}

/// The number of further changes after which a turn is tried again.
pub fn retry_step(capacity: usize) -> usize
    ensures from { 1 ≤ result }
{
    (capacity / 64).max(1)
}

/// The numbers on which a turn depends: the capacity of a volume, the number of its changes, and the number below which
/// the server does not turn by itself. The flag is true if the host requested the next volume.
#[derive(Clone, Copy, Debug)]
pub struct Fill {
    pub capacity: usize,
    pub changes: usize,
    pub least: usize,
    pub is_requested: bool,
}

/// The progress of the search for a shorter history.
#[derive(Clone, Copy, Debug, PartialEq, Eq)]
pub enum Progress {
    /// None was started, or it found nothing.
    Idle,
    /// It runs.
    Runs,
    /// The next volume could begin with this many changes.
    Found(usize),
}

/// The next step of the server about its turn.
#[derive(Clone, Copy, Debug, PartialEq, Eq)]
pub enum Step {
    /// Nothing.
    Wait,
    /// It starts the search.
    Search,
    /// It turns.
    Turn,
    /// It drops what the search found, which is too long.
    Drop,
}

impl Fill {
    // Returns whether the volume has this many changes, and as many as it turns with by itself.
    fn has(self, mark: usize) -> bool
        ensures { result ≡ has self mark }
    {
        mark <= self.changes && self.least <= self.changes
    }

    /// Returns the next step about the turn. With a large world the server does not turn before the search has ended.
    /// Unless the host requested it, the server turns only with more changes than any volume begins with.
    pub fn step(self, progress: Progress, is_large: bool) -> Step
        ensures decides { result ≡ decision self progress is_large }
        ensures played { 1 ≤ self.capacity → self.is_requested ≡ false → result ≡ Step.Turn
            → most_begun self.capacity < self.changes }
    {
        match progress {
            Progress::Idle => {
                if self.is_requested || self.has(search_mark(self.capacity)) {
                    Step::Search
                } else {
                    Step::Wait
                }
            }
            Progress::Runs => {
                if !is_large && self.has(last_mark(self.capacity)) {
                    Step::Turn
                } else {
                    Step::Wait
                }
            }
            Progress::Found(begun) => {
                if !self.is_requested && !self.has(turn_mark(self.capacity)) {
                    Step::Wait
                } else if begun <= most_begun(self.capacity) {
                    Step::Turn
                } else {
                    Step::Drop
                }
            }
        }
    }
}
