//! Refusals of lines and of changes.

ghost use Rattle.std.specs.Prelude.{◌≡◌};
ghost use Rattle.mud_world.specs.Refusals.{number, lesser, refused_if};

use thiserror::Error;

/// The reason why a line or a change is refused. If several conditions hold, the refusal with the least number is given
/// (this project's profile; the names are those of the LambdaMOO error values where it has them). `NotUnderstood`,
/// `Ambiguous` and `PartyBad` refuse only lines, never changes.
#[derive(Clone, Copy, Debug, PartialEq, Eq, Error)]
pub enum Refusal {
    /// The line is not a command.
    #[error("not understood")]
    NotUnderstood,
    /// An object does not exist.
    #[error("no such object")]
    NoSuch,
    /// A text names several objects.
    #[error("ambiguous")]
    Ambiguous,
    /// An object has the wrong kind for the change.
    #[error("wrong kind of object")]
    WrongKind,
    /// An object is out of reach, or is already there.
    #[error("not here")]
    NotHere,
    /// The actor does not own the object, and is not #1.
    #[error("not the owner")]
    Denied,
    /// A text is not a names text, or is not a valid speech.
    #[error("text not allowed")]
    BadName,
    /// Another player has the name.
    #[error("name taken")]
    NameTaken,
    /// A text is not a key, or the key names an object that does not exist.
    #[error("key not understood")]
    BadKey,
    /// A key of the world would nest deeper than 3.
    #[error("key nests too deep")]
    KeyNesting,
    /// The cost is above 10,000.
    #[error("cost not allowed")]
    BadCost,
    /// A thing would be inside itself.
    #[error("recursive move")]
    RecursiveMove,
    /// The exit is locked for the actor.
    #[error("exit locked")]
    LockedExit,
    /// The destination is locked for the player or thing that goes there.
    #[error("room locked")]
    LockedRoom,
    /// The thing is locked for the destination.
    #[error("thing locked")]
    LockedThing,
    /// The object is #0, contains something, or is an end of an exit.
    #[error("in use")]
    InUse,
    /// A number would exceed 8,191.
    #[error("world full")]
    WorldFull,
    /// A meeting does not have 2 to 8 players, or names one twice.
    #[error("party not allowed")]
    PartyBad,
}

impl Refusal {
    /// Returns the number of the refusal, 1 to 18.
    pub fn number(self) -> u32
        ensures { result ≡ number self }
    {
        match self {
            Refusal::NotUnderstood => 1,
            Refusal::NoSuch => 2,
            Refusal::Ambiguous => 3,
            Refusal::WrongKind => 4,
            Refusal::NotHere => 5,
            Refusal::Denied => 6,
            Refusal::BadName => 7,
            Refusal::NameTaken => 8,
            Refusal::BadKey => 9,
            Refusal::KeyNesting => 10,
            Refusal::BadCost => 11,
            Refusal::RecursiveMove => 12,
            Refusal::LockedExit => 13,
            Refusal::LockedRoom => 14,
            Refusal::LockedThing => 15,
            Refusal::InUse => 16,
            Refusal::WorldFull => 17,
            Refusal::PartyBad => 18,
        }
    }
}

/// Returns the refusal with the lower number, if there is one: the one that counts if both conditions hold.
pub fn lesser(first: Option<Refusal>, second: Option<Refusal>) -> Option<Refusal>
    ensures { result ≡ lesser first second }
{
    match (first, second) {
        (None, _) => second,
        (Some(_), None) => first,
        (Some(own), Some(other)) => {
            if other.number() < own.number() {
                second
            } else {
                first
            }
        }
    }
}

/// Returns the refusal if its condition holds.
pub fn refused_if(holds: bool, refusal: Refusal) -> Option<Refusal>
    ensures { result ≡ refused_if holds refusal }
{
    if holds { Some(refusal) } else { None }
}
