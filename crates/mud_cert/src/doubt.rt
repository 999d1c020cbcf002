//! Doubts: the reasons why a certificate is not accepted.

use std::alloc::AllocError;
use thiserror::Error;

/// The reason why a certificate is not accepted. The checker tests member after member, with the tests of a member in
/// this order, and `Conclusion` last. The first doubt that holds is returned. Players and exits are named by their
/// object numbers.
#[derive(Clone, Copy, Debug, Error)]
pub enum Doubt {
    /// An allocation failed. It says nothing about the certificate.
    #[error("out of memory")]
    OutOfMemory,
    /// The member is not a player of the world, or repeats an earlier member.
    #[error("#{0} is no player, or a member already")]
    NoSuchPlayer(u32),
    /// The player is in another place.
    #[error("#{0} stands elsewhere")]
    WrongStart(u32),
    /// The player's room is not labelled 0, or an object that is not a room is labelled.
    #[error("the start of #{0} isn't labelled 0, or what is labelled is no room")]
    StartLabel(u32),
    /// This exit is the lowest that is open to the player, leaves a labelled room, and leads to a room without a label
    /// or with a label that is too great. A label is too great if it is above the label after the step.
    #[error("#{exit} breaks the labels of #{player}")]
    Arc { player: u32, exit: u32 },
    /// The exit at this place of the walk, counted from 1, is the first that does not leave the room where the walk has
    /// arrived.
    #[error("the walk of #{player} breaks at its exit {at}")]
    WalkBroken { player: u32, at: usize },
    /// The exit at this place of the walk, counted from 1, is the first that is not open to the player.
    #[error("the walk of #{player} is locked at its exit {at}")]
    WalkLocked { player: u32, at: usize },
    /// The label of the walk's last room differs from the walk's cost.
    #[error("the label at the walk's end of #{0} is another")]
    WalkCost(u32),
    /// The conclusion does not agree with the walks and the labels.
    #[error("the conclusion doesn't follow")]
    Conclusion,
}

impl From<AllocError> for Doubt {
    ghost use Rattle.std.specs.Prelude.{◌≡◌};
    ghost use Rattle.mud_cert.specs.declared.doubt.Doubt.TheVariants.{OutOfMemory};

    ghost from_gives = { λ _ e. e ≡ OutOfMemory };

    fn from(_e: AllocError) -> Doubt {
        Doubt::OutOfMemory
    }
}
