//! The next volume as a disk: to replace its contents is to publish it.

ghost use Rattle.std.specs.Prelude.{◌≡◌, Option, Some, OnOk, option_map, true};
ghost use Rattle.mud_shelf.specs.Draft.{IsFresh, IsPublished, IsNoneOrAll, Elapses};
ghost use Rattle.mud_shelf.specs.Volume.{durable, is_at};
ghost use Rattle.mud_shelf.specs.Lefts.{left_as_disk};

use crate::draft::Draft;
use crate::publishing::{PublishFault, publish};
use crate::standing::Standing;
use mud_journal::{Appends, Disk, DiskFault};

/// The next volume of a journal, a file that this process created. It is published once, by [`Disk::replace`], and then
/// only grows.
#[derive(Drop)]
pub struct Volume<N: Draft> {
    draft: N,
    standing: Standing,
    ghost stands: { is_at (N.stage draft) standing ≡ true },
}

impl<N: Draft> Volume<N> {
    /// Returns the volume that this file is to be. Nothing was written to the file.
    pub fn new(draft: N) -> Volume<N>
        requires { IsFresh (N.stage draft) }
        ensures draft { result.draft ≡ draft }
        ensures standing { result.standing ≡ Standing.Fresh }
    {
        Volume {
            draft,
            standing: Standing::Fresh,
        }
    }

    // Publishes the volume with these bytes.
    fn publish(&mut self, bytes: &[u8]) -> Result<(), DiskFault>
        requires { self.old.standing ≡ Standing.Fresh }
        ensures published { OnOk result (IsPublished (N.stage self.new.draft) bytes.now) }
        ensures crash { Elapses (N.moment self.old.draft) (N.moment self.new.draft)
            (N.left_since self.old.draft) (N.left_since self.new.draft) (IsNoneOrAll N.tears bytes.now) }
    {
        match publish(&mut self.draft, bytes) {
            Ok(()) => {
                self.standing = Standing::Begun;
                Ok(())
            }
            Err(PublishFault::CalledOff(fault)) => {
                self.standing = Standing::CalledOff;
                Err(fault)
            }
            Err(PublishFault::Unknown(fault)) => {
                self.standing = Standing::Unknown;
                Err(fault)
            }
        }
    }

    /// Returns how far it has come.
    pub fn standing(&self) -> Standing
        ensures { result ≡ self.now.standing }
    {
        self.standing
    }
}

/// Before the volume is published, its file may not grow.
impl<N: Draft> Appends for Volume<N> {
    ghost kept = { λ v. option_map durable (N.stage v.draft) };

    ghost tears = { N.tears };

    ghost moment = { λ v. N.moment v.draft };

    ghost left_since = { λ v moment bytes. N.left_since v.draft moment (Some bytes) };

    ghost left = { λ v bytes since. left_as_disk N.tears (N.stage v.draft) bytes (N.left v.draft (Some bytes) since) };

    fn append(&mut self, bytes: &[u8]) -> Result<(), DiskFault> {
        match self.standing {
            Standing::Begun => self.draft.append(bytes),
            _ => Err(DiskFault::Failed),
        }
    }

    fn sync(&mut self) -> Result<(), DiskFault> {
        match self.standing {
            Standing::Begun => self.draft.sync(),
            _ => Err(DiskFault::Failed),
        }
    }
}

impl<N: Draft> Disk for Volume<N> {
    fn replace(&mut self, bytes: &[u8]) -> Result<(), DiskFault> {
        match self.standing {
            Standing::Fresh => self.publish(bytes),
            _ => Err(DiskFault::Failed),
        }
    }
}
