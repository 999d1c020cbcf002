//! Lists derived from the records.

ghost use Rattle.std.specs.Prelude.{◌≡◌, IfOk, OnOk, OnErr};
ghost use Rattle.mud_index.specs.Rising.{insert, without};
ghost use Rattle.mud_world.specs.inner.Edits.{AreLinked, AreSameLinks, AreNone, IsInNone};

use crate::Kind;
use mud_index::Lists;
use std::alloc::{AllocError, Global};

// For each number: the objects inside it, the exits that leave it, and the exits that lead to it.
#[derive(Drop)]
pub(crate) struct Links {
    pub(crate) contents: Lists,
    pub(crate) leaving: Lists,
    pub(crate) arriving: Lists,
}

impl Links {
    pub(crate) fn new(alloc: Global) -> Links
        ensures { AreNone result }
    {
        Links {
            contents: Lists::new(alloc),
            leaving: Lists::new(alloc),
            arriving: Lists::new(alloc),
        }
    }

    // Inserts a new object of this kind into its lists. An error changes no list.
    pub(crate) fn link(&mut self, kind: Kind, number: u32) -> Result<(), AllocError>
        requires { IsInNone number self.old }
        ensures ok { OnOk result (AreLinked kind (insert number) self.old self.new) }
        ensures err { OnErr result (AreSameLinks self.old self.new) }
    {
        match kind {
            Kind::Room => Ok(()),
            Kind::Exit(passage) => {
                self.leaving.insert(passage.source, number)?;
                let done = self.arriving.insert(passage.destination, number);
                if done.is_err() {
                    self.leaving.remove(passage.source, number);
                }
                done
            }
            Kind::Thing { place } | Kind::Player { place } => self.contents.insert(place, number),
        }
    }

    // Removes an object of this kind from its lists.
    pub(crate) fn unlink(&mut self, kind: Kind, number: u32)
        ensures { AreLinked kind (without number) self.old self.new }
    {
        match kind {
            Kind::Room => {}
            Kind::Exit(passage) => {
                self.leaving.remove(passage.source, number);
                self.arriving.remove(passage.destination, number);
            }
            Kind::Thing { place } | Kind::Player { place } => self.contents.remove(place, number),
        }
    }

    // Returns an independent copy.
    pub(crate) fn copy(&self) -> Result<Links, AllocError>
        ensures { IfOk result (λ links. links ≡ self.now) }
    {
        Ok(Links {
            contents: self.contents.copy()?,
            leaving: self.leaving.copy()?,
            arriving: self.arriving.copy()?,
        })
    }
}
