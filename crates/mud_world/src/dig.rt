//! Adds new objects, and digs rooms and exits.

ghost use Rattle.std.specs.Prelude.{◌≡◌, ◌+◌, ◌<◌, ◌≤◌, [], ◌∷◌, None, OnOk, OnErr, length};
ghost use Rattle.mud_world.specs.declared.limits.TheConstants.{NUMBERS};
ghost use Rattle.mud_world.specs.State.{State};
ghost use Rattle.mud_world.specs.Legal.{refusal, after, with_new, new_record, new_exit, new_exits};
ghost use Rattle.mud_world.specs.inner.CanGo.{CanAdd, CanJoin, IsGrown};

use crate::maps::{forget, grow};
use crate::world::World;
use crate::{Deed, Doors, Kind, Passage, Record, Target};
use mud_key::Names;
use std::alloc::AllocError;

impl World {
    // Adds an object under the next number.
    pub(crate) fn add(&mut self, object: Record) -> Result<(), AllocError>
        requires { CanAdd self.old object }
        ensures ok { OnOk result (self.new ≡ with_new self.old (object ∷ [])) }
        ensures err { OnErr result (self.new ≡ self.old) }
    {
        grow(
            &mut self.records,
            &mut self.links,
            &mut self.owners,
            self.next,
            object,
        )?;
        self.next += 1;
        Ok(())
    }

    // Adds a room. An error adds nothing.
    fn add_room(&mut self, actor: u32, names: &Names) -> Result<(), AllocError>
        requires { self.old.next < NUMBERS }
        ensures ok { OnOk result (self.new ≡ with_new self.old (new_record actor names.now Kind.Room ∷ [])) }
        ensures err { OnErr result (self.new ≡ self.old) }
    {
        let room = Record {
            names: names.copy()?,
            owner: actor,
            kind: Kind::Room,
            key: None,
        };
        self.add(room)
    }

    // Adds an exit. An error adds nothing.
    fn add_exit(
        &mut self,
        actor: u32,
        names: &Names,
        source: u32,
        destination: u32,
    ) -> Result<(), AllocError>
        requires join { CanJoin self.old source destination }
        requires room { self.old.next < NUMBERS }
        ensures ok { OnOk result (self.new ≡ with_new self.old (new_exit actor names.now source destination ∷ [])) }
        ensures err { OnErr result (self.new ≡ self.old) }
    {
        let exit = Record {
            names: names.copy()?,
            owner: actor,
            kind: Kind::Exit(Passage {
                source,
                destination,
                cost: 1,
            }),
            key: None,
        };
        self.add(exit)
    }

    // Removes the object that was added last.
    fn take_back(&mut self)
        requires { IsGrown self.old }
        ensures { (w : State) (r : Record) → self.old ≡ with_new w (r ∷ []) → self.new ≡ w }
    {
        let last = self.next - 1;
        forget(&mut self.records, &mut self.links, &mut self.askers, last);
        self.next = last;
    }

    // Adds the exits of a dig. An error adds nothing.
    fn add_doors(
        &mut self,
        actor: u32,
        here: u32,
        there: u32,
        doors: &Option<Doors>,
    ) -> Result<(), AllocError>
        requires join { CanJoin self.old here there }
        requires room { self.old.next + length (new_exits actor here there doors.now) ≤ NUMBERS }
        ensures ok { OnOk result (self.new ≡ with_new self.old (new_exits actor here there doors.now)) }
        ensures err { OnErr result (self.new ≡ self.old) }
    {
        // for the prover: the world is sound
        self.know_sound();
        match doors {
            None => Ok(()),
            Some(doors) => {
                self.add_exit(actor, &doors.out, here, there)?;
                match &doors.back {
                    None => Ok(()),
                    Some(back) => {
                        let done = self.add_exit(actor, back, there, here);
                        if done.is_err() {
                            self.take_back();
                        }
                        done
                    }
                }
            }
        }
    }

    // Adds the room if it is a new one, then the exit to it and the exit back. An error adds nothing.
    #[tactic(auto, unfolding(crate::specs::Legal::refusal))]
    pub(crate) fn dig(
        &mut self,
        actor: u32,
        target: &Target,
        doors: &Option<Doors>,
    ) -> Result<(), AllocError>
        requires { refusal self.old (record { actor = actor; deed = Deed.Dig target.now doors.now }) ≡ None }
        ensures ok { OnOk result (self.new
            ≡ after self.old (record { actor = actor; deed = Deed.Dig target.now doors.now })) }
        ensures err { OnErr result (self.new ≡ self.old) }
    {
        let here = self.place(actor).unwrap_or(0);
        let there = self.next_number();
        match target {
            Target::New(names) => {
                self.add_room(actor, names)?;
                let done = self.add_doors(actor, here, there, doors);
                if done.is_err() {
                    self.take_back();
                }
                done
            }
            Target::Old(room) => self.add_doors(actor, here, *room, doors),
        }
    }
}
