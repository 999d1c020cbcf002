//! Applies changes to a world.

ghost use Rattle.std.specs.Prelude.{◌≡◌, None, OnOk, OnErr};
ghost use Rattle.mud_world.specs.Sound.{IsSound};
ghost use Rattle.mud_world.specs.Legal.{refusal, after};
ghost use Rattle.mud_world.specs.inner.Fields.{with_place, with_key, with_names};
ghost use Rattle.mud_world.specs.inner.CanGo.{CanGo, CanKey, CanName};

use crate::maps::{forget, rekey, relocate_in, rename_in, unkey};
use crate::slots::Edit;
use crate::world::World;
use crate::{Change, Deed, Kind, Record};
use mud_key::{Key, Name, Names};
use std::alloc::AllocError;

impl World {
    // Moves an object to another place.
    fn relocate(&mut self, object: u32, from: u32, to: u32) -> Result<(), AllocError>
        requires { CanGo self.old object from to }
        ensures ok { OnOk result (self.new ≡ with_place self.old object to) }
        ensures err { OnErr result (self.new ≡ self.old) }
    {
        relocate_in(
            &mut self.records,
            &mut self.links.contents,
            object,
            from,
            to,
        )
    }

    // Moves the actor to the exit's destination.
    #[tactic(auto, unfolding(crate::specs::Legal::refusal))]
    fn walk(&mut self, actor: u32, exit: u32) -> Result<(), AllocError>
        requires { refusal self.old (record { actor = actor; deed = Deed.Walk exit }) ≡ None }
        ensures ok { OnOk result (self.new ≡ after self.old (record { actor = actor; deed = Deed.Walk exit })) }
        ensures err { OnErr result (self.new ≡ self.old) }
    {
        // for the prover: the world is sound
        self.know_sound();
        match (self.place(actor), self.passage(exit)) {
            (Some(from), Some(passage)) => {
                if from == passage.destination {
                    Ok(())
                } else {
                    self.relocate(actor, from, passage.destination)
                }
            }
            _ => Ok(()),
        }
    }

    // Moves the thing to another place.
    fn carry(&mut self, actor: u32, thing: u32, to: u32) -> Result<(), AllocError>
        requires { refusal self.old (record { actor = actor; deed = Deed.Move thing to }) ≡ None }
        ensures ok { OnOk result (self.new ≡ after self.old (record { actor = actor; deed = Deed.Move thing to })) }
        ensures err { OnErr result (self.new ≡ self.old) }
    {
        // for the prover: the world is sound
        self.know_sound();
        match self.place(thing) {
            Some(from) => self.relocate(thing, from, to),
            None => Ok(()),
        }
    }

    // Adds a thing inside the actor.
    fn make(&mut self, actor: u32, names: &Names) -> Result<(), AllocError>
        requires { refusal self.old (record { actor = actor; deed = Deed.Make names.now }) ≡ None }
        ensures ok { OnOk result (self.new ≡ after self.old (record { actor = actor; deed = Deed.Make names.now })) }
        ensures err { OnErr result (self.new ≡ self.old) }
    {
        let thing = Record {
            names: names.copy()?,
            owner: actor,
            kind: Kind::Thing { place: actor },
            key: None,
        };
        self.add(thing)
    }

    // Gives an object another key, or none.
    fn set_key(&mut self, object: u32, key: Option<Key>) -> Result<(), AllocError>
        requires { CanKey self.old object key }
        ensures ok { OnOk result (self.new ≡ with_key self.old object key) }
        ensures err { OnErr result (self.new ≡ self.old) }
    {
        rekey(&mut self.records, &mut self.askers, object, key)
    }

    // Removes the key of an object.
    fn drop_key(&mut self, object: u32)
        requires { CanKey self.old object None }
        ensures { self.new ≡ with_key self.old object None }
    {
        unkey(&mut self.records, &mut self.askers, object);
    }

    // Gives the object a copy of the key.
    fn lock(&mut self, actor: u32, object: u32, key: &Key) -> Result<(), AllocError>
        requires { refusal self.old (record { actor = actor; deed = Deed.Lock object key.now }) ≡ None }
        ensures ok { OnOk result (self.new
            ≡ after self.old (record { actor = actor; deed = Deed.Lock object key.now })) }
        ensures err { OnErr result (self.new ≡ self.old) }
    {
        // for the prover: the world is sound
        self.know_sound();
        let key = key.copy()?;
        self.set_key(object, Some(key))
    }

    // Removes the object's key.
    fn unlock(&mut self, actor: u32, object: u32)
        requires { refusal self.old (record { actor = actor; deed = Deed.Unlock object }) ≡ None }
        ensures { self.new ≡ after self.old (record { actor = actor; deed = Deed.Unlock object }) }
    {
        // for the prover: the world is sound
        self.know_sound();
        self.drop_key(object);
    }

    // Sets the cost of the exit.
    fn set_cost(&mut self, actor: u32, exit: u32, cost: u32)
        requires { refusal self.old (record { actor = actor; deed = Deed.Cost exit cost }) ≡ None }
        ensures { self.new ≡ after self.old (record { actor = actor; deed = Deed.Cost exit cost }) }
    {
        self.records.edit(exit, Edit::Cost(cost));
    }

    // Adds a player to the hall. The player owns itself.
    fn add_player(&mut self, actor: u32, name: &Name) -> Result<(), AllocError>
        requires { refusal self.old (record { actor = actor; deed = Deed.Player name.now }) ≡ None }
        ensures ok { OnOk result (self.new ≡ after self.old (record { actor = actor; deed = Deed.Player name.now })) }
        ensures err { OnErr result (self.new ≡ self.old) }
    {
        // for the prover: the world is sound
        self.know_sound();
        let names = Names::of(self.alloc, name.copy(self.alloc)?)?;
        let player = Record {
            names,
            owner: actor,
            kind: Kind::Player { place: 0 },
            key: None,
        };
        self.add(player)
    }

    // Gives an object other names.
    fn set_names(&mut self, object: u32, names: Names) -> Result<(), AllocError>
        requires { CanName self.old object names }
        ensures ok { OnOk result (self.new ≡ with_names self.old object names) }
        ensures err { OnErr result (self.new ≡ self.old) }
    {
        rename_in(&mut self.records, &mut self.owners, object, names)
    }

    // Gives the object a copy of the names.
    #[tactic(auto, unfolding(crate::specs::Legal::refusal))]
    fn rename(&mut self, actor: u32, object: u32, names: &Names) -> Result<(), AllocError>
        requires { refusal self.old (record { actor = actor; deed = Deed.Rename object names.now }) ≡ None }
        ensures ok { OnOk result (self.new
            ≡ after self.old (record { actor = actor; deed = Deed.Rename object names.now })) }
        ensures err { OnErr result (self.new ≡ self.old) }
    {
        let names = names.copy()?;
        self.set_names(object, names)
    }

    // Removes the object.
    fn recycle(&mut self, actor: u32, object: u32)
        requires { refusal self.old (record { actor = actor; deed = Deed.Recycle object }) ≡ None }
        ensures { self.new ≡ after self.old (record { actor = actor; deed = Deed.Recycle object }) }
    {
        forget(&mut self.records, &mut self.links, &mut self.askers, object);
    }

    /// Applies a legal change (`after`). The only error is out of memory, and it leaves the world unchanged. New
    /// objects get the next numbers, in the order room, exit, exit back. A number is never given again (LambdaMOO
    /// Programmer's Manual, "Fundamental Operations on Objects").
    pub fn apply(&mut self, change: &Change) -> Result<(), AllocError>
        requires { refusal self.old change.now ≡ None }
        ensures ok { OnOk result (self.new ≡ after self.old change.now) }
        ensures err { OnErr result (self.new ≡ self.old) }
        ensures sound { IsSound self.new }
    {
        let actor = change.actor;
        let done = match &change.deed {
            Deed::Dig(target, doors) => self.dig(actor, target, doors),
            Deed::Make(names) => self.make(actor, names),
            Deed::Lock { object, key } => self.lock(actor, *object, key),
            Deed::Unlock { object } => {
                self.unlock(actor, *object);
                Ok(())
            }
            Deed::Move { thing, to } => self.carry(actor, *thing, *to),
            Deed::Walk { exit } => self.walk(actor, *exit),
            Deed::Cost { exit, cost } => {
                self.set_cost(actor, *exit, *cost);
                Ok(())
            }
            Deed::Player(name) => self.add_player(actor, name),
            Deed::Rename { object, names } => self.rename(actor, *object, names),
            Deed::Recycle { object } => {
                self.recycle(actor, *object);
                Ok(())
            }
            Deed::Say(_) | Deed::Emote(_) => Ok(()),
        };
        // for the prover: the world is sound
        self.know_sound();
        done
    }
}
