//! One player brings things to their places, once all players are at home.

use crate::column::Column;
use crate::makings::WIZARD;
use crate::roads::{Heading, NONE, Tree};
use crate::site::Site;
use crate::unbuilt::Unbuilt;
use std::alloc::{AllocError, Global};

// A thing that its maker still has, and that belongs elsewhere.
#[derive(Clone, Copy)]
struct Job {
    thing: u32,
    maker: u32,
    // the maker's room, and the one to which the thing goes
    from: u32,
    to: u32,
    // the place of the thing in the list of all things: the one around it is earlier
    rank: u32,
}

// The order of a walk through a tree, in which the rooms beyond one room are together.
#[derive(Drop)]
struct Order {
    // for each room the number of rooms beyond it and itself
    sizes: Column<u32>,
    places: Column<u32>,
    // where the next part beyond each room begins
    free: Column<u32>,
}

impl Order {
    fn new(alloc: Global, count: u32) -> Result<Order, AllocError> {
        Ok(Order {
            sizes: Column::new(alloc, count, 1)?,
            places: Column::new(alloc, count, 0)?,
            free: Column::new(alloc, count, 1)?,
        })
    }

    // Finds the number of rooms beyond each room.
    fn measure(&mut self, site: &Site<'_>, tree: &Tree) {
        for room in tree.rooms.iter().rev() {
            if *room != tree.root {
                let next = site.roads.inwards(tree, *room);
                let size = self.sizes.get(next).saturating_add(self.sizes.get(*room));
                self.sizes.set(next, size);
            }
        }
    }

    // Finds the place of each room.
    fn number(&mut self, site: &Site<'_>, tree: &Tree) {
        for room in tree.rooms.iter() {
            if *room != tree.root {
                let next = site.roads.inwards(tree, *room);
                let free = self.free.get(next);
                self.free
                    .set(next, free.saturating_add(self.sizes.get(*room)));
                self.places
                    .set(*room, self.places.get(next).saturating_add(free));
            }
        }
    }
}

/// The player #1, who collects things and brings them to their rooms.
pub(crate) struct Postman {
    alloc: Global,
    // the ways from the postman's room, those to it, and those to the next room
    there: Tree,
    back: Tree,
    next: Tree,
    order: Order,
    /// The things that nobody can bring.
    pub(crate) hard: Vec<u32>,
}

// Written out: see the one of `Site`.
impl Drop for Postman {
    fn drop(self) {
        let Postman {
            alloc: _,
            there,
            back,
            next,
            order,
            hard,
        } = self;
        drop(there);
        drop(back);
        drop(next);
        drop(order);
        drop(hard);
    }
}

// Returns the things that their makers still have, and that belong elsewhere.
fn jobs_of(site: &Site<'_>) -> Result<Vec<Job>, AllocError> {
    let mut jobs = Vec::new(site.alloc);
    let mut rank: u32 = 0;
    for thing in site.nests.things.iter() {
        rank = rank.saturating_add(1);
        let maker = site.story.origin(*thing).maker;
        let root = site.nests.roots.get(*thing);
        if site.packs.packed.get(*thing) || site.places.get(*thing) != maker || root == maker {
            continue;
        }
        let is_player = site.story.is_player(root);
        jobs.push(Job {
            thing: *thing,
            maker,
            from: site.rooms.get(maker),
            to: if is_player {
                site.rooms.get(root)
            } else {
                root
            },
            rank,
        })?;
    }
    Ok(jobs)
}

impl Postman {
    // Returns the postman, who knows no ways yet.
    fn unplaced(alloc: Global, count: u32) -> Result<Postman, AllocError> {
        Ok(Postman {
            alloc,
            there: Tree::new(alloc, Heading::There, count)?,
            back: Tree::new(alloc, Heading::Back, count)?,
            next: Tree::new(alloc, Heading::Back, count)?,
            order: Order::new(alloc, count)?,
            hard: Vec::new(alloc),
        })
    }

    // Finds the ways from the postman's room, and those to it.
    fn learn(&mut self, site: &Site<'_>) -> Result<(), AllocError> {
        let room = site.rooms.get(WIZARD);
        site.roads.grow_all(&mut self.there, room)?;
        site.roads.grow_all(&mut self.back, room)?;
        self.order.measure(site, &self.there);
        self.order.number(site, &self.there);
        Ok(())
    }

    /// Returns the postman, who knows the ways from their room.
    pub(crate) fn new(site: &Site<'_>) -> Result<Postman, AllocError> {
        let mut postman = Postman::unplaced(site.alloc, site.story.count)?;
        postman.learn(site)?;
        Ok(postman)
    }

    // Returns whether the postman can go to the room and come back.
    fn can_visit(&self, room: u32) -> bool {
        self.there.has(room) && self.back.has(room)
    }

    // Has the postman go to a room by a way with the fewest exits.
    fn go(&mut self, site: &mut Site<'_>, room: u32) -> Result<(), Unbuilt> {
        let here = site.rooms.get(WIZARD);
        if here == room {
            return Ok(());
        }
        site.roads.grow(&mut self.next, room, here, NONE as usize)?;
        if !self.next.has(here) {
            return Err(Unbuilt::GivenUp);
        }
        let exits = site.roads.exits_inwards(&self.next, here)?;
        site.walk(WIZARD, &exits)
    }

    // Has makers bring the things for their own rooms. Returns the other jobs that the postman can do.
    fn select(&mut self, site: &mut Site<'_>, jobs: &[Job]) -> Result<Vec<Job>, Unbuilt> {
        let mut selected = Vec::new(self.alloc);
        for job in jobs {
            if job.from == job.to {
                site.pack(job.maker, job.thing)?;
                site.arrive(job.maker, job.thing)?;
            } else if self.can_visit(job.from) && self.can_visit(job.to) {
                selected.push(*job)?;
            } else {
                self.hard.push(job.thing)?;
            }
        }
        Ok(selected)
    }

    // Collects the things, which are sorted by room.
    fn collect(&mut self, site: &mut Site<'_>, jobs: &[Job]) -> Result<(), Unbuilt> {
        for job in jobs {
            if job.maker != WIZARD {
                self.go(site, job.from)?;
            }
            site.pack(job.maker, job.thing)?;
            if job.maker != WIZARD {
                site.carry(job.maker, job.thing, WIZARD)?;
            }
        }
        Ok(())
    }

    // Brings the things, which are sorted by room, to their places.
    fn deliver(&mut self, site: &mut Site<'_>, jobs: &[Job]) -> Result<(), Unbuilt> {
        for job in jobs {
            self.go(site, job.to)?;
            if site.places.get(job.thing) == WIZARD {
                site.arrive(WIZARD, job.thing)?;
            }
        }
        Ok(())
    }

    /// Brings all things to their places, as far as the postman can. The others are hard.
    pub(crate) fn serve(&mut self, site: &mut Site<'_>) -> Result<(), Unbuilt> {
        let jobs = jobs_of(site)?;
        let mut jobs = self.select(site, &jobs)?;
        if !self.hard.is_empty() {
            return Ok(());
        }
        let home = self.there.root;
        let places = &self.order.places;
        jobs.sort_by_key(|job: &Job| -> (u32, u32) { (places.get(job.from), job.rank) })?;
        self.collect(site, &jobs)?;
        let places = &self.order.places;
        jobs.sort_by_key(|job: &Job| -> (u32, u32) { (places.get(job.to), job.rank) })?;
        self.deliver(site, &jobs)?;
        self.go(site, home)
    }
}
