//! Finds a shorter history that rebuilds a world.
//!
//! [`build_again`] returns entries that should lead to the world of others. Nothing is promised about them:
//! `mud_compact` compares the two worlds, and passes on only entries that lead to an equal one (translation
//! validation). docs/KEEPING.md ("Shorten") says how it builds, and how long the result can be.
//!
//! | Step | Module |
//! |---|---|
//! | the contents of the history: makers, walks and moves | `story` |
//! | the places of things | `nests` |
//! | the changes that make the objects | `makings` |
//! | the rooms where players have to be for that | `stops` |
//! | ways with few exits | `roads`, `erasing` |
//! | the acts so far | `site` |
//! | things that travel in others, and those that makers leave on the way | `packs`, `queues` |
//! | other things, once all objects are made | `postman` |
//! | things that the postman can't bring | `hauls` |
//! | the attempts, and the entries of the last one | `building`, `spelling` |
#![tactic(auto)]

mod building;
mod column;
mod erasing;
mod hauls;
mod makings;
mod nests;
mod packs;
mod postman;
mod queues;
mod roads;
mod site;
mod spelling;
mod stops;
mod story;
mod unbuilt;

pub use building::build_again;
