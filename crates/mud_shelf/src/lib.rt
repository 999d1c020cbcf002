//! The volumes of a journal: one file after another, each with a history of the same world.
#![tactic(auto)]

mod draft;
mod fault;
mod folder;
pub mod laws;
mod names;
mod publishing;
mod shelf;
mod standing;
mod turning;
mod volume;

pub use draft::Draft;
pub use fault::TurnFault;
pub use folder::{DraftFile, VolumeFolder, folder_of};
pub use names::{MOST_VOLUMES, latest_volume, volume_name, volume_number};
pub use shelf::{FoundVolume, Shelf, find_volume, next_volume};
pub use standing::Standing;
pub use turning::{fresh_volume, turn};
pub use volume::Volume;
