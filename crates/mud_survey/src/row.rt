//! The rows of a survey's table.

/// The subject of a row.
#[derive(Clone, Copy)]
pub(crate) enum Row {
    /// Nobody comes to the room.
    Room,
    /// Nobody passes the exit.
    Exit,
    /// No exit leads back from the exit.
    OneWay,
    /// The key of the object names what is gone.
    Key,
    /// Nobody gets the thing.
    Thing,
}
