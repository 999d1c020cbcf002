//! How far a volume has come.

/// How far the next volume has come, as far as this process knows.
#[derive(Clone, Copy, Debug, PartialEq, Eq)]
pub enum Standing {
    /// Nothing was written yet.
    Fresh,
    /// The volume is there, and may grow.
    Begun,
    /// There is no volume, whatever a crash leaves.
    CalledOff,
    /// A crash may leave the volume or not.
    Unknown,
}
