//! The result of a step of a connection.

/// The result of a step: the connection goes on as `T`, it is over as `L`, or an allocation failed.
#[derive(Drop)]
pub(crate) enum Step<T, L> {
    Goes(T),
    Ends(L),
    Fails,
}
