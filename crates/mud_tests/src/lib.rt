//! The tests of the libraries: behaviour that no contract states and no example of a program shows.
//!
//! They need threads, gates or a disk of their own, or the refusal of each request for memory. All else that a program
//! can show is a table or a session in `tests/`, and the programs are run on it. No other crate has a test, so each of
//! them is proved once. A table here is a text of rows, which one function answers: a test is proved like any function,
//! and a row of a text costs nothing.
#![tactic(auto)]

#[cfg(test)]
mod crashes;
// Definitions name its types, so it is no module of the tests alone.
mod disk;
#[cfg(test)]
mod hall;
#[cfg(test)]
mod lines;
#[cfg(test)]
mod playing;
#[cfg(test)]
mod rows;
#[cfg(test)]
mod served;
#[cfg(test)]
mod sessions;
#[cfg(test)]
mod shared;
#[cfg(test)]
mod village;
#[cfg(test)]
mod workers;
#[cfg(test)]
mod world;
