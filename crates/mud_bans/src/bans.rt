//! A list of banned networks.

ghost use Rattle.std.specs.Prelude.{◌≡◌, ◌≤◌, ◌↔◌, ◌++◌, [], ◌∷◌, length, is_some, string_bytes, OnOk, IfOk, OnErr};
ghost use Rattle.std.specs.List.{list_any};
ghost use Rattle.mud_bans.specs.declared.bans.TheConstants.{MOST_BANS};
ghost use Rattle.mud_bans.specs.Network.{covers};
ghost use Rattle.mud_bans.specs.Bans.{place_of};

use crate::network::Network;
use std::alloc::{AllocError, Global};
use std::fmt::Write;
use std::marker::Model;
use std::net::IpAddr;
use thiserror::Error;

/// The greatest number of networks. Each new connection is compared with all of them.
pub const MOST_BANS: usize = 4_096;

/// The reason why a network was not added.
#[derive(Clone, Copy, Debug, PartialEq, Eq, Error)]
pub enum AddFault {
    /// An allocation failed.
    #[error("out of memory")]
    OutOfMemory,
    /// The list has [`MOST_BANS`] networks.
    #[error("too many bans")]
    Full,
}

/// Banned networks, in the order in which they were added.
#[derive(Drop)]
pub struct Bans {
    list: Vec<Network>,
}

// Returns the index of the first network that equals this one.
fn place_of(list: &[Network], network: Network) -> Option<usize>
    ensures { result ≡ place_of list.now network }
{
    for (at, other) in list.iter().enumerate() {
        if other.is_same(network) {
            return Some(at);
        }
    }
    None
}

impl Model for Bans {
    ghost use Rattle.std.specs.Prelude.{◌≤◌, length, List};
    ghost use Rattle.mud_bans.specs.declared.bans.TheConstants.{MOST_BANS};
    ghost use Rattle.mud_bans.specs.declared.network.Network.{Network};

    ghost Value = { List Network };

    ghost view = { λ bans. bans.list.items };

    ghost invariant = { λ bans. length bans.list.items ≤ MOST_BANS };
}

impl Bans {
    ghost use Rattle.mud_bans.specs.Bans.{bans_text, without};

    /// Returns an empty list.
    pub fn new(alloc: Global) -> Bans
        ensures { result ≡ [] }
    {
        Bans {
            list: Vec::new(alloc),
        }
    }

    /// Returns whether the list has this network.
    pub fn has(&self, network: Network) -> bool
        ensures { result ≡ is_some (place_of self.now network) }
    {
        place_of(&self.list, network).is_some()
    }

    /// Appends a network. After an error the list is unchanged.
    pub fn add(&mut self, network: Network) -> Result<(), AddFault>
        ensures ok { OnOk result (self.new ≡ self.old ++ network ∷ []) }
        ensures full { (result ≡ Err AddFault.Full) ↔ (MOST_BANS ≤ length self.old) }
        ensures err { OnErr result (self.new ≡ self.old) }
    {
        if self.list.len() >= MOST_BANS {
            return Err(AddFault::Full);
        }
        match self.list.push(network) {
            Ok(()) => Ok(()),
            Err(_) => Err(AddFault::OutOfMemory),
        }
    }

    /// Removes the first network that equals this one. Returns whether there was one.
    pub fn remove(&mut self, network: Network) -> bool
        ensures found { result ≡ is_some (place_of self.old network) }
        ensures others { self.new ≡ without self.old network }
    {
        match place_of(&self.list, network) {
            Some(at) => {
                self.list.remove(at);
                true
            }
            None => false,
        }
    }

    /// Returns whether one of the networks contains this address.
    pub fn covers(&self, address: IpAddr) -> bool
        ensures { result ≡ list_any (λ net. covers net address) self.now }
    {
        for network in &self.list {
            if network.covers(address) {
                return true;
            }
        }
        false
    }

    /// Returns the networks, in order.
    pub fn list(&self) -> &[Network]
        ensures { result.now ≡ self.now }
    {
        &self.list
    }

    /// Returns the text of their file, one network a line. The only error is out of memory.
    pub fn text(&self, alloc: Global) -> Result<String, AllocError>
        ensures { IfOk result (λ text. string_bytes text ≡ bans_text self.now) }
    {
        let mut text = String::new(alloc);
        for network in &self.list {
            writeln!(text, "{network}")?;
        }
        Ok(text)
    }
}
