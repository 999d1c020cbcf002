//! Networks of IP addresses.

ghost use Rattle.std.specs.Prelude.{◌≡◌, ◌≤◌, ◌%◌, ◌^◌, ◌↔◌, IsTrue, IfSome, IfNone};
ghost use Rattle.mud_bans.specs.Address.{width, same_family, bits_of, front, IsCanonical, IsNetwork};

use crate::number::number_in;
use std::fmt;
use std::fmt::{Display, Formatter};
use std::net::IpAddr;

// The number of bits of an address, by its family.
const BITS_OF_V4: u32 = 32;

const BITS_OF_V6: u32 = 128;

/// A network: all addresses of one family that begin with the same bits.
#[derive(Clone, Copy, Debug)]
pub struct Network {
    /// The first address of the network.
    pub address: IpAddr,
    /// The number of bits that count. All bits after them are zero.
    pub bits: u32,
}

// Returns the number of bits of an address of this family.
fn width(address: IpAddr) -> u32
    ensures { result ≡ width address }
{
    match address {
        IpAddr::V4(_) => BITS_OF_V4,
        IpAddr::V6(_) => BITS_OF_V6,
    }
}

// Returns whether two addresses are of one family.
fn same_family(one: IpAddr, other: IpAddr) -> bool
    ensures { result ≡ same_family one other }
{
    match (one, other) {
        (IpAddr::V4(_), IpAddr::V4(_)) | (IpAddr::V6(_), IpAddr::V6(_)) => true,
        (IpAddr::V4(_), IpAddr::V6(_)) | (IpAddr::V6(_), IpAddr::V4(_)) => false,
    }
}

// Returns the bits of an address as a number.
fn bits_of(address: IpAddr) -> u128
    ensures { result ≡ bits_of address }
{
    match address {
        IpAddr::V4(v4) => u128::from(v4.to_bits()),
        IpAddr::V6(v6) => v6.to_bits(),
    }
}

// Returns the first bits of an address as a number.
fn front(count: u32, address: IpAddr) -> u128
    ensures { result ≡ front count address }
{
    let dropped = width(address).saturating_sub(count);
    bits_of(address).checked_shr(dropped).unwrap_or(0)
}

// Returns whether the last `count` bits of an address are zero.
fn is_rest_zero(address: IpAddr, count: u32) -> bool
    requires { count ≤ width address }
    ensures { IsTrue result ↔ (bits_of address % 2 ^ count ≡ 0) }
{
    match 1u128.checked_shl(count) {
        Some(step) => bits_of(address) % step == 0,
        None => bits_of(address) == 0,
    }
}

// Returns whether an address is not an IPv4-mapped address.
fn is_canonical(address: IpAddr) -> bool
    ensures { IsTrue result ↔ IsCanonical address }
{
    match address {
        IpAddr::V4(_) => true,
        IpAddr::V6(v6) => v6.to_ipv4_mapped().is_none(),
    }
}

// Returns the network with the first `bits` bits of an address, if all bits after them are zero and the address is not
// IPv4-mapped.
fn network_of(address: IpAddr, bits: u32) -> Option<Network>
    ensures some { IfSome result (λ net. (net ≡ record { address = address; bits = bits }) × IsNetwork address bits) }
    ensures none { IfNone result (¬ (IsNetwork address bits)) }
{
    let rest = width(address).checked_sub(bits)?;
    if is_rest_zero(address, rest) && is_canonical(address) {
        Some(Network { address, bits })
    } else {
        None
    }
}

impl Network {
    ghost use Rattle.std.specs.Net.Grammar.{IsIpText};
    ghost use Rattle.mud_bans.specs.Number.{IsNumber};
    ghost use Rattle.mud_bans.specs.Network.{is_same, covers, IsNetworkText};

    // Returns the network of a text that is one address.
    fn whole(text: &str) -> Option<Network>
        ensures some { IfSome result (λ net. IsIpText text.now net.address × (net.bits ≡ width net.address)
            × IsNetwork net.address net.bits) }
        ensures none { IfNone result ((net : Network) → IsIpText text.now net.address
            → net.bits ≡ width net.address → ¬ (IsNetwork net.address net.bits)) }
    {
        let address = text.parse::<IpAddr>().ok()?;
        network_of(address, width(address))
    }

    // Returns the network of the texts of an address and of a number of bits.
    fn part(text: &str, bits: &str) -> Option<Network>
        ensures some { IfSome result (λ net. IsIpText text.now net.address × IsNumber bits.now net.bits
            × IsNetwork net.address net.bits) }
        ensures none { IfNone result ((net : Network) → IsIpText text.now net.address → IsNumber bits.now net.bits
            → ¬ (IsNetwork net.address net.bits)) }
    {
        let address = text.parse::<IpAddr>().ok()?;
        let bits = number_in(bits)?;
        network_of(address, bits)
    }

    /// Parses a network: an address, or an address, `/` and the number of bits that count. Returns `None` for any other
    /// text, for an address with a bit set after those that count, and for an IPv4-mapped address.
    pub fn read(text: &str) -> Option<Network>
        ensures some { IfSome result (IsNetworkText text.now) }
        ensures none { IfNone result ((net : Network) → ¬ (IsNetworkText text.now net)) }
    {
        match text.split_once('/') {
            None => Network::whole(text),
            Some((address, bits)) => Network::part(address, bits),
        }
    }

    /// Returns whether the two networks are equal.
    pub fn is_same(&self, other: Network) -> bool
        ensures { result ≡ is_same self.now other }
    {
        same_family(self.address, other.address)
            && bits_of(self.address) == bits_of(other.address)
            && self.bits == other.bits
    }

    /// Returns whether the network contains this address.
    pub fn covers(&self, address: IpAddr) -> bool
        ensures { result ≡ covers self.now address }
    {
        same_family(address, self.address)
            && front(self.bits, address) == front(self.bits, self.address)
    }
}

impl Display for Network {
    ghost use Rattle.std.specs.Prelude.{Some};
    ghost use Rattle.mud_bans.specs.Network.{network_text};

    ghost output = { λ net. Some (network_text net) };

    fn fmt<W: fmt::Write>(&self, f: &mut Formatter<W>) -> fmt::Result {
        let (address, bits) = (self.address, self.bits);
        if bits == width(address) {
            write!(f, "{address}")
        } else {
            write!(f, "{address}/{bits}")
        }
    }
}
