//! Ports of the command line.

use crate::fault::HostFault;
use std::io::ErrorKind;
use std::net::{IpAddr, Net, TcpListener, TcpStream};
use thiserror::Error;

/// The reason why a port is not available.
#[derive(Clone, Copy, Debug, Error)]
pub enum NoPort {
    /// Another program uses it.
    #[error("in use")]
    InUse,
    /// This user is not allowed to use it.
    #[error("permission denied")]
    Denied,
    /// This machine does not have the address.
    #[error("no such address")]
    NoSuchAddress,
    /// The address is neither IPv4 nor IPv6. Names are not looked up.
    #[error("not an IP address")]
    NotIp,
    /// Any other reason of the system.
    #[error("{0}")]
    Other(ErrorKind),
}

impl NoPort {
    // Returns the reason why the system did not give a port.
    fn of(kind: ErrorKind) -> NoPort {
        match kind {
            ErrorKind::AddrInUse => NoPort::InUse,
            ErrorKind::PermissionDenied => NoPort::Denied,
            ErrorKind::AddrNotAvailable => NoPort::NoSuchAddress,
            kind => NoPort::Other(kind),
        }
    }
}

/// Binds a listener at this address and port. The only error is [`HostFault::Port`].
pub fn bind<R: Net<Listener = TcpListener, Stream = TcpStream>>(
    rt: &R,
    address: &str,
    port: u16,
) -> Result<TcpListener, HostFault> {
    let Ok(address) = address.parse::<IpAddr>() else {
        return Err(HostFault::Port(port, NoPort::NotIp));
    };
    match TcpListener::bind(rt, (address, port)) {
        Ok(listener) => Ok(listener),
        Err(error) => Err(HostFault::Port(port, NoPort::of(error.kind()))),
    }
}
