//! The listeners of a server.

ghost use Rattle.std.specs.Prelude.{◌≡◌, IfSome, is_some};

use std::net::TcpListener;

/// The listeners of a server.
#[derive(Drop)]
pub struct Doors {
    /// The Telnet listener.
    pub telnet: TcpListener,
    /// The web listener, if there is one.
    pub web: Option<WebDoor>,
}

/// A web listener and its page.
#[derive(Drop)]
pub struct WebDoor {
    /// The listener for browsers.
    pub listener: TcpListener,
    /// The page and its origin.
    pub site: Site,
}

/// The listeners without the page.
#[derive(Drop)]
pub struct Listeners {
    pub telnet: TcpListener,
    pub web: Option<TcpListener>,
}

/// The page of a web listener, and its origin.
#[derive(Drop)]
pub struct Site {
    /// The only origin whose pages may play (RFC 6454, section 6.2), such as `http://localhost:8000`.
    pub origin: String,
    /// The answer to a browser that asks for the page: a head of HTTP/1.1, and the page.
    pub page: &'static [u8],
}

impl Doors {
    /// Returns the listeners, and the page with its origin.
    pub fn into_parts(self) -> (Listeners, Option<Site>) {
        let Doors { telnet, web } = self;
        match web {
            None => (Listeners { telnet, web: None }, None),
            Some(WebDoor { listener, site }) => {
                let listeners = Listeners {
                    telnet,
                    web: Some(listener),
                };
                (listeners, Some(site))
            }
        }
    }

    /// Returns the ports, or `None` if a listener has no port.
    pub fn ports(&self) -> Option<Ports>
        ensures { IfSome result (λ ports. is_some ports.web ≡ is_some self.now.web) }
    {
        let telnet = port_of(&self.telnet)?;
        match &self.web {
            None => Some(Ports { telnet, web: None }),
            Some(door) => {
                let web = port_of(&door.listener)?;
                Some(Ports {
                    telnet,
                    web: Some(web),
                })
            }
        }
    }
}

/// The ports of a server.
#[derive(Clone, Copy)]
pub struct Ports {
    /// The Telnet port.
    pub telnet: u16,
    /// The web port, if there is one.
    pub web: Option<u16>,
}

// Returns the port of a listener, if it has one.
fn port_of(listener: &TcpListener) -> Option<u16> {
    match listener.local_addr() {
        Ok(address) => Some(address.port()),
        Err(_) => None,
    }
}
