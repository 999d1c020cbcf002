//! The form of a host, and which target names a path (RFC 9110, section 4.2; RFC 9112, section 3.2).

ghost use Rattle.std.specs.Prelude.{◌≡◌, ◌↔◌, ◌++◌, ◌<◌, ℕ, List, length, IsTrue, codes, true, if◌then◌else◌, ◌||◌};
ghost use Rattle.std.specs.List.{fold};
ghost use Rattle.websocket.specs.Headers.{eq_ignore_case};
ghost use Rattle.mud_web.specs.Targets.{IsHost, IsSite, Names, is_host_byte, is_literal_byte, IsBehind};
ghost use Rattle.mud_web.specs.inner.HostPlaces.{next, is_end};

// The position inside the form of a host.
#[derive(Clone, Copy)]
enum HostPlace {
    // Before its first byte.
    Start,
    // In a name.
    Name,
    // After the opening bracket of an address.
    Open,
    // In an address.
    Literal,
    // After the closing bracket.
    Shut,
    // In a port, or after its colon.
    Port,
    // Not a host.
    Other,
}

/// Returns whether a text has the form of a host: a name or an address in brackets, and optionally a port.
pub fn is_host(text: &[u8]) -> bool
    ensures { IsTrue result ↔ IsHost text.now }
{
    is_end(place_after(text))
}

/// Returns whether a target names this path: it is the path itself, or has the absolute form with the path.
pub fn names(target: &[u8], path: &[u8]) -> bool
    ensures { IsTrue result ↔ Names target.now path.now }
{
    target == path || names_absolutely(target, path)
}

/// Returns whether a text is the part of the absolute form before the path: `http` or `https`, `://` and a host.
pub fn is_site(text: &[u8]) -> bool
    ensures { IsTrue result ↔ IsSite text.now }
{
    is_behind(text, b"http://") || is_behind(text, b"https://")
}

// Returns whether a target has the absolute form with this path.
fn names_absolutely(target: &[u8], path: &[u8]) -> bool
    ensures { IsTrue result ↔ ((site : List ℕ) × IsSite site × (target.now ≡ site ++ path.now)) }
{
    if target.len() < path.len() {
        return false;
    }
    let (site, rest) = target.split_at(target.len() - path.len());
    rest == path && is_site(site)
}

// Returns whether a text is this start, ignoring case, followed by a host.
fn is_behind(text: &[u8], start: &[u8]) -> bool
    ensures { IsTrue result ↔ IsBehind start.now text.now }
{
    if text.len() < start.len() {
        return false;
    }
    let (front, host) = text.split_at(start.len());
    front.eq_ignore_ascii_case(start) && is_host(host)
}

// Returns whether a host may end at this position.
fn is_end(place: HostPlace) -> bool
    ensures { result ≡ is_end place }
{
    matches!(place, HostPlace::Name | HostPlace::Shut | HostPlace::Port)
}

// Returns the position after a text.
fn place_after(text: &[u8]) -> HostPlace
    ensures { result ≡ fold next HostPlace.Start text.now }
{
    let mut place = HostPlace::Start;
    for byte in text {
        place = next(place, *byte);
    }
    place
}

// Returns the position after one more byte.
fn next(place: HostPlace, byte: u8) -> HostPlace
    ensures { result ≡ next place byte }
{
    match place {
        HostPlace::Start if is_host_byte(byte) => HostPlace::Name,
        HostPlace::Start if byte == b'[' => HostPlace::Open,
        HostPlace::Name if is_host_byte(byte) => HostPlace::Name,
        HostPlace::Open | HostPlace::Literal if is_literal_byte(byte) => HostPlace::Literal,
        HostPlace::Literal if byte == b']' => HostPlace::Shut,
        HostPlace::Name | HostPlace::Shut if byte == b':' => HostPlace::Port,
        HostPlace::Port if byte.is_ascii_digit() => HostPlace::Port,
        _ => HostPlace::Other,
    }
}

// Returns whether a byte may occur in an address.
fn is_literal_byte(byte: u8) -> bool
    ensures { result ≡ is_literal_byte byte }
{
    byte == b':' || is_host_byte(byte)
}

// Returns whether a byte may occur in a name.
fn is_host_byte(byte: u8) -> bool
    ensures { result ≡ is_host_byte byte }
{
    byte.is_ascii_alphanumeric() || b"-._~%!$&'()*+,;=".contains(&byte)
}
