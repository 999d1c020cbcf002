//! The form of a web origin.

// Returns whether each byte is one that a browser writes in a host name. Letters are lower case.
fn is_host(text: &str) -> bool {
    text.as_bytes().iter().all(
        |byte| matches!(*byte, b'a'..=b'z' | b'0'..=b'9' | b'.' | b'-' | b'_' | b'[' | b']' | b':'),
    )
}

// Returns whether the text is a port as a browser writes it. A browser leaves out the default port of the scheme.
fn is_port(text: &str, own: u16) -> bool {
    match text.parse::<u16>() {
        Ok(port) => 0 < port && port != own && !text.starts_with('0') && !text.starts_with('+'),
        Err(_) => false,
    }
}

// Returns whether the text is a host with an optional port. The colons of an IPv6 address stand in brackets.
fn is_authority(text: &str, own: u16) -> bool {
    if text.is_empty() || !is_host(text) {
        return false;
    }
    match text.rsplit_once(':') {
        Some((host, _)) if host.contains('[') && text.ends_with(']') => true,
        Some((host, port)) => !host.is_empty() && is_port(port, own),
        None => true,
    }
}

/// Returns whether a browser may send this text as the origin of a page (RFC 6454, section 6.2). An origin is a scheme,
/// `://` and a host. If the port is not the default port of the scheme, `:` and the port follow.
pub(crate) fn is_origin(text: &str) -> bool {
    match text.split_once("://") {
        Some(("http", authority)) => is_authority(authority, 80),
        Some(("https", authority)) => is_authority(authority, 443),
        _ => false,
    }
}
