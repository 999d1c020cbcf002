//! The files and the ports with which a server begins.

use crate::stop::Stop;
use mud_chron::Entry;
use mud_cli::{Listening, WebListening};
use mud_history_file::entries_to_continue;
use mud_host::bind;
use mud_listeners::{Doors, Site, WebDoor};
use mud_page::PAGE;
use std::io::Eprint;
use std::net::{Net, TcpListener, TcpStream};
use std::rt::Runtime;

/// Returns the entries that a world without a journal, or with an empty one, continues.
pub fn load_entries<R: Runtime + AllocGlobal>(
    rt: &R,
    file: Option<&str>,
) -> Result<Vec<Entry>, Stop> {
    match entries_to_continue(rt, file, Vec::new(rt.alloc())) {
        Ok(entries) => Ok(entries),
        Err(fault) => Err(Stop::of_load(fault)),
    }
}

/// Prints how many bytes at the end of the journal are no whole line.
pub fn tell_torn<R: Eprint>(rt: &R, torn: usize) {
    let _ = match torn {
        0 => Ok(()),
        1 => eprintln!(rt; "mud_serve: 1 torn byte at the end of the journal is cut off"),
        _ => eprintln!(rt; "mud_serve: {torn} torn bytes at the end of the journal are cut off"),
    };
}

// Returns the web listener that was asked for.
fn web_door<R: AllocGlobal + Net<Listener = TcpListener, Stream = TcpStream>>(
    rt: &R,
    web: WebListening<'_>,
) -> Result<WebDoor, Stop> {
    let Ok(origin) = String::from_str(rt.alloc(), web.origin) else {
        return Err(Stop::OutOfMemory);
    };
    Ok(WebDoor {
        listener: bind(rt, web.address, web.port)?,
        site: Site { origin, page: PAGE },
    })
}

/// Binds the listeners of the command line.
pub fn doors<R: AllocGlobal + Net<Listener = TcpListener, Stream = TcpStream>>(
    rt: &R,
    listening: Listening<'_>,
) -> Result<Doors, Stop> {
    let telnet = bind(rt, listening.address, listening.port)?;
    let web = match listening.web {
        Some(web) => Some(web_door(rt, web)?),
        None => None,
    };
    Ok(Doors { telnet, web })
}
