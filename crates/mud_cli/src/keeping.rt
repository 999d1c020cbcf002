//! The command line of `mud_keep`.

use crate::fault::CommandFault;
use crate::form::program_of;
use crate::keeping_forms::forms;
use crate::matches::{Matched, Unfit};
use clap::error::ErrorKind;
use clap::{ArgMatches, Command};
use std::alloc::{AllocError, Global};

/// A text that `mud_keep` makes from a file.
#[derive(Clone, Copy)]
pub enum Wish {
    /// The history that a journal holds.
    Recover,
    /// The history of the longest readable prefix of a damaged journal.
    Front,
    /// A shorter history of the same world.
    Shorten,
    /// The world as a table.
    Show,
}

/// An input file, and how it is read.
#[derive(Clone, Copy)]
pub struct KeptFile<'a> {
    /// The name of the file; `-` is standard input.
    pub name: &'a str,
    /// True if the file is a journal, false if it is a history.
    pub is_journal: bool,
}

/// The task of `mud_keep`.
#[derive(Drop)]
pub enum Keeping<'a> {
    /// Make a text from this file.
    Text {
        wish: Wish,
        file: KeptFile<'a>,
    },
    /// Draw the rooms and exits as a graph. If a second file is named, draw its certificate in the graph.
    Map {
        file: KeptFile<'a>,
        proof: Option<&'a str>,
    },
    /// Draw the rooms, exits and players as a picture in SVG, or as a graph with the positions of the picture.
    Picture {
        file: KeptFile<'a>,
        is_graph: bool,
    },
    /// Survey the world for these players, or for all if the list is empty, as a table or in JSON.
    Survey {
        file: KeptFile<'a>,
        players: Vec<&'a str>,
        is_json: bool,
    },
    /// Print the certificate of a player's way to a room.
    Proof {
        file: KeptFile<'a>,
        player: &'a str,
        room: &'a str,
    },
    /// Print a history of the same world but for its numbers, or with `is_map` the old and the new numbers.
    Compact {
        file: KeptFile<'a>,
        is_map: bool,
    },
    /// Compare the world of the file `old` with that of the file `new`.
    Diff {
        old: KeptFile<'a>,
        new: &'a str,
    },
    /// Say whether the history in the file `new` continues that in the file `old`.
    Chain {
        old: KeptFile<'a>,
        new: &'a str,
    },
    /// Print the history without the changes of these versions.
    Without {
        file: KeptFile<'a>,
        versions: Vec<u32>,
    },
    /// Print the history without the changes from a version on, of one player or of all.
    Since {
        file: KeptFile<'a>,
        first: u32,
        by: Option<&'a str>,
    },
    /// Print the lines that build the world in a new one.
    Lines {
        file: KeptFile<'a>,
    },
    /// The lines that build these rooms. The player types them in room `here`, and the next object gets number `next`.
    Part {
        file: KeptFile<'a>,
        rooms: Vec<&'a str>,
        here: u32,
        next: u32,
    },
}

const NO_WISH: &str = "what is to be done with which file?";

const NO_PROOF: &str = "a proof is of one player, and has no JSON";

const NO_DRAWING: &str = "a picture has one form, and no certificate";

const NO_CHOICE: &str = "name the changes, or say by whom or since which version";

const NO_PART: &str = "a whole world is built in a new one: name its rooms";

// The version of a history's first change.
const FIRST_VERSION: u32 = 1;

// The room of #1 in a new world, and the number of the next object there.
const NEW_HERE: u32 = 0;

const NEW_NEXT: u32 = 2;

// Returns the text that this form asks for.
fn wish_in(name: &str, words: &ArgMatches<'_>) -> Option<Wish> {
    match name {
        "recover" if words.get_flag("front") => Some(Wish::Front),
        "recover" => Some(Wish::Recover),
        "shorten" => Some(Wish::Shorten),
        "show" => Some(Wish::Show),
        _ => None,
    }
}

// Returns the file that this form names.
fn file_in<'a>(name: &str, words: &ArgMatches<'a>) -> Option<KeptFile<'a>> {
    let file = words.get_str("FILE").or(words.get_str("OLD"));
    Some(KeptFile {
        name: file?,
        is_journal: name == "recover" || words.get_flag("journal"),
    })
}

// Returns the words of an argument that takes a list.
fn several<'a>(
    alloc: Global,
    words: &ArgMatches<'a>,
    name: &str,
) -> Result<Vec<&'a str>, AllocError> {
    match words.get_strs(name) {
        Some(given) => given.to_vec(alloc),
        None => Ok(Vec::new(alloc)),
    }
}

// Returns the versions of the words.
fn versions_in(alloc: Global, words: &ArgMatches<'_>) -> Result<Vec<u32>, Unfit> {
    let mut versions = Vec::new(alloc);
    for word in several(alloc, words, "CHANGES")? {
        match word.parse::<u32>() {
            Ok(version) => versions.push(version)?,
            Err(_) => return Err(Unfit::Told("a change is named by its version")),
        }
    }
    Ok(versions)
}

// Returns the survey or the proof that the words ask for.
fn survey_in<'a>(
    alloc: Global,
    file: KeptFile<'a>,
    words: &ArgMatches<'a>,
) -> Result<Keeping<'a>, Unfit> {
    let players = several(alloc, words, "PLAYERS")?;
    let is_json = words.get_flag("json");
    let Some(room) = words.get_str("proof") else {
        return Ok(Keeping::Survey {
            file,
            players,
            is_json,
        });
    };
    match players.as_slice() {
        [player] if !is_json => Ok(Keeping::Proof {
            file,
            player: *player,
            room,
        }),
        _ => Err(Unfit::Told(NO_PROOF)),
    }
}

// Returns the map or the picture that the words ask for.
fn map_in<'a>(file: KeptFile<'a>, words: &ArgMatches<'a>) -> Result<Keeping<'a>, Unfit> {
    let proof = words.get_str("PROOF");
    match (words.get_flag("svg"), words.get_flag("neato"), proof) {
        (false, false, _) => Ok(Keeping::Map { file, proof }),
        (is_svg, is_graph, None) if is_svg != is_graph => Ok(Keeping::Picture { file, is_graph }),
        _ => Err(Unfit::Told(NO_DRAWING)),
    }
}

// Returns the task of the form `without`.
fn without_in<'a>(
    alloc: Global,
    file: KeptFile<'a>,
    words: &ArgMatches<'a>,
) -> Result<Keeping<'a>, Unfit> {
    let versions = versions_in(alloc, words)?;
    let by = words.get_str("by");
    let since = words.get_one::<u32>("since");
    let is_evening = by.is_some() || since.is_some();
    if versions.is_empty() != is_evening {
        return Err(Unfit::Told(NO_CHOICE));
    }
    if is_evening {
        let first = since.unwrap_or(FIRST_VERSION);
        return Ok(Keeping::Since { file, first, by });
    }
    Ok(Keeping::Without { file, versions })
}

// Returns the task of the form `lines`.
fn lines_in<'a>(
    alloc: Global,
    file: KeptFile<'a>,
    words: &ArgMatches<'a>,
) -> Result<Keeping<'a>, Unfit> {
    let rooms = several(alloc, words, "ROOMS")?;
    let (here, next) = (words.get_one::<u32>("here"), words.get_one::<u32>("next"));
    if !rooms.is_empty() {
        return Ok(Keeping::Part {
            file,
            rooms,
            here: here.unwrap_or(NEW_HERE),
            next: next.unwrap_or(NEW_NEXT),
        });
    }
    match (here, next) {
        (None, None) => Ok(Keeping::Lines { file }),
        _ => Err(Unfit::Told(NO_PART)),
    }
}

// Returns the task that the matched words name.
fn keeping_in<'a>(alloc: Global, matches: &ArgMatches<'a>) -> Result<Keeping<'a>, Unfit> {
    let Some((name, words)) = form_in(matches) else {
        return Err(Unfit::Told(NO_WISH));
    };
    let Some(file) = file_in(name, words) else {
        return Err(Unfit::Told(NO_WISH));
    };
    match name {
        "compact" => Ok(Keeping::Compact {
            file,
            is_map: words.get_flag("map"),
        }),
        "map" => map_in(file, words),
        "survey" => survey_in(alloc, file, words),
        "without" => without_in(alloc, file, words),
        "lines" => lines_in(alloc, file, words),
        "diff" | "chain" => pair_in(name, file, words),
        _ => text_in(name, file, words),
    }
}

// Returns the comparison of two files that the words ask for.
fn pair_in<'a>(
    name: &str,
    old: KeptFile<'a>,
    words: &ArgMatches<'a>,
) -> Result<Keeping<'a>, Unfit> {
    match words.get_str("NEW") {
        Some(new) if name == "chain" => Ok(Keeping::Chain { old, new }),
        Some(new) => Ok(Keeping::Diff { old, new }),
        None => Err(Unfit::Told(NO_WISH)),
    }
}

// Returns the text that the words ask for.
fn text_in<'a>(
    name: &str,
    file: KeptFile<'a>,
    words: &ArgMatches<'a>,
) -> Result<Keeping<'a>, Unfit> {
    match wish_in(name, words) {
        Some(wish) => Ok(Keeping::Text { wish, file }),
        None => Err(Unfit::Told(NO_WISH)),
    }
}

// Returns the named form and its words.
fn form_in<'m, 'a>(matches: &'m ArgMatches<'a>) -> Option<(&'a str, &'m ArgMatches<'a>)> {
    let name = matches.subcommand_name()?;
    Some((name, matches.subcommand_matches(name)?))
}

/// Reads the words of `mud_keep`. The first word is the program's name.
pub fn keeping_of<'a>(alloc: Global, words: &'a [String]) -> Result<Keeping<'a>, CommandFault> {
    let mut matched = Matched::new(alloc, command(alloc), words)?;
    let task = keeping_in(alloc, &matched.words);
    matched.fit(alloc, ErrorKind::MissingSubcommand, task)
}

// Builds the `clap` command.
fn command<'a>(alloc: Global) -> Result<Command<'a>, AllocError> {
    let about = "Recovers, shortens, shows, surveys, compares and draws the history of a world";
    program_of(alloc, "mud_keep", about, forms())
}
