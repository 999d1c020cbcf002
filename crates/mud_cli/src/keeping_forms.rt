//! The forms of the command line of `mud_keep`.

use crate::argument::{Argument, FLAG, NUMBER, OPTION, PLACE, PLACES};
use crate::form::Form;

// Returns the forms of `mud_keep`.
pub(crate) fn forms() -> &'static [Form<'static>] {
    &FORMS
}

// The forms of `mud_keep`.
static FORMS: [Form<'static>; 10] = [
    Form {
        name: "recover",
        about: "Prints the history that a journal holds, with its end",
        arguments: &[RECOVERED, FRONT],
    },
    Form {
        name: "shorten",
        about: "Prints a shorter history of the same world",
        arguments: &[FILE, JOURNAL],
    },
    Form {
        name: "compact",
        about: "Prints a history of the same world but for its numbers, without those of what is gone",
        arguments: &[FILE, NUMBERS, JOURNAL],
    },
    Form {
        name: "show",
        about: "Prints the world as a table",
        arguments: &[FILE, JOURNAL],
    },
    Form {
        name: "map",
        about: "Prints the rooms and exits as a graph in DOT, or as a picture in SVG",
        arguments: &[FILE, PROOF, SVG, NEATO, JOURNAL],
    },
    Form {
        name: "survey",
        about: "Prints what players can't reach, and why",
        arguments: &[FILE, PLAYERS, JSON, PROOF_OF, JOURNAL],
    },
    Form {
        name: "diff",
        about: "Prints the differences of two worlds",
        arguments: &[OLD, NEW, JOURNALS],
    },
    Form {
        name: "chain",
        about: "Says whether a history continues another one, and at which version",
        arguments: &[OLD, NEW, JOURNALS],
    },
    Form {
        name: "without",
        about: "Prints the history without some of its changes",
        arguments: &[FILE, CHANGES, BY, SINCE, JOURNAL],
    },
    Form {
        name: "lines",
        about: "Prints lines that build the world, or some of its rooms, when a player types them",
        arguments: &[FILE, ROOMS, HERE, NEXT, JOURNAL],
    },
];

// The file to read.
const FILE: Argument = Argument {
    name: "FILE",
    is_required: true,
    help: "The file of a history; - is standard input",
    ..PLACE
};

// The file to recover.
const RECOVERED: Argument = Argument {
    help: "The file of a journal; - is standard input",
    ..FILE
};

// Says that the file is a journal.
const JOURNAL: Argument = Argument {
    name: "journal",
    help: "FILE is a journal: it has no last line, and its end may be torn",
    ..FLAG
};

// Says that both files are journals.
const JOURNALS: Argument = Argument {
    help: "Both files are journals",
    ..JOURNAL
};

// Says that the journal is damaged.
const FRONT: Argument = Argument {
    name: "front",
    help: "Only the lines before the first bad one, where the journal is damaged",
    ..FLAG
};

// Asks for the numbers instead of the history.
const NUMBERS: Argument = Argument {
    name: "map",
    help: "Prints the old and the new number of each object instead",
    ..FLAG
};

// The certificate to draw in the graph.
const PROOF: Argument = Argument {
    name: "PROOF",
    help: "The file of a certificate that is drawn in",
    ..PLACE
};

// Asks for a picture.
const SVG: Argument = Argument {
    name: "svg",
    help: "Prints a picture in SVG, laid out by the directions of exits",
    ..FLAG
};

// Asks for a graph with positions.
const NEATO: Argument = Argument {
    name: "neato",
    help: "Prints the graph with the positions of that picture, for neato -n",
    ..FLAG
};

// The players of a survey.
const PLAYERS: Argument = Argument {
    name: "PLAYERS",
    help: "The players of the survey, by name or as #N; all players if none is named",
    ..PLACES
};

// Says that a survey is for programs.
const JSON: Argument = Argument {
    name: "json",
    help: "Prints the survey in JSON",
    ..FLAG
};

// The room to which a way is certified.
const PROOF_OF: Argument = Argument {
    name: "proof",
    value: &["ROOM"],
    help: "Prints the certificate that the player has a way to this room, or has no way",
    ..OPTION
};

// The older file of a comparison.
const OLD: Argument = Argument {
    name: "OLD",
    help: "The file of the old history; - is standard input",
    ..FILE
};

// The newer file of a comparison.
const NEW: Argument = Argument {
    name: "NEW",
    help: "The file of the new history",
    ..FILE
};

// The changes to leave out.
const CHANGES: Argument = Argument {
    name: "CHANGES",
    help: "The versions of the changes to leave out",
    ..PLACES
};

// The player whose changes are left out.
const BY: Argument = Argument {
    name: "by",
    value: &["PLAYER"],
    help: "Leaves out the changes of this player",
    ..OPTION
};

// The first version to leave out.
const SINCE: Argument = Argument {
    name: "since",
    value: &["VERSION"],
    help: "Leaves out the changes from this version on",
    ..NUMBER
};

// The rooms to build.
const ROOMS: Argument = Argument {
    name: "ROOMS",
    help: "The rooms to build, by name or as #N; the whole world in a new one if none is named",
    ..PLACES
};

// The room in which the lines are typed.
const HERE: Argument = Argument {
    name: "here",
    help: "The number of the room where the lines are typed, which becomes the first; 0 in a new world",
    ..NUMBER
};

// The next number of the other world.
const NEXT: Argument = Argument {
    name: "next",
    help: "The number of the next object there; 2 in a new world",
    ..NUMBER
};
