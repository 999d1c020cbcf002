//! The kinds of text that `mud_explain` reads.

/// The subject that `mud_explain` shows of its input.
#[derive(Clone, Copy)]
pub enum Subject {
    /// The units of a Telnet stream.
    Units,
    /// The reading of each line.
    Lines(Reading),
}

/// How to read a line.
#[derive(Clone, Copy)]
pub enum Reading {
    /// As words.
    Words,
    /// As a command: verb, objects, preposition and rest.
    Parse,
    /// As the names of an object.
    Names,
    /// As a key.
    Key,
}

// Returns the subject with this name.
pub(crate) fn subject_named(name: &str) -> Option<Subject> {
    match name {
        "units" => Some(Subject::Units),
        "words" => Some(Subject::Lines(Reading::Words)),
        "parse" => Some(Subject::Lines(Reading::Parse)),
        "names" => Some(Subject::Lines(Reading::Names)),
        "key" => Some(Subject::Lines(Reading::Key)),
        _ => None,
    }
}
