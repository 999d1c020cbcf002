//! The settings file: the options of `mud_serve listen` in TOML.

use crate::argument::Argument;
use crate::fault::CommandFault;
use crate::listen::{CHECK, CONFIG};
use crate::service::{LISTENING, forms};
use clap::ArgAction;
use clap::builder::ValueParser;
use std::alloc::{AllocError, Global};
use toml::{Table, Value, table_from_str};

// Returns the name of the option in a word of the command line.
fn option_of(word: &str) -> Option<&str> {
    let option = word.strip_prefix("--")?;
    match option.split_once('=') {
        Some((name, _)) => Some(name),
        None => Some(option),
    }
}

// Returns the text after `=` in a word of the command line.
fn value_of(word: &str) -> Option<&str> {
    match word.split_once('=') {
        Some((_, value)) => Some(value),
        None => None,
    }
}

/// Returns the settings file that the words of `mud_serve listen` name, if they name one.
pub fn config_in(words: &[String]) -> Option<&str> {
    if words.get(1)?.as_str() != LISTENING {
        return None;
    }
    let at = words
        .iter()
        .position(|word| option_of(word.as_str()) == Some(CONFIG))?;
    match value_of(words.get(at)?.as_str()) {
        Some(value) => Some(value),
        None => match words.get(at.checked_add(1)?) {
            Some(value) => Some(value.as_str()),
            None => None,
        },
    }
}

// Returns whether the command line has this option.
fn has_option(words: &[String], name: &str) -> bool {
    words
        .iter()
        .any(|word| option_of(word.as_str()) == Some(name))
}

// Returns the line number of the setting with this name, or 0 if it can't be found.
fn line_of(text: &str, name: &str) -> usize {
    let mut number = 0usize;
    for line in text.split('\n') {
        number = number.saturating_add(1);
        if let Some(rest) = line.trim_start().strip_prefix(name)
            && rest.trim_start().starts_with('=')
        {
            return number;
        }
    }
    0
}

// Returns the message about a wrong setting: its file and line, its name, and the values that it may have.
fn bad_setting(alloc: Global, place: &Place<'_>, name: &str, wanted: &str) -> CommandFault {
    let (file, line) = (place.file, line_of(place.text, name));
    match format!(in alloc; "error: {file}, line {line}: `{name}`: {wanted}\n") {
        Ok(text) => CommandFault::Told(text),
        Err(AllocError) => CommandFault::OutOfMemory,
    }
}

// The settings file, and its text.
#[derive(Clone, Copy)]
struct Place<'a> {
    file: &'a str,
    text: &'a str,
}

// Returns the option with this name, if a settings file may have it.
fn argument_of(name: &str) -> Option<&'static Argument<'static>> {
    if name == CONFIG || name == CHECK {
        return None;
    }
    let form = forms().iter().find(|form| form.name == LISTENING)?;
    form.arguments.iter().find(|argument| argument.name == name)
}

// Returns the word of the command line that a setting stands for; a setting `false` needs none.
fn word_of(alloc: Global, argument: &Argument<'_>, value: &Value) -> Result<Option<String>, Unfit> {
    let name = argument.name;
    match argument.parser {
        ValueParser::Signed(least, most) => number_word(alloc, name, value, least, most),
        _ if matches!(argument.action, ArgAction::SetTrue) => flag_word(alloc, name, value),
        _ => text_word(alloc, name, value),
    }
}

// Returns the word for a number within these bounds.
fn number_word(
    alloc: Global,
    name: &str,
    value: &Value,
    least: i64,
    most: i64,
) -> Result<Option<String>, Unfit> {
    match value.as_integer() {
        Some(number) if least <= number && number <= most => {
            Ok(Some(format!(in alloc; "--{name}={number}")?))
        }
        _ => Err(Unfit::Number(least, most)),
    }
}

// Returns the word for a flag, if it is set.
fn flag_word(alloc: Global, name: &str, value: &Value) -> Result<Option<String>, Unfit> {
    match value.as_bool() {
        Some(true) => Ok(Some(format!(in alloc; "--{name}")?)),
        Some(false) => Ok(None),
        None => Err(Unfit::Bool),
    }
}

// Returns the word for a text.
fn text_word(alloc: Global, name: &str, value: &Value) -> Result<Option<String>, Unfit> {
    match value.as_str() {
        Some(text) => Ok(Some(format!(in alloc; "--{name}={text}")?)),
        None => Err(Unfit::Text),
    }
}

// The reason why a value is wrong: the values that the setting may have.
#[derive(Clone, Copy)]
enum Unfit {
    OutOfMemory,
    Number(i64, i64),
    Bool,
    Text,
}

impl From<AllocError> for Unfit {
    fn from(_: AllocError) -> Unfit {
        Unfit::OutOfMemory
    }
}

// Returns the message about a wrong value.
fn unfit_value(alloc: Global, place: &Place<'_>, name: &str, unfit: Unfit) -> CommandFault {
    match unfit {
        Unfit::OutOfMemory => CommandFault::OutOfMemory,
        Unfit::Bool => bad_setting(alloc, place, name, "true or false"),
        Unfit::Text => bad_setting(alloc, place, name, "a text in quotes"),
        Unfit::Number(least, most) => {
            match format!(in alloc; "a whole number from {least} to {most}") {
                Ok(wanted) => bad_setting(alloc, place, name, wanted.as_str()),
                Err(AllocError) => CommandFault::OutOfMemory,
            }
        }
    }
}

// Parses a settings file.
fn table_of(alloc: Global, place: &Place<'_>) -> Result<Table, CommandFault> {
    match table_from_str(alloc, place.text) {
        Ok(table) => Ok(table),
        Err(error) if error.is_memory() => Err(CommandFault::OutOfMemory),
        Err(error) => {
            let file = place.file;
            match format!(in alloc; "error: {file}: {error}") {
                Ok(text) => Err(CommandFault::Told(text)),
                Err(AllocError) => Err(CommandFault::OutOfMemory),
            }
        }
    }
}

// Returns copies of the words.
fn copied(alloc: Global, words: &[String]) -> Result<Vec<String>, AllocError> {
    let mut all = Vec::new(alloc);
    for word in words {
        all.push(word.clone()?)?;
    }
    Ok(all)
}

/// Returns the words of the command line, followed by those of the settings file that the command line does not have.
/// The error names the line of an unknown setting or of a wrong value.
pub fn with_config(
    alloc: Global,
    words: &[String],
    file: &str,
    text: &str,
) -> Result<Vec<String>, CommandFault> {
    let place = Place { file, text };
    let table = table_of(alloc, &place)?;
    let Ok(mut all) = copied(alloc, words) else {
        return Err(CommandFault::OutOfMemory);
    };
    for (name, value) in table.iter() {
        let name = name.as_str();
        let Some(argument) = argument_of(name) else {
            return Err(bad_setting(alloc, &place, name, "there is no such setting"));
        };
        match word_of(alloc, argument, value) {
            Ok(Some(word)) if !has_option(words, name) => {
                if all.push(word).is_err() {
                    return Err(CommandFault::OutOfMemory);
                }
            }
            Ok(_) => {}
            Err(unfit) => return Err(unfit_value(alloc, &place, name, unfit)),
        }
    }
    Ok(all)
}
