//! The settings file.

use crate::stop::Stop;
use mud_cli::{CommandFault, config_in, with_config, words_of};
use std::fs::{self, File};
use std::io::ErrorKind;
use std::rt::{Env, Files};

/// The reason why there are no words: they name no task, or the settings file can't be read.
pub enum Unsettled {
    Words(CommandFault),
    File(Stop),
}

/// Returns the words of the command line, with those of the settings file if they name one.
pub fn settled<R: Env + Files<File = File> + AllocGlobal>(
    rt: &R,
) -> Result<Vec<String>, Unsettled> {
    let words = words_of(rt).map_err(Unsettled::Words)?;
    let Some(file) = config_in(&words) else {
        return Ok(words);
    };
    let text = match fs::read_to_string(rt, file) {
        Ok(text) => text,
        Err(error) => {
            return Err(Unsettled::File(match error.kind() {
                ErrorKind::OutOfMemory => Stop::OutOfMemory,
                kind => Stop::Settings(kind),
            }));
        }
    };
    with_config(rt.alloc(), &words, file, text.as_str()).map_err(Unsettled::Words)
}
