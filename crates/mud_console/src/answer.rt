//! Answers to the host.

ghost use Rattle.std.specs.Prelude.{◌≡◌, [], OnOk, IfOk, string_bytes};

use std::alloc::{AllocError, Global};
use std::marker::Model;

/// An answer under construction: its lines so far.
#[derive(Drop)]
pub struct Answer {
    text: String,
}

impl Model for Answer {
    ghost use Rattle.std.specs.Prelude.{ℕ, List, string_bytes};

    ghost Value = { List ℕ };

    ghost view = { λ a. string_bytes a.text };
}

impl Answer {
    ghost use Rattle.mud_console.specs.Answer.{with_line, with_ok, with_error};

    /// Returns an answer without a line.
    pub fn new(alloc: Global) -> Answer
        ensures { result ≡ [] }
    {
        Answer {
            text: String::new(alloc),
        }
    }

    /// Appends a line. The only error is out of memory.
    pub fn line(&mut self, line: &str) -> Result<(), AllocError>
        ensures { OnOk result (self.new ≡ with_line self.old line.now) }
    {
        self.text.push_str(line)?;
        self.text.push('\n')
    }

    /// Returns the text of a request that was carried out: the last line is `ok`. The only error is out of memory.
    pub fn ok(mut self) -> Result<String, AllocError>
        ensures { IfOk result (λ text. string_bytes text ≡ with_ok self) }
    {
        self.text.push_str("ok\n")?;
        Ok(self.text)
    }

    /// Returns the text of a request that failed: the last line is `error` and the reason. The only error is out of
    /// memory.
    pub fn error(mut self, why: &str) -> Result<String, AllocError>
        ensures { IfOk result (λ text. string_bytes text ≡ with_error self why.now) }
    {
        self.text.push_str("error ")?;
        self.text.push_str(why)?;
        self.text.push('\n')?;
        Ok(self.text)
    }
}
