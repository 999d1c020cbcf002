//! Formats of a history's text.

ghost use Rattle.std.specs.Prelude.{◌≡◌, ◌++◌};
ghost use Rattle.mud_chron.specs.Text.{line_feed, head_line};

/// The two formats of a history's text (docs/HISTORY.md, "Formats").
#[derive(Clone, Copy, Debug, PartialEq, Eq)]
pub enum Format {
    /// `mud history 1`, in which no exit costs 0. It is only read.
    One,
    /// `mud history 2`, the format that is written.
    Two,
}

impl Format {
    /// Returns the first line of a text in this format, with its line end.
    pub fn first_line(self) -> &'static str
        ensures { result.now ≡ head_line self ++ line_feed }
    {
        match self {
            Format::One => "mud history 1\n",
            Format::Two => "mud history 2\n",
        }
    }
}
