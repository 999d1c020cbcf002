//! Reads a history and draws a picture of its world.

ghost use Rattle.std.specs.Prelude.{ℕ, IfErr};
ghost use Rattle.mud_compact.specs.Answer.{KeepsNoWorld};

use crate::drawing::svg_of;
use crate::graph::graph_of;
use mud_chron::replay;
use mud_compact::{KeptFault, TextKind, read_kept};
use mud_world::World;
use std::alloc::Global;

/// The form of a picture.
#[derive(Clone, Copy, Debug, PartialEq, Eq)]
pub enum PictureForm {
    /// SVG, for browsers.
    Svg,
    /// DOT with positions, for `neato -n`.
    Graph,
}

/// The picture of a world.
#[derive(Drop)]
pub struct PictureText {
    /// The text, in the form that was asked for.
    pub text: String,
    /// The number of torn bytes at the end of a journal; `None` for a history.
    pub torn: Option<usize>,
}

// Reads the world of a history or a journal, and counts the torn bytes at the end of a journal.
fn read_world(
    alloc: Global,
    kind: TextKind,
    bytes: &[u8],
) -> Result<(World, Option<usize>), KeptFault>
    ensures err { IfErr result (KeepsNoWorld kind bytes.now) }
{
    let kept = read_kept(alloc, kind, bytes)?;
    Ok((replay(alloc, &kept.entries)?, kept.torn))
}

/// Returns the picture of the world of a history or a journal, as `kind` says (docs/KEEPING.md, "Map").
pub fn picture_of(
    alloc: Global,
    kind: TextKind,
    form: PictureForm,
    bytes: &[u8],
) -> Result<PictureText, KeptFault>
    ensures err { IfErr result (KeepsNoWorld kind bytes.now) }
{
    let (world, torn) = read_world(alloc, kind, bytes)?;
    let text = match form {
        PictureForm::Svg => svg_of(alloc, &world)?,
        PictureForm::Graph => graph_of(alloc, &world)?,
    };
    Ok(PictureText { text, torn })
}
