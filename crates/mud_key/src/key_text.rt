//! Keys as they are written.

ghost use Rattle.std.specs.Prelude.{◌≡◌};
ghost use Rattle.mud_key.specs.Tree.{IsWithinLimits};
ghost use Rattle.mud_key.specs.Node.{reading_of};
ghost use Rattle.mud_key.specs.KeyText.{ReadsAs};
ghost use Rattle.mud_key.specs.Finds.{FindsKey};

use crate::builder::build;
use crate::key_fault::KeyFault;
use crate::limits::{MOST_NOTS, MOST_OBJECTS};
use crate::node::Node;
use crate::scan::scan_text;
use std::alloc::Global;
use std::marker::Model;

/// A key as it was written: its objects are texts. It has at most 16 objects and 64 `!` (docs/KEYS.md, "Keys"). A
/// contract sees its tree.
#[derive(Drop)]
pub struct KeyText {
    tree: Node<String>,
}

impl Model for KeyText {
    ghost use Rattle.std.specs.Prelude.{ℕ, List};
    ghost use Rattle.mud_key.specs.Tree.{Tree, IsWithinLimits};
    ghost use Rattle.mud_key.specs.TreeCode.{coded_text_tree};
    ghost use Rattle.mud_key.specs.Node.{reading_of};

    ghost Value = { Tree (List ℕ) };

    ghost coded = { coded_text_tree };

    ghost view = { λ k. reading_of k.tree };

    ghost invariant = { λ k. IsWithinLimits (reading_of k.tree) };
}

impl KeyText {
    /// Returns the root of the tree, for a recursive descent. Its objects are the texts as they were written, without
    /// spaces at their ends: `#` and digits, or a name.
    pub fn node(&self) -> &Node<String>
        ensures node { reading_of result.now ≡ self.now }
        ensures limits { IsWithinLimits self.now }
    {
        &self.tree
    }
}

/// Reads a key text, and accepts exactly those within the limits. A text that is not a key text gives `BadKey`,
/// whatever its counts; a key text beyond the limits gives `TooManyAtoms` (docs/KEYS.md, "Keys" and "Faults"). The time
/// is linear in the text, even for a million `(`.
pub fn read(alloc: Global, text: &str) -> Result<KeyText, KeyFault>
    ensures reads { ReadsAs text.now result }
    ensures finds { FindsKey text.now result }
{
    read_text(alloc, text)
}

fn read_text(alloc: Global, text: &str) -> Result<KeyText, KeyFault>
    ensures { ReadsAs text.now result }
{
    let bytes = text.as_bytes();
    let counts = match scan_text(bytes) {
        Ok(counts) => counts,
        Err(at) => return Err(KeyFault::BadKey(at)),
    };
    if counts.objects > MOST_OBJECTS {
        return Err(KeyFault::TooManyAtoms);
    }
    if counts.nots > MOST_NOTS {
        return Err(KeyFault::TooManyAtoms);
    }
    match build(alloc, bytes)? {
        Some(tree) => Ok(KeyText { tree }),
        None => unreachable!(),
    }
}
