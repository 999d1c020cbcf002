//! Names of objects, and keys: the expressions of locks.
//!
//! An object has 1 to 4 names, read from a names text such as `brass key, key`. A lock holds a key, an expression over
//! objects such as `#4 || #1 && ?chest`. Keys are in the manner of LambdaCore. Their grammar, the limits and the rules
//! of names are this project's own profile, in docs/KEYS.md. [`limits`] has the limits as constants, and [`codes`] the
//! named bytes.
//!
//! | Call | What it does |
//! |---|---|
//! | [`Names::read`], [`Name::read`] | reads a names text, or a single name |
//! | [`Names::list`], [`Names::copy`] | returns the names, the shown one first; equal names that share the texts |
//! | [`Names::of`] | makes one name into names |
//! | [`parts`] | splits a text at its commas |
//! | [`read`] | reads a key text; its objects stay texts |
//! | [`resolve`] | replaces each text by the number of the object that a [`Namer`] returns |
//! | [`print()`] | prints a key with the fewest parentheses |
//! | [`atoms`], [`asks`] | lists the objects of a key, or those after `?` |
//! | [`Key::node`], [`KeyText::node`] | returns the tree, for a recursive descent |
//! | [`Key::copy`] | returns an equal key that shares the tree |
//!
//! ```text
//! let names = mud_key::Names::read(alloc, " brass key, key ")?;
//! names.list()[0]                                      // `brass key`
//! let text = mud_key::read(alloc, "#4||(#1 && ? #5)")?;
//! let key = mud_key::resolve(alloc, &text, &namer)?;
//! mud_key::print(alloc, &key)?                         // `#4 || (#1 && ?#5)`
//! mud_key::read(alloc, "#4 || #1x")                    // BadKey(8)
//! ```
//!
//! Proved: the readers accept exactly the names texts and the key texts within the limits, and return the names and the
//! tree of the definitions, which are unique. Each fault occurs exactly under its condition. The printed text is that
//! of the definition, has as few parentheses as any text of the key, and reads back as the key. The other calls return
//! what their definitions say. Out of memory is an error of its own, and leaves every argument unchanged. No call
//! recurses along a text from outside: the readers keep their stack on the heap.
#![tactic(auto)]

mod builder;
mod class;
pub mod codes;
mod commas;
mod draft;
mod front;
mod key;
mod key_fault;
mod key_text;
pub mod laws;
pub mod limits;
mod name;
mod name_reader;
mod namer;
mod names;
mod node;
mod operator;
mod printing;
mod scan;
mod stage;
mod texts;

pub use commas::parts;
pub use key::{Key, asks, atoms};
pub use key_fault::KeyFault;
pub use key_text::{KeyText, read};
pub use name::Name;
pub use namer::{Miss, Namer, resolve};
pub use names::{Names, NamesFault};
pub use node::Node;
pub use operator::Operator;
pub use printing::print;
