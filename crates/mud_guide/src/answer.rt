//! The guide's answers.

ghost use Rattle.std.specs.Prelude.{◌≤◌};
ghost use Rattle.mud_world.specs.declared.limits.TheConstants.{MOST_ENTRIES};

use mud_cert::Cert;

/// An answer of the guide: the version of its world, its text, and the certificate that proves it optimal.
#[derive(Drop)]
pub struct Answer {
    /// The number of changes of the world that it is about: at most 65,536.
    pub version: u32,
    /// The text; LF separates its lines.
    pub text: String,
    /// The certificate that proves it optimal.
    pub cert: Option<Cert>,
    ghost few: { version ≤ MOST_ENTRIES },
}
