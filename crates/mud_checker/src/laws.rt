//! Laws of the definitions. Each contract is a law, and its function does nothing.

ghost use Rattle.mud_checker.specs.Laws.{FindsOne, DropsNothing};

use mud_cert::text_laws::{one_bad_line, one_certificate};
use mud_chron::laws::{no_text_with_a_fault, one_fault, one_history};

/// A text without a CR is read unchanged.
pub fn drops_nothing()
    ensures { DropsNothing }
{}

/// Two texts have at most one finding.
pub fn one_finding()
    ensures { FindsOne }
{
    one_history();
    one_fault();
    no_text_with_a_fault();
    one_certificate();
    one_bad_line();
}
