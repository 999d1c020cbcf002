//! Answers that consist of lines: a history's, or a certificate's.

ghost use Rattle.std.specs.Prelude.{◌≡◌, ◌≤◌, ◌++◌, [], ◌∷◌, List, ℕ, IfOk, codes, length, string_bytes};
ghost use Rattle.mud_world.specs.declared.limits.TheConstants.{MOST_ENTRIES};
ghost use Rattle.mud_key.specs.declared.codes.TheConstants.{LF};
ghost use Rattle.mud_chron.specs.inner.Texts.{written_text};
ghost use Rattle.mud_cert.specs.Text.{cert_text};

use mud_cert::Cert;
use mud_cert::text_laws::ends_with_lf;
use mud_chron::{Entry, write_history};
use mud_row::{Replica, Row};
use std::alloc::{AllocError, Global};

/// Returns the answer to `@history`: the word, and the lines of the history text, the last without its end.
pub(crate) fn history_answer(alloc: Global, history: &[Entry]) -> Result<String, AllocError>
    requires { length history.now ≤ MOST_ENTRIES }
    ensures { IfOk result (λ text. string_bytes text ++ codes "\n" ≡ codes "history\n" ++ written_text history.now) }
{
    let mut text = String::from_str(alloc, "history\n")?;
    write_history(alloc, history, &mut text)?;
    Ok(without_last_line_end(text))
}

/// Returns the answer to `@history`, written from the entries that a replica knows. They are not copied, and the
/// replica is unchanged.
pub(crate) fn known_answer(
    alloc: Global,
    row: &Row,
    replica: &mut Replica,
) -> Result<String, AllocError>
    requires { replica.old.row ≡ row.now }
    ensures same { replica.new ≡ replica.old }
    ensures text { IfOk result
        (λ text. string_bytes text ++ codes "\n" ≡ codes "history\n" ++ written_text replica.old.list) }
{
    let mut text = String::from_str(alloc, "history\n")?;
    replica.write_text(alloc, row, &mut text)?;
    Ok(without_last_line_end(text))
}

/// Returns the answer to `proof`: the word, and the lines of the certificate, the last without its end.
pub(crate) fn proof_answer(alloc: Global, cert: &Cert) -> Result<String, AllocError>
    ensures { IfOk result (λ text. string_bytes text ++ codes "\n" ≡ codes "proof\n" ++ cert_text cert.now) }
{
    let mut text = String::from_str(alloc, "proof\n")?;
    cert.write(alloc, &mut text)?;
    // for the prover: the law that the text of a certificate ends with LF
    ends_with_lf();
    Ok(without_last_line_end(text))
}

// Returns the text without the LF that ends its last line.
fn without_last_line_end(text: String) -> String
    requires { (front : List ℕ) × (string_bytes text ≡ front ++ LF ∷ []) }
    ensures { string_bytes result ++ codes "\n" ≡ string_bytes text }
{
    let mut text = text;
    let _ = text.pop();
    text
}
