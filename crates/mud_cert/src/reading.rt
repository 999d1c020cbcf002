//! Reads the text of a certificate.

ghost use Rattle.std.specs.Prelude.{◌≡◌, ℕ, ◌++◌, ◌∷◌, IfOk, IfErr, IfSome, IfNone};
ghost use Rattle.mud_key.specs.declared.codes.TheConstants.{LF};
ghost use Rattle.mud_cert.specs.Certificate.{IsCertificate};
ghost use Rattle.mud_cert.specs.Text.{cert_text};
ghost use Rattle.mud_cert.specs.Faults.{IsBadLine};
ghost use Rattle.mud_key.specs.Lines.{HasNoLineFeed};

use crate::cert::Cert;
use crate::fault::CertFault;
use crate::stage::Stage;
use memchr::memchr;
use std::alloc::Global;

/// Returns the first line, without its LF, and the bytes after it.
fn first_line(bytes: &[u8]) -> Option<(&[u8], &[u8])>
    ensures found { IfSome result (λ s. HasNoLineFeed s.0.now × (bytes.now ≡ s.0.now ++ LF ∷ s.1.now)) }
    ensures none { IfNone result (HasNoLineFeed bytes.now) }
{
    let Some(at) = memchr(b'\n', bytes) else {
        return None;
    };
    let (line, ended) = bytes.split_at(at);
    Some((line, &ended[1..]))
}

/// Reads the text that [`Cert::write`] writes. Each certificate has one text, and each text belongs to at most one
/// certificate. For other bytes the error is the number of the first bad line. It reads each byte once.
pub fn read(alloc: Global, bytes: &[u8]) -> Result<Cert, CertFault>
    ensures found { IfOk result (λ c. IsCertificate c × (bytes.now ≡ cert_text c)) }
    ensures fault { IfErr result (λ fault. (n : ℕ) → fault ≡ CertFault.BadLine n → IsBadLine bytes.now n) }
{
    let mut stage = Stage::Nothing;
    let mut rest = bytes;
    let mut number = 1;
    while let Some((line, behind)) = first_line(rest) {
        let Some(next) = stage.next(alloc, line)? else {
            return Err(CertFault::BadLine(number));
        };
        stage = next;
        rest = behind;
        number += 1;
    }
    match stage {
        Stage::Whole(cert) => {
            if rest.is_empty() {
                Ok(cert)
            } else {
                Err(CertFault::BadLine(number))
            }
        }
        _ => Err(CertFault::BadLine(number)),
    }
}
