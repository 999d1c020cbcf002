//! Laws about the texts of certificates. Each contract is a law, and its function does nothing.

ghost use Rattle.mud_cert.specs.TextLaws.{OneCertificate, OneBadLine, EndsWithLf, HasNoReturn};

/// A text belongs to at most one certificate.
pub fn one_certificate()
    ensures { OneCertificate }
{}

/// A text has at most one bad line.
pub fn one_bad_line()
    ensures { OneBadLine }
{}

/// The text of a certificate ends with LF, so it is not empty.
pub fn ends_with_lf()
    ensures { EndsWithLf }
{}

/// The text of a certificate contains no CR.
pub fn no_return()
    ensures { HasNoReturn }
{}
