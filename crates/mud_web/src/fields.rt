//! Finds the fields of a head by name.

ghost use Rattle.std.specs.Prelude.{◌≡◌, ◌↔◌, ◌++◌, ◌∷◌, ℕ, List, [], length, All, IsTrue, codes, true};
ghost use Rattle.std.specs.List.{list_any};
ghost use Rattle.httparse.specs.Spans.{IsHeaderWithin, header_bytes};
ghost use Rattle.websocket.specs.Headers.{fields_of, eq_ignore_case};
ghost use Rattle.mud_web.specs.Fields.{values, trim, members_of, has_member};
ghost use Rattle.mud_web.specs.inner.Found.{IsFound};

use httparse::spans::HeaderSpan;

/// The result of looking for a field.
#[derive(Clone, Copy)]
pub enum Found<'b> {
    /// No field has the name.
    Nothing,
    /// One field has the name, and this is its value.
    One(&'b [u8]),
    /// Several fields have the name.
    Several,
}

/// Finds the field with this name, ignoring case.
pub fn find<'b>(head: &'b [u8], spans: &[HeaderSpan], name: &[u8]) -> Found<'b>
    requires { All (IsHeaderWithin (length head.now)) spans.now }
    ensures { IsFound result (values (fields_of head.now spans.now) name.now) }
{
    let mut found = Found::Nothing;
    for header in spans {
        found = see(found, head, header, name);
    }
    found
}

/// Returns whether exactly one field has the name, and has this value.
pub fn is_one(found: Found<'_>, wanted: &[u8]) -> bool
    ensures { (values : List (List ℕ)) → IsFound found.entry values
        → IsTrue result ↔ (values ≡ wanted.now ∷ []) }
{
    match found {
        Found::One(value) => value == wanted,
        Found::Nothing | Found::Several => false,
    }
}

// Returns the result after one more field.
fn see<'b>(found: Found<'b>, head: &'b [u8], header: &HeaderSpan, name: &[u8]) -> Found<'b>
    requires { IsHeaderWithin (length head.now) header.now }
    ensures { (before : List (List ℕ)) → IsFound found.entry before
        → IsFound result (before ++ values (header_bytes head.now header.now ∷ []) name.now) }
{
    if is_named(header.name.of(head), name) {
        after(found, header.value.of(head))
    } else {
        found
    }
}

// Returns the result after one more field with the name.
fn after<'b>(found: Found<'_>, value: &'b [u8]) -> Found<'b>
    ensures { (before : List (List ℕ)) → IsFound found.entry before
        → IsFound result (before ++ value.now ∷ []) }
{
    match found {
        Found::Nothing => Found::One(value),
        Found::One(_) | Found::Several => Found::Several,
    }
}

/// Returns whether the list in the fields with this name has this member, ignoring case (RFC 9110, section 5.6.1).
/// Several fields form one list (section 5.3).
pub fn has_member(head: &[u8], spans: &[HeaderSpan], name: &[u8], wanted: &[u8]) -> bool
    requires { All (IsHeaderWithin (length head.now)) spans.now }
    ensures { result ≡ has_member (fields_of head.now spans.now) name.now wanted.now }
{
    let mut has = false;
    for header in spans {
        has |= is_listed_in(head, header, name, wanted);
    }
    has
}

// Returns whether a field has this name and this member.
fn is_listed_in(head: &[u8], header: &HeaderSpan, name: &[u8], wanted: &[u8]) -> bool
    requires { IsHeaderWithin (length head.now) header.now }
    ensures { result ≡ has_member (header_bytes head.now header.now ∷ []) name.now wanted.now }
{
    is_named(header.name.of(head), name) && is_listed(header.value.of(head), wanted)
}

// Returns whether a list has this member.
fn is_listed(value: &[u8], wanted: &[u8]) -> bool
    ensures { result ≡ list_any (λ m. eq_ignore_case m wanted.now) (members_of value.now) }
{
    value
        .split(|byte| *byte == b',')
        .any(|member| is_named(trimmed(member), wanted))
}

// Returns a text without the white space at both ends.
fn trimmed(text: &[u8]) -> &[u8]
    ensures { result.now ≡ trim text.now }
{
    text.trim_ascii()
}

// Returns whether the two names are equal, ignoring case.
fn is_named(name: &[u8], wanted: &[u8]) -> bool
    ensures { result ≡ eq_ignore_case name.now wanted.now }
{
    name.eq_ignore_ascii_case(wanted)
}
