//! Writes the text of a certificate.

ghost use Rattle.std.specs.Prelude.{◌≡◌, ◌++◌, OnOk, OnErr, option_map, string_bytes};
ghost use Rattle.std.specs.List.{flat_map};
ghost use Rattle.mud_cert.specs.Text.{text_of, head_line, entry_text};
ghost use Rattle.mud_cert.specs.inner.Lines.{with_line_feed, exit_text};
ghost use Rattle.mud_cert.specs.Text.{walk_line, member_lines, conclusion_line};
ghost use Rattle.mud_cert.specs.Text.{cert_lines, cert_text};

use crate::cert::{Cert, Conclusion, Form, Member};
use mud_roads::Label;
use std::alloc::{AllocError, Global};
use std::fmt::Write;

/// Appends a room and its label.
fn push_entry(out: &mut String, form: Form, room: u32, label: Label) -> Result<(), AllocError>
    ensures { OnOk result (string_bytes out.new ≡ string_bytes out.old ++ entry_text form (room, label)) }
{
    match form {
        Form::One => write!(out, " #{}:{}", room, label.cost),
        Form::Two => write!(out, " #{}:{}/{}", room, label.cost, label.exits),
    }
}

/// Appends rooms with their labels.
fn push_entries(out: &mut String, form: Form, labels: &[(u32, Label)]) -> Result<(), AllocError>
    ensures { OnOk result (string_bytes out.new ≡ string_bytes out.old ++ flat_map (entry_text form) labels.now) }
{
    for entry in labels {
        push_entry(out, form, entry.0, entry.1)?;
    }
    Ok(())
}

/// Appends exits.
fn push_exits(out: &mut String, exits: &[u32]) -> Result<(), AllocError>
    ensures { OnOk result (string_bytes out.new ≡ string_bytes out.old ++ flat_map exit_text exits.now) }
{
    for exit in exits {
        write!(out, " #{}", *exit)?;
    }
    Ok(())
}

/// Appends the line of a walk.
fn push_walk(out: &mut String, walk: &Option<Vec<u32>>) -> Result<(), AllocError>
    ensures { OnOk result (string_bytes out.new
        ≡ string_bytes out.old ++ with_line_feed (walk_line (option_map (λ w. w.items) walk.now))) }
{
    match walk {
        None => out.push_str("walk none\n"),
        Some(exits) => {
            if exits.is_empty() {
                out.push_str("walk nothing\n")
            } else {
                out.push_str("walk")?;
                push_exits(out, exits)?;
                out.push_str("\n")
            }
        }
    }
}

/// Appends the three lines of a member.
fn push_member(out: &mut String, form: Form, member: &Member) -> Result<(), AllocError>
    ensures { OnOk result (string_bytes out.new ≡ string_bytes out.old ++ text_of (member_lines form member.now)) }
{
    write!(out, "member #{} from #{}\n", member.player, member.from)?;
    out.push_str("labels")?;
    push_entries(out, form, &member.labels)?;
    out.push_str("\n")?;
    push_walk(out, &member.walk)
}

/// Appends the lines of the members.
fn push_members(out: &mut String, form: Form, members: &[Member]) -> Result<(), AllocError>
    ensures { OnOk result (string_bytes out.new
        ≡ string_bytes out.old ++ text_of (flat_map (member_lines form) members.now)) }
{
    for member in members {
        push_member(out, form, member)?;
    }
    Ok(())
}

/// Appends the line of a conclusion.
fn push_conclusion(out: &mut String, conclusion: Conclusion) -> Result<(), AllocError>
    ensures { OnOk result (string_bytes out.new ≡ string_bytes out.old ++ with_line_feed (conclusion_line conclusion)) }
{
    match conclusion {
        Conclusion::Route {
            to,
            cost: Some(cost),
        } => write!(out, "route #{} cost {}\n", to, cost),
        Conclusion::Route { to, cost: None } => write!(out, "route #{} no way\n", to),
        Conclusion::Meet(Some(meeting)) => {
            write!(out, "meet #{} cost {}\n", meeting.room, meeting.cost)
        }
        Conclusion::Meet(None) => out.push_str("meet none\n"),
    }
}

/// Appends the first line.
fn push_head(out: &mut String, form: Form) -> Result<(), AllocError>
    ensures { OnOk result (string_bytes out.new ≡ string_bytes out.old ++ with_line_feed (head_line form)) }
{
    match form {
        Form::One => out.push_str("mud proof 1\n"),
        Form::Two => out.push_str("mud proof 2\n"),
    }
}

/// Appends all the lines.
#[tactic(auto, unfolding(crate::specs::Text::cert_text, crate::specs::Text::cert_lines))]
fn push_cert(out: &mut String, cert: &Cert) -> Result<(), AllocError>
    ensures { OnOk result (string_bytes out.new ≡ string_bytes out.old ++ cert_text cert.now) }
{
    push_head(out, cert.form)?;
    write!(out, "version {}\n", cert.version)?;
    push_members(out, cert.form, &cert.members)?;
    push_conclusion(out, cert.conclusion)?;
    out.push_str("end\n")
}

impl Cert {
    /// Appends the certificate's text. Each line ends with LF, and numbers are decimal, without leading zeros:
    ///
    /// ```text
    /// mud proof 1             or 2, the form
    /// version V
    /// member #P from #F       these three lines for each member
    /// labels #R:C #R:C        rooms with their costs, in form two #R:C/E with their exits; they rise
    /// walk #X #X              or `walk nothing`, without exits, or `walk none`, with no walk given
    /// route #R cost C         or `route #R no way`, `meet #R cost C`, `meet none`
    /// end
    /// ```
    ///
    /// The only error is out of memory, and it leaves the text unchanged.
    pub fn write(&self, alloc: Global, out: &mut String) -> Result<(), AllocError>
        ensures done { OnOk result (string_bytes out.new ≡ string_bytes out.old ++ cert_text self.now) }
        ensures refused { OnErr result (string_bytes out.new ≡ string_bytes out.old) }
    {
        let mut text = String::new(alloc);
        push_cert(&mut text, self)?;
        out.push_str(&text)
    }
}
