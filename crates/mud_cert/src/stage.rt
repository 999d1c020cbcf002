//! The meaning of the lines read so far, and the effect of one more line.

ghost use Rattle.std.specs.Prelude.{◌≡◌, ◌<◌, IfOk};
ghost use Rattle.mud_cert.specs.Certificate.{IsNumber, IsAccount};
ghost use Rattle.mud_cert.specs.inner.Opening.{IsOpening};
ghost use Rattle.mud_cert.specs.inner.Reader.{member_at, conclusion_at};
ghost use Rattle.mud_cert.specs.inner.Stages.{IsStage, suits, conclude, join, next};

use crate::cert::{Cert, Conclusion, Form, Member};
use crate::lines::{conclusion_of, head_of, labels_of, member_of, says, version_of, walk_of};
use mud_world::limits::MOST_PARTY;
use std::alloc::{AllocError, Global};
use std::marker::Model;

/// The members of a certificate that were read so far.
#[derive(Drop)]
pub struct Party {
    form: Form,
    version: u32,
    members: Vec<Member>,
}

impl Model for Party {
    ghost use Rattle.mud_cert.specs.inner.Opening.{Opening};

    ghost Value = { Opening };

    ghost view = { λ p. record { form = p.form; version = p.version; members = p.members.items } };
}

/// The meaning of the lines read so far.
#[derive(Drop)]
pub enum Stage {
    /// No line was read.
    Nothing,
    /// The first line.
    Headed(Form),
    /// Two lines, and three for each member, were read.
    Open(Party),
    /// Then a player and its place.
    Placed(Party, u32, u32),
    /// Then the player's labels. The member has them, and no walk yet.
    Labelled(Party, Member),
    /// All lines but the last were read.
    Concluded(Cert),
    /// All lines were read.
    Whole(Cert),
}

/// Returns whether a conclusion is possible for this many members.
fn suits(count: usize, conclusion: Conclusion) -> bool
    ensures { result ≡ suits count conclusion }
{
    match conclusion {
        Conclusion::Route { .. } => count == 1,
        Conclusion::Meet(_) => 2 <= count && count <= MOST_PARTY,
    }
}

impl Party {
    /// Returns the stage after the line of a conclusion.
    #[tactic(auto, unfolding(crate::specs::inner::Stages::conclude))]
    fn conclude(self, line: &[u8]) -> Option<Stage>
        requires { IsOpening self }
        ensures { result ≡ conclude self (conclusion_at line.now) }
    {
        let conclusion = conclusion_of(line)?;
        if suits(self.members.len(), conclusion) {
            Some(Stage::Concluded(Cert::new(self.version, self.form, self.members, conclusion)))
        } else {
            None
        }
    }

    /// Returns the stage after a member's first line, or after a conclusion.
    #[tactic(auto, unfolding(crate::specs::inner::Stages::join))]
    fn join(self, line: &[u8]) -> Option<Stage>
        requires { IsOpening self }
        ensures { result ≡ join self (member_at line.now) line.now }
    {
        match member_of(line) {
            None => self.conclude(line),
            Some((player, from)) => {
                if self.members.len() < MOST_PARTY {
                    Some(Stage::Placed(self, player, from))
                } else {
                    None
                }
            }
        }
    }

    /// Returns the stage after a member's second line.
    #[tactic(auto, unfolding(crate::specs::inner::Stages::next))]
    fn label(
        self,
        alloc: Global,
        player: u32,
        from: u32,
        line: &[u8],
    ) -> Result<Option<Stage>, AllocError>
        requires { IsNumber player × IsNumber from }
        ensures { IfOk result (λ s. s ≡ next (Stage.Placed self player from) line.now) }
    {
        match labels_of(alloc, self.form, line)? {
            Some(labels) => {
                let member = Member::new(player, from, labels, None);
                Ok(Some(Stage::Labelled(self, member)))
            }
            None => Ok(None),
        }
    }

    /// Returns the stage after a member's third line.
    #[tactic(auto, unfolding(crate::specs::inner::Stages::next))]
    fn walk(self, alloc: Global, member: Member, line: &[u8]) -> Result<Option<Stage>, AllocError>
        requires { IsAccount member }
        ensures { IfOk result (λ s. s ≡ next (Stage.Labelled self member) line.now) }
    {
        let Some(walk) = walk_of(alloc, line)? else {
            return Ok(None);
        };
        let mut members = self.members;
        members.push(Member::new(member.player, member.from, member.labels, walk))?;
        Ok(Some(Stage::Open(Party {
            form: self.form,
            version: self.version,
            members,
        })))
    }
}

/// Returns the stage after the first line.
#[tactic(auto, unfolding(crate::specs::inner::Stages::next))]
fn head(line: &[u8]) -> Option<Stage>
    ensures { result ≡ next Stage.Nothing line.now }
{
    let form = head_of(line)?;
    Some(Stage::Headed(form))
}

/// Returns the stage after the second line.
#[tactic(auto, unfolding(crate::specs::inner::Stages::next))]
fn open(alloc: Global, form: Form, line: &[u8]) -> Option<Stage>
    ensures { result ≡ next (Stage.Headed form) line.now }
{
    let version = version_of(line)?;
    Some(Stage::Open(Party {
        form,
        version,
        members: Vec::new(alloc),
    }))
}

/// Returns the stage after the last line.
#[tactic(auto, unfolding(crate::specs::inner::Stages::next))]
fn end(cert: Cert, line: &[u8]) -> Option<Stage>
    ensures { result ≡ next (Stage.Concluded cert) line.now }
{
    if says(line, b"end") {
        Some(Stage::Whole(cert))
    } else {
        None
    }
}

impl Stage {
    /// Returns the stage after one more line, or nothing if no certificate continues this way.
    #[tactic(auto, unfolding(crate::specs::inner::Stages::next, crate::specs::inner::Stages::IsStage))]
    pub fn next(self, alloc: Global, line: &[u8]) -> Result<Option<Stage>, AllocError>
        requires { IsStage self }
        ensures { IfOk result (λ s. s ≡ next self line.now) }
    {
        match self {
            Stage::Nothing => Ok(head(line)),
            Stage::Headed(form) => Ok(open(alloc, form, line)),
            Stage::Open(party) => Ok(party.join(line)),
            Stage::Placed(party, player, from) => party.label(alloc, player, from, line),
            Stage::Labelled(party, member) => party.walk(alloc, member, line),
            Stage::Concluded(cert) => Ok(end(cert, line)),
            Stage::Whole(_) => Ok(None),
        }
    }
}
