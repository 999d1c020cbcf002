//! Certificates: the claims of the guide, in a form that can be checked without the guide.

ghost use Rattle.std.specs.Prelude.{◌≡◌, option_copied, option_map};
ghost use Rattle.mud_cert.specs.Certificate.{IsAccount, IsCertificate};

use mud_roads::Label;
use std::marker::Model;

/// The form of a certificate: how its labels count.
#[derive(Clone, Copy, Debug, PartialEq, Eq)]
pub enum Form {
    /// Costs only; each label has 0 exits.
    One,
    /// Costs, then exits.
    Two,
}

/// A meeting room, and the greatest of its members' costs.
#[derive(Clone, Copy, Debug, PartialEq, Eq)]
pub struct Meeting {
    /// The number of the room.
    pub room: u32,
    /// The greatest of the members' least costs.
    pub cost: u32,
}

/// The conclusion of a certificate.
#[derive(Clone, Copy, Debug, PartialEq, Eq)]
pub enum Conclusion {
    /// The least cost of a walk to a room, or `None` if no walk leads there.
    Route { to: u32, cost: Option<u32> },
    /// The meeting room of the party, or `None` if no room can be reached by all.
    Meet(Option<Meeting>),
}

/// The claims about one member of the party: its place, a label for each room that it reaches, and its walk, if one is
/// given. Object numbers are 0 to 8,191, costs and counts of exits at most 999,999,999, and labels are sorted by room.
#[derive(Drop)]
pub struct Member {
    pub(crate) player: u32,
    pub(crate) from: u32,
    pub(crate) labels: Vec<(u32, Label)>,
    pub(crate) walk: Option<Vec<u32>>,
}

impl Model for Member {
    ghost use Rattle.std.specs.Prelude.{option_map};
    ghost use Rattle.mud_cert.specs.Certificate.{Account, IsAccount};

    ghost Value = { Account };

    ghost view = { λ m. record {
      player = m.player;
      from = m.from;
      labels = m.labels.items;
      walk = option_map (λ w. w.items) m.walk;
    } };

    ghost invariant = { λ m. IsAccount (record {
      player = m.player;
      from = m.from;
      labels = m.labels.items;
      walk = option_map (λ w. w.items) m.walk;
    }) };
}

/// A certificate for a route or a meeting, in the world after `version` changes of a history (this project's profile;
/// labels are the dual variables of the textbook treatment of shortest paths). A route has one member, a meeting 2 to
/// 8.
#[derive(Drop)]
pub struct Cert {
    pub(crate) version: u32,
    pub(crate) form: Form,
    pub(crate) members: Vec<Member>,
    pub(crate) conclusion: Conclusion,
}

impl Model for Cert {
    ghost use Rattle.mud_cert.specs.Certificate.{Certificate, IsCertificate};

    ghost Value = { Certificate };

    ghost view = { λ c. record {
      version = c.version;
      form = c.form;
      members = c.members.items;
      conclusion = c.conclusion;
    } };

    ghost invariant = { λ c. IsCertificate (record {
      version = c.version;
      form = c.form;
      members = c.members.items;
      conclusion = c.conclusion;
    }) };
}

impl Member {
    /// Returns the part of one member: the player, its place, the labels of rooms, sorted by number, and its walk, exit
    /// by exit.
    pub fn new(player: u32, from: u32, labels: Vec<(u32, Label)>, walk: Option<Vec<u32>>) -> Member
        requires { IsAccount (record {
          player = player;
          from = from;
          labels = labels.items;
          walk = option_map (λ w. w.items) walk;
        }) }
        ensures { result ≡ record {
          player = player;
          from = from;
          labels = labels.items;
          walk = option_map (λ w. w.items) walk;
        } }
    {
        Member {
            player,
            from,
            labels,
            walk,
        }
    }

    /// Returns the number of the player.
    pub fn player(&self) -> u32
        ensures { result ≡ self.now.player }
    {
        self.player
    }

    /// Returns the room where the player stands.
    pub fn from(&self) -> u32
        ensures { result ≡ self.now.from }
    {
        self.from
    }

    /// Returns the rooms with their labels, sorted by number.
    pub fn labels(&self) -> &[(u32, Label)]
        ensures { result.now ≡ self.now.labels }
    {
        self.labels.as_slice()
    }

    /// Returns the exits of the walk, if one is given.
    pub fn walk(&self) -> Option<&[u32]>
        ensures { option_copied result ≡ self.now.walk }
    {
        match &self.walk {
            Some(exits) => Some(exits.as_slice()),
            None => None,
        }
    }
}

impl Cert {
    /// Returns a certificate for the world after `version` changes.
    pub fn new(version: u32, form: Form, members: Vec<Member>, conclusion: Conclusion) -> Cert
        requires { IsCertificate (record {
          version = version;
          form = form;
          members = members.items;
          conclusion = conclusion;
        }) }
        ensures { result ≡ record { version = version; form = form; members = members.items; conclusion = conclusion } }
    {
        Cert {
            version,
            form,
            members,
            conclusion,
        }
    }

    /// Returns the version of the world that it is about, at most 999,999,999.
    pub fn version(&self) -> u32
        ensures { result ≡ self.now.version }
    {
        self.version
    }

    /// Returns the form of its labels.
    pub fn form(&self) -> Form
        ensures { result ≡ self.now.form }
    {
        self.form
    }

    /// Returns the party, in order: one member for a route, 2 to 8 for a meeting.
    pub fn members(&self) -> &[Member]
        ensures { result.now ≡ self.now.members }
    {
        self.members.as_slice()
    }

    /// Returns the conclusion.
    pub fn conclusion(&self) -> Conclusion
        ensures { result ≡ self.now.conclusion }
    {
        self.conclusion
    }
}
