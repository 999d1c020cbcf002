//! Writes a graph as text.

ghost use Rattle.std.specs.Prelude.{◌≡◌, ◌++◌, [], IfOk, OnOk};
ghost use Rattle.std.specs.Fmt.{decimal};
ghost use Rattle.std.specs.List.{flat_map};
ghost use Rattle.std.specs.Option.{option_map_or};
ghost use Rattle.mud_world.specs.State.{record_at};
ghost use Rattle.mud_key.specs.Printed.{number_text};
ghost use Rattle.mud_map.specs.Map.{title_text, lock_text, cost_text, label_text, room_text, exit_text};
ghost use Rattle.mud_map.specs.Map.{meeting_text, label_part, walks, is_walked, walk_text, ends_text, node_text};
ghost use Rattle.mud_map.specs.Map.{edge_text, node_of, edge_of, map_text, meeting_of, drawing_of, blank};

use crate::quoted::push_quoted;
use itoa::Buffer;
use mud_cert::{Cert, Conclusion, Member};
use mud_key::{Key, print};
use mud_roads::Label;
use mud_world::{Kind, Passage, Record, World};
use std::alloc::{AllocError, Global};
use std::marker::Model;

fn push(out: &mut Vec<u8>, text: &str) -> Result<(), AllocError>
    ensures { OnOk result (out.new.items ≡ out.old.items ++ text.now) }
{
    out.extend_from_slice(text.as_bytes())
}

fn push_decimal(out: &mut Vec<u8>, number: u32) -> Result<(), AllocError>
    ensures { OnOk result (out.new.items ≡ out.old.items ++ decimal number) }
{
    push(out, Buffer::new().format(number))
}

fn push_number(out: &mut Vec<u8>, number: u32) -> Result<(), AllocError>
    ensures { OnOk result (out.new.items ≡ out.old.items ++ number_text number) }
{
    push(out, "#")?;
    push_decimal(out, number)
}

// Appends the first name of an object, and its number.
fn push_title(out: &mut Vec<u8>, number: u32, kept: &Record) -> Result<(), AllocError>
    ensures { OnOk result (out.new.items ≡ out.old.items ++ title_text number kept.now) }
{
    push(out, &kept.names.list()[0])?;
    push(out, " ")?;
    push_number(out, number)
}

// Appends the style of a locked object: dashed, with its key as a tooltip.
fn push_lock(alloc: Global, out: &mut Vec<u8>, key: &Option<Key>) -> Result<(), AllocError>
    ensures { OnOk result (out.new.items ≡ out.old.items ++ lock_text key.now) }
{
    let Some(key) = key else {
        return Ok(());
    };
    let text = print(alloc, key)?;
    push(out, " style=dashed tooltip=")?;
    push_quoted(out, text.as_bytes())
}

// Appends the cost for a player to reach the room, if this is the room's label.
fn push_cost(
    out: &mut Vec<u8>,
    room: u32,
    player: u32,
    entry: &(u32, Label),
) -> Result<(), AllocError>
    ensures { OnOk result (out.new.items ≡ out.old.items ++ cost_text room player entry.now) }
{
    if entry.0 != room {
        return Ok(());
    }
    push(out, "\n")?;
    push_number(out, player)?;
    push(out, ": ")?;
    push_decimal(out, entry.1.cost)
}

// Appends the label of the room, if the member has one.
fn push_label(out: &mut Vec<u8>, room: u32, member: &Member) -> Result<(), AllocError>
    ensures { OnOk result (out.new.items ≡ out.old.items ++ label_text room member.now) }
{
    let player = member.player();
    let labels = member.labels();
    for entry in labels {
        push_cost(out, room, player, entry)?;
    }
    Ok(())
}

// Appends the labels of the room.
fn push_labels(out: &mut Vec<u8>, room: u32, members: &[Member]) -> Result<(), AllocError>
    ensures { OnOk result (out.new.items ≡ out.old.items ++ flat_map (label_text room) members.now) }
{
    for member in members {
        push_label(out, room, member)?;
    }
    Ok(())
}

// The parts of a certificate that are drawn in a map.
#[derive(Drop)]
struct Drawn<'a> {
    members: &'a [Member],
    meeting: Option<u32>,
}

impl<'a> Model for Drawn<'a> {
    ghost use Rattle.mud_map.specs.Map.{Drawing, drawing};

    ghost Value = { Drawing };

    ghost view = { λ m. drawing m.members.now m.meeting };
}

// Returns the text inside a room.
fn room_label(
    alloc: Global,
    members: &[Member],
    number: u32,
    kept: &Record,
) -> Result<Vec<u8>, AllocError>
    ensures { IfOk result (λ label. label.items ≡ room_text members.now number kept.now) }
{
    let mut label = Vec::new(alloc);
    push_title(&mut label, number, kept)?;
    push_labels(&mut label, number, members)?;
    Ok(label)
}

// Returns the text at an exit.
fn exit_label(
    alloc: Global,
    number: u32,
    kept: &Record,
    passage: Passage,
) -> Result<Vec<u8>, AllocError>
    ensures { IfOk result (λ label. label.items ≡ exit_text number kept.now passage) }
{
    let mut label = Vec::new(alloc);
    push_title(&mut label, number, kept)?;
    push(&mut label, " (")?;
    push_decimal(&mut label, passage.cost)?;
    push(&mut label, ")")?;
    Ok(label)
}

// Appends a second border for the meeting room.
fn push_meeting(out: &mut Vec<u8>, meeting: Option<u32>, number: u32) -> Result<(), AllocError>
    ensures { OnOk result (out.new.items ≡ out.old.items ++ meeting_text meeting number) }
{
    match meeting {
        Some(room) => {
            if number == room {
                push(out, " peripheries=2")
            } else {
                Ok(())
            }
        }
        None => Ok(()),
    }
}

// Appends a label with this text.
fn push_label_part(out: &mut Vec<u8>, label: &[u8]) -> Result<(), AllocError>
    ensures { OnOk result (out.new.items ≡ out.old.items ++ label_part label.now) }
{
    push(out, " [label=")?;
    push_quoted(out, label)
}

fn push_node(
    alloc: Global,
    out: &mut Vec<u8>,
    drawn: &Drawn<'_>,
    number: u32,
    kept: &Record,
) -> Result<(), AllocError>
    ensures { OnOk result (out.new.items
        ≡ out.old.items ++ node_text drawn.now number kept.now) }
{
    let label = room_label(alloc, drawn.members, number, kept)?;
    push_decimal(out, number)?;
    push_label_part(out, label.as_slice())?;
    push_lock(alloc, out, &kept.key)?;
    push_meeting(out, drawn.meeting, number)?;
    push(out, "];\n")
}

// Returns whether the member's walk uses the exit.
fn walks(member: &Member, exit: u32) -> bool
    ensures { result ≡ walks member.now exit }
{
    match member.walk() {
        Some(exits) => exits.contains(&exit),
        None => false,
    }
}

// Returns whether some member's walk uses the exit.
fn is_walked(members: &[Member], exit: u32) -> bool
    ensures { result ≡ is_walked members.now exit }
{
    for member in members {
        if walks(member, exit) {
            return true;
        }
    }
    false
}

// Appends the style of an exit of a walk: red.
fn push_walk(out: &mut Vec<u8>, members: &[Member], exit: u32) -> Result<(), AllocError>
    ensures { OnOk result (out.new.items ≡ out.old.items ++ walk_text members.now exit) }
{
    if is_walked(members, exit) {
        push(out, " color=red penwidth=2")
    } else {
        Ok(())
    }
}

// Appends the two ends of an exit.
fn push_ends(out: &mut Vec<u8>, passage: Passage) -> Result<(), AllocError>
    ensures { OnOk result (out.new.items ≡ out.old.items ++ ends_text passage) }
{
    push_decimal(out, passage.source)?;
    push(out, " -> ")?;
    push_decimal(out, passage.destination)
}

fn push_edge(
    alloc: Global,
    out: &mut Vec<u8>,
    drawn: &Drawn<'_>,
    number: u32,
    kept: &Record,
    passage: Passage,
) -> Result<(), AllocError>
    ensures { OnOk result (out.new.items
        ≡ out.old.items
        ++ edge_text drawn.now number kept.now passage) }
{
    let label = exit_label(alloc, number, kept, passage)?;
    push_ends(out, passage)?;
    push_label_part(out, label.as_slice())?;
    push_lock(alloc, out, &kept.key)?;
    push_walk(out, drawn.members, number)?;
    push(out, "];\n")
}

// Appends a room as a node.
fn push_room(
    alloc: Global,
    out: &mut Vec<u8>,
    drawn: &Drawn<'_>,
    number: u32,
    kept: &Record,
) -> Result<(), AllocError>
    ensures { OnOk result (out.new.items
        ≡ out.old.items ++ node_of drawn.now number kept.now) }
{
    match kept.kind {
        Kind::Room => push_node(alloc, out, drawn, number, kept),
        Kind::Exit(_) | Kind::Thing { .. } | Kind::Player { .. } => Ok(()),
    }
}

// Appends an exit as an edge.
fn push_exit(
    alloc: Global,
    out: &mut Vec<u8>,
    drawn: &Drawn<'_>,
    number: u32,
    kept: &Record,
) -> Result<(), AllocError>
    ensures { OnOk result (out.new.items
        ≡ out.old.items ++ edge_of drawn.now number kept.now) }
{
    match kept.kind.passage() {
        Some(passage) => push_edge(alloc, out, drawn, number, kept, passage),
        None => Ok(()),
    }
}

// Appends the node of the number, if it is a room's.
fn push_room_at(
    alloc: Global,
    out: &mut Vec<u8>,
    world: &World,
    drawn: &Drawn<'_>,
    number: u32,
) -> Result<(), AllocError>
    ensures { OnOk result (out.new.items
        ≡ out.old.items
        ++ option_map_or (node_of drawn.now number)
        (record_at world.now number) []) }
{
    match world.get(number) {
        Some(kept) => push_room(alloc, out, drawn, number, kept),
        None => Ok(()),
    }
}

// Appends the edge of the number, if it is an exit's.
fn push_exit_at(
    alloc: Global,
    out: &mut Vec<u8>,
    world: &World,
    drawn: &Drawn<'_>,
    number: u32,
) -> Result<(), AllocError>
    ensures { OnOk result (out.new.items
        ≡ out.old.items
        ++ option_map_or (edge_of drawn.now number)
        (record_at world.now number) []) }
{
    match world.get(number) {
        Some(kept) => push_exit(alloc, out, drawn, number, kept),
        None => Ok(()),
    }
}

// Appends the nodes of the rooms.
fn push_rooms(
    alloc: Global,
    out: &mut Vec<u8>,
    world: &World,
    drawn: &Drawn<'_>,
) -> Result<(), AllocError>
    ensures { OnOk result (out.new.items
        ≡ out.old.items
        ++ flat_map (λ e. node_of drawn.now e.0 e.1) world.now.objects) }
{
    for number in 0..world.next_number() {
        push_room_at(alloc, out, world, drawn, number)?;
    }
    Ok(())
}

// Appends the edges of the exits.
fn push_exits(
    alloc: Global,
    out: &mut Vec<u8>,
    world: &World,
    drawn: &Drawn<'_>,
) -> Result<(), AllocError>
    ensures { OnOk result (out.new.items
        ≡ out.old.items
        ++ flat_map (λ e. edge_of drawn.now e.0 e.1) world.now.objects) }
{
    for number in 0..world.next_number() {
        push_exit_at(alloc, out, world, drawn, number)?;
    }
    Ok(())
}

// Returns the graph of the world.
fn drawn_map(alloc: Global, world: &World, drawn: &Drawn<'_>) -> Result<Vec<u8>, AllocError>
    ensures { IfOk result (λ out. out.items
        ≡ map_text world.now drawn.now) }
{
    let mut out = Vec::new(alloc);
    push(&mut out, "digraph world {\nnode [shape=box];\n")?;
    push_rooms(alloc, &mut out, world, drawn)?;
    push_exits(alloc, &mut out, world, drawn)?;
    push(&mut out, "}\n")?;
    Ok(out)
}

// Returns the meeting room of a certificate.
fn meeting_of(conclusion: Conclusion) -> Option<u32>
    ensures { result ≡ meeting_of conclusion }
{
    match conclusion {
        Conclusion::Meet(Some(meeting)) => Some(meeting.room),
        _ => None,
    }
}

/// Returns the rooms and exits of the world as a graph in DOT (docs/KEEPING.md, "Map"). The only error is out of
/// memory.
pub fn map(alloc: Global, world: &World) -> Result<Vec<u8>, AllocError>
    ensures { IfOk result (λ out. out.items ≡ map_text world.now blank) }
{
    let drawn = Drawn {
        members: &[],
        meeting: None,
    };
    drawn_map(alloc, world, &drawn)
}

/// Returns the map of a world with the claims of a certificate drawn in. The rooms have the costs of its labels, the
/// exits of its walks are red, and its meeting room has a second border. It does not check the certificate. The only
/// error is out of memory.
pub fn map_with(alloc: Global, world: &World, cert: &Cert) -> Result<Vec<u8>, AllocError>
    ensures { IfOk result (λ out. out.items ≡ map_text world.now (drawing_of cert.now)) }
{
    let drawn = Drawn {
        members: cert.members(),
        meeting: meeting_of(cert.conclusion()),
    };
    drawn_map(alloc, world, &drawn)
}
