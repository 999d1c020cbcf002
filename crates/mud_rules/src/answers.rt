//! Answers questions about the world.

ghost use Rattle.std.specs.Prelude.{◌≡◌, ◌++◌, [], Some, not, codes, filter, IfOk, OnOk, string_bytes};
ghost use Rattle.std.specs.Option.{option_map_or};
ghost use Rattle.mud_key.specs.Printed.{printed, by_text};
ghost use Rattle.mud_world.specs.State.{contents_of, is_number, key_of, leaving_of, place_of};
ghost use Rattle.mud_rules.specs.ObjectLists.{object_list, listed_under};
ghost use Rattle.mud_rules.specs.Answers.{kind_text, look_text, inventory_text, key_of_text, show_text};

use crate::View;
use crate::listing::{push_about, push_entry, push_listed};
use mud_key::print;
use mud_world::{Kind, World};
use std::alloc::{AllocError, Global};

// The capacity for the description of most objects.
const LOOK: usize = 240;

/// Returns the answer to a view of the world; LF separates its lines (docs/COMMANDS.md, "Answers"). Without a
/// player, the answers about the player's room and inventory are empty.
pub fn show(
    alloc: Global,
    world: &World,
    player: Option<u32>,
    view: &View,
) -> Result<String, AllocError>
    ensures { IfOk result (λ text. string_bytes text ≡ show_text world.now player view.now) }
{
    match (view, player) {
        (View::Look, Some(player)) => room_text(alloc, world, player),
        (View::LookAt(object), _) => look_text(alloc, world, player, *object),
        (View::Inventory, Some(player)) => inventory_text(alloc, world, player),
        (View::KeyOf(object), _) => key_of_text(alloc, world, *object),
        (View::Version, _) => String::from_str(alloc, "version"),
        (View::Quit, _) => String::from_str(alloc, "bye"),
        (View::Look | View::Inventory, None) => Ok(String::new(alloc)),
    }
}

// Appends the exits that leave a room, on a line of their own.
fn push_exits(text: &mut String, world: &World, room: u32) -> Result<(), AllocError>
    ensures { OnOk result (string_bytes text.new
        ≡ string_bytes text.old ++ listed_under world.now (codes "exits ") (leaving_of world.now room)) }
{
    push_listed(text, world, "\n  exits ", world.leaving(room), None)
}

// Appends the contents of an object without the player, on a line of their own.
fn push_contents(
    text: &mut String,
    world: &World,
    number: u32,
    player: Option<u32>,
) -> Result<(), AllocError>
    ensures { OnOk result (string_bytes text.new ≡ string_bytes text.old ++ listed_under world.now (codes "contents ")
        (filter (λ o. not (is_number o player)) (contents_of world.now number))) }
{
    push_listed(text, world, "\n  contents ", world.contents(number), player)
}

// Appends the objects of a list.
fn push_all(text: &mut String, world: &World, numbers: &[u32]) -> Result<(), AllocError>
    ensures { OnOk result (string_bytes text.new
        ≡ string_bytes text.old ++ object_list world.now numbers.now) }
{
    push_listed(text, world, "", numbers, None)
}

fn push_kind(text: &mut String, world: &World, number: u32, kind: Kind) -> Result<(), AllocError>
    ensures { OnOk result (string_bytes text.new
        ≡ string_bytes text.old ++ kind_text world.now number kind) }
{
    match kind {
        Kind::Room => push_exits(text, world, number),
        Kind::Exit(passage) => {
            push_about(text, "\n  from #", passage.source)?;
            push_about(text, " to #", passage.destination)?;
            push_about(text, " cost ", passage.cost)
        }
        Kind::Thing { .. } | Kind::Player { .. } => Ok(()),
    }
}

fn look_text(
    alloc: Global,
    world: &World,
    player: Option<u32>,
    number: u32,
) -> Result<String, AllocError>
    ensures { IfOk result (λ text. string_bytes text ≡ look_text world.now player number) }
{
    let mut text = String::with_capacity(alloc, LOOK)?;
    push_entry(&mut text, world, number)?;
    push_contents(&mut text, world, number, player)?;
    if let Some(record) = world.get(number) {
        push_kind(&mut text, world, number, record.kind)?;
    }
    Ok(text)
}

// Returns the description of the player's room.
fn room_text(alloc: Global, world: &World, player: u32) -> Result<String, AllocError>
    ensures { IfOk result (λ text. string_bytes text
        ≡ option_map_or (look_text world.now (Some player)) (place_of world.now player) []) }
{
    match world.place(player) {
        Some(room) => look_text(alloc, world, Some(player), room),
        None => Ok(String::new(alloc)),
    }
}

// Returns the inventory of a player: the objects that lie directly in the player.
fn inventory_text(alloc: Global, world: &World, player: u32) -> Result<String, AllocError>
    ensures { IfOk result (λ text. string_bytes text ≡ inventory_text world.now player) }
{
    let mut text = String::from_str(alloc, "inventory ")?;
    let contents = world.contents(player);
    if contents.is_empty() {
        text.push_str("nothing")?;
    } else {
        push_all(&mut text, world, contents)?;
    }
    Ok(text)
}

fn key_of_text(alloc: Global, world: &World, number: u32) -> Result<String, AllocError>
    ensures { IfOk result (λ text. string_bytes text ≡ key_of_text world.now number) }
{
    let mut text = format!(in alloc; "key of #{number} is ")?;
    push_key_of(&mut text, alloc, world, number)?;
    Ok(text)
}

fn push_key_of(
    text: &mut String,
    alloc: Global,
    world: &World,
    number: u32,
) -> Result<(), AllocError>
    ensures { OnOk result (string_bytes text.new
        ≡ string_bytes text.old
        ++ option_map_or (λ key. printed (by_text key)) (key_of world.now number) (codes "nothing")) }
{
    let Some(record) = world.get(number) else {
        return text.push_str("nothing");
    };
    match &record.key {
        Some(key) => text.push_str(&print(alloc, key)?),
        None => text.push_str("nothing"),
    }
}
