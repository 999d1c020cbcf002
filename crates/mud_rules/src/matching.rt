//! Finds the object that a text means.

ghost use Rattle.std.specs.Prelude.{◌≡◌, ◌&&◌, ◌≤◌, filter, length, map, string_bytes, Result, if◌then◌else◌};
ghost use Rattle.std.specs.List.{list_any, range_with_len};
ghost use Rattle.mud_key.specs.declared.limits.TheConstants.{MOST_DIGITS};
ghost use Rattle.mud_rules.specs.declared.matching.Likeness.TheVariants.{Equal, Prefix};
ghost use Rattle.mud_rules.specs.Matches.{is_like, sole_like, or_else, number_in, object_number, digits_value};
ghost use Rattle.mud_rules.specs.Matches.{candidates, local_match, match_among};
ghost use Rattle.mud_rules.specs.inner.Matches.{is_named, direct_match, fits, sole_fit, together, is_sort};
ghost use Rattle.mud_world.specs.State.{exists, is_room, is_player, place_of};

use crate::comparing::is_same;
use mud_key::codes::SHARP;
use mud_key::limits::MOST_DIGITS;
use mud_world::World;

/// The reason why a text means no object: the numbers -1, -3 and -2 of the LambdaMOO Programmer's Manual ("The Built-in
/// Command Parser").
#[derive(Clone, Copy, Debug, PartialEq, Eq)]
pub enum Match {
    /// The text is empty.
    Nothing,
    /// No candidate has such a name, or no object has such a number.
    NoSuch,
    /// Several candidates have such a name.
    Ambiguous,
}

// How a text is compared with a name.
#[derive(Clone, Copy)]
pub(crate) enum Likeness {
    Equal,
    Prefix,
}

// The kind of object whose members are candidates.
#[derive(Clone, Copy)]
pub(crate) enum Sort {
    Rooms,
    Players,
}

/// Returns the object that a text means to a player at its place.
///
/// `#n` is the object with that number, `me` the player, and `here` the player's place. Otherwise the candidates are
/// the contents of the player, the contents of the player's room, and the exits that leave it. The search takes the
/// candidates with a name equal to the text, ignoring ASCII case; if there are none, those with a name that begins with
/// it. Exactly one is the answer (LambdaMOO Programmer's Manual, "The Built-in Command Parser"; exits as candidates are
/// this project's profile).
pub fn local_match(world: &World, player: u32, text: &str) -> Result<u32, Match>
    ensures { result ≡ local_match world.now player text.now }
{
    if let Some(answer) = direct_match(world, player, text) {
        return answer;
    }
    near_match(world, player, world.place(player), text)
}

/// Returns the room that a text means to a player: like [`local_match`], with all rooms as candidates. `#n`, `me` or
/// `here` may give an object of another kind.
pub fn room_match(world: &World, player: u32, text: &str) -> Result<u32, Match>
    ensures { result ≡ match_among (is_room world.now) world.now player text.now }
{
    sort_match(world, Sort::Rooms, player, text)
}

/// Returns the player that a text means to a player: like [`local_match`], with all players as candidates. `#n` or
/// `here` may give an object of another kind.
pub fn player_match(world: &World, player: u32, text: &str) -> Result<u32, Match>
    ensures { result ≡ match_among (is_player world.now) world.now player text.now }
{
    sort_match(world, Sort::Players, player, text)
}

// Returns the object that a text means, with all objects of a sort as candidates.
fn sort_match(world: &World, sort: Sort, player: u32, text: &str) -> Result<u32, Match>
    ensures { result ≡ match_among (is_sort sort world.now) world.now player text.now }
{
    if let Some(answer) = direct_match(world, player, text) {
        return answer;
    }
    named_match(world, sort, text)
}

// Returns the meaning of a text that does not depend on candidates.
fn direct_match(world: &World, player: u32, text: &str) -> Option<Result<u32, Match>>
    ensures { result ≡ direct_match world.now player text.now }
{
    if text.is_empty() {
        return Some(Err(Match::Nothing));
    }
    if let Some(number) = object_number(text.as_bytes()) {
        return Some(match_number(world, number));
    }
    if text.eq_ignore_ascii_case("me") {
        return Some(Ok(player));
    }
    if text.eq_ignore_ascii_case("here") {
        return Some(world.place(player).ok_or(Match::NoSuch));
    }
    None
}

fn match_number(world: &World, number: u32) -> Result<u32, Match>
    ensures { result ≡ (if exists world.now number then Result.Ok number else Result.Err Match.NoSuch) }
{
    if world.exists(number) {
        Ok(number)
    } else {
        Err(Match::NoSuch)
    }
}

// Returns the candidate near a player that a name means. The text is first compared with whole names, and only then
// with prefixes of longer ones, so no name is compared twice.
fn near_match(world: &World, player: u32, place: Option<u32>, text: &str) -> Result<u32, Match>
    requires { place ≡ place_of world.now player }
    ensures { result ≡ or_else (sole_like Equal world.now text.now (candidates world.now player))
        (sole_like Prefix world.now text.now (candidates world.now player)) }
{
    match sole_near(world, player, place, text, Likeness::Equal) {
        Err(Match::NoSuch) => sole_near(world, player, place, text, Likeness::Prefix),
        found => found,
    }
}

// Returns the object of a sort that a name means, found likewise.
fn named_match(world: &World, sort: Sort, text: &str) -> Result<u32, Match>
    ensures { result ≡ or_else
        (sole_like Equal world.now text.now (filter (is_sort sort world.now) (range_with_len 0 world.now.next)))
        (sole_like Prefix world.now text.now (filter (is_sort sort world.now) (range_with_len 0 world.now.next))) }
{
    match sole_of_sort(world, sort, text, Likeness::Equal) {
        Err(Match::NoSuch) => sole_of_sort(world, sort, text, Likeness::Prefix),
        found => found,
    }
}

// Returns the single candidate near a player with a name that fits.
fn sole_near(
    world: &World,
    player: u32,
    place: Option<u32>,
    text: &str,
    likeness: Likeness,
) -> Result<u32, Match>
    requires { place ≡ place_of world.now player }
    ensures { result ≡ sole_fit likeness world.now text.now (candidates world.now player) }
{
    let own = sole_fit(world, world.contents(player), text, likeness);
    let Some(room) = place else {
        return own;
    };
    let lying = sole_fit(world, world.contents(room), text, likeness);
    let leaving = sole_fit(world, world.leaving(room), text, likeness);
    together(own, together(lying, leaving))
}

pub(crate) fn sole_fit(
    world: &World,
    numbers: &[u32],
    text: &str,
    likeness: Likeness,
) -> Result<u32, Match>
    ensures { result ≡ sole_fit likeness world.now text.now numbers.now }
{
    let mut found = Err(Match::NoSuch);
    for number in numbers {
        if is_named(world, *number, text, likeness) {
            found = together(found, Ok(*number));
        }
    }
    found
}

fn sole_of_sort(world: &World, sort: Sort, text: &str, likeness: Likeness) -> Result<u32, Match>
    ensures { result ≡ sole_fit likeness world.now text.now
        (filter (is_sort sort world.now) (range_with_len 0 world.now.next)) }
{
    let mut found = Err(Match::NoSuch);
    for number in 0..world.next_number() {
        if is_candidate(world, sort, number, text, likeness) {
            found = together(found, Ok(number));
        }
    }
    found
}

fn is_candidate(world: &World, sort: Sort, number: u32, text: &str, likeness: Likeness) -> bool
    ensures { result ≡ (is_sort sort world.now number
        && is_named (fits likeness text.now) world.now number) }
{
    is_sort(world, sort, number) && is_named(world, number, text, likeness)
}

fn is_sort(world: &World, sort: Sort, number: u32) -> bool
    ensures { result ≡ is_sort sort world.now number }
{
    match sort {
        Sort::Rooms => world.is_room(number),
        Sort::Players => world.is_player(number),
    }
}

// Combines the results of two lists of candidates.
fn together(first: Result<u32, Match>, second: Result<u32, Match>) -> Result<u32, Match>
    ensures { result ≡ together first second }
{
    match (first, second) {
        (Err(Match::NoSuch), _) => second,
        (_, Err(Match::NoSuch)) => first,
        _ => Err(Match::Ambiguous),
    }
}

fn is_named(world: &World, number: u32, text: &str, likeness: Likeness) -> bool
    ensures { result ≡ is_named (fits likeness text.now) world.now number }
{
    match world.get(number) {
        Some(record) => any_fits(record.names.list(), text, likeness),
        None => false,
    }
}

fn any_fits(names: &[String], text: &str, likeness: Likeness) -> bool
    ensures { result ≡ list_any (fits likeness text.now) (map string_bytes names.now) }
{
    for name in names {
        if fits(text, name, likeness) {
            return true;
        }
    }
    false
}

// Returns whether a text is a whole name, or a proper prefix of one.
fn fits(text: &str, name: &str, likeness: Likeness) -> bool
    ensures { result ≡ fits likeness text.now name.now }
{
    match likeness {
        Likeness::Equal => is_same(text.as_bytes(), name.as_bytes()),
        Likeness::Prefix => text.len() < name.len() && begins(text, name),
    }
}

fn begins(text: &str, name: &str) -> bool
    ensures { result ≡ is_like Prefix text.now name.now }
{
    match name.as_bytes().get(..text.len()) {
        Some(head) => is_same(text.as_bytes(), head),
        None => false,
    }
}

// Returns the number in `#` and 1 to 9 digits.
pub(crate) fn object_number(text: &[u8]) -> Option<u32>
    ensures { result ≡ object_number text.now }
{
    if text.is_empty() || text[0] != SHARP {
        return None;
    }
    number_in(&text[1..])
}

// Returns the number in 1 to 9 digits.
pub(crate) fn number_in(text: &[u8]) -> Option<u32>
    ensures { result ≡ number_in text.now }
{
    if text.is_empty() || text.len() > MOST_DIGITS {
        return None;
    }
    digits_value(text)
}

fn digits_value(digits: &[u8]) -> Option<u32>
    requires { length digits.now ≤ MOST_DIGITS }
    ensures { result ≡ digits_value 0 digits.now }
{
    let mut value = 0;
    for digit in digits {
        if !digit.is_ascii_digit() {
            return None;
        }
        value = value * 10 + u32::from(*digit - b'0');
    }
    Some(value)
}
