//! Texts with names and lists of objects.

ghost use Rattle.std.specs.Prelude.{◌≡◌, ◌++◌, ◌∷◌, [], ◌+◌, ◌<◌, OnOk, codes, decimal, filter, not, string_bytes};
ghost use Rattle.std.specs.Prelude.{if◌then◌else◌};
ghost use Rattle.mud_key.specs.declared.codes.TheConstants.{ZERO};
ghost use Rattle.mud_world.specs.State.{is_number};
ghost use Rattle.mud_rules.specs.ObjectLists.{first_name, entry_text};
ghost use Rattle.mud_rules.specs.inner.ObjectLists.{listed_after};

use mud_world::World;
use std::alloc::AllocError;

// Appends a digit.
fn push_digit(text: &mut String, digit: u32) -> Result<(), AllocError>
    requires { digit < 10 }
    ensures { OnOk result (string_bytes text.new ≡ string_bytes text.old ++ (ZERO + digit) ∷ []) }
{
    text.push((b'0' + digit as u8) as char)
}

// Appends a number in decimal. Most numbers have few digits, and pushing each is faster than formatting a text.
#[tactic(auto, using(std::proofs::lemmas::Fmt::decimal_digit, std::proofs::lemmas::Fmt::decimal_step))]
fn push_number(text: &mut String, number: u32) -> Result<(), AllocError>
    ensures { OnOk result (string_bytes text.new ≡ string_bytes text.old ++ decimal number) }
{
    if number < 10 {
        return push_digit(text, number);
    }
    push_number(text, number / 10)?;
    push_digit(text, number % 10)
}

/// Appends words and a decimal number. The only error is out of memory.
pub fn push_about(text: &mut String, words: &str, number: u32) -> Result<(), AllocError>
    ensures { OnOk result (string_bytes text.new ≡ string_bytes text.old ++ words.now ++ decimal number) }
{
    text.push_str(words)?;
    push_number(text, number)
}

// Returns the shown name.
#[inline(always)]
pub(crate) fn first_name(world: &World, number: u32) -> &str
    ensures { result.now ≡ first_name world.now number }
{
    match world.get(number) {
        Some(record) => match record.names.list().first() {
            Some(name) => name.as_str(),
            None => "",
        },
        None => "",
    }
}

// Appends NAME #n. It runs for each object of a list.
#[inline(always)]
pub(crate) fn push_entry(text: &mut String, world: &World, number: u32) -> Result<(), AllocError>
    ensures { OnOk result (string_bytes text.new
        ≡ string_bytes text.old ++ entry_text world.now number) }
{
    text.push_str(first_name(world, number))?;
    text.push(' ')?;
    text.push('#')?;
    push_number(text, number)
}

fn is_player(number: u32, player: Option<u32>) -> bool
    ensures { result ≡ is_number number player }
{
    match player {
        Some(player) => number == player,
        None => false,
    }
}

// Appends the text before an object of a list: the heading before the first, and a comma before the others.
fn push_lead(text: &mut String, heading: &str, is_first: bool) -> Result<(), AllocError>
    ensures { OnOk result (string_bytes text.new
        ≡ string_bytes text.old ++ (if is_first then heading.now else codes ", ")) }
{
    if is_first {
        return text.push_str(heading);
    }
    text.push(',')?;
    text.push(' ')
}

// Appends the objects of a list without the player, after a heading. It appends nothing if there is no object to list.
pub(crate) fn push_listed(
    text: &mut String,
    world: &World,
    heading: &str,
    numbers: &[u32],
    player: Option<u32>,
) -> Result<(), AllocError>
    ensures { OnOk result (string_bytes text.new ≡ string_bytes text.old
        ++ listed_after heading.now world.now (filter (λ o. not (is_number o player)) numbers.now)) }
{
    let mut is_first = true;
    for number in numbers {
        if is_player(*number, player) {
            continue;
        }
        push_lead(text, heading, is_first)?;
        push_entry(text, world, *number)?;
        is_first = false;
    }
    Ok(())
}
