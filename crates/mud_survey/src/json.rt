//! A survey for programs.

ghost use Rattle.std.specs.Prelude.{◌≡◌, ◌++◌, codes, string_bytes, IfOk, OnOk};
ghost use Rattle.std.specs.Fmt.{decimal};
ghost use Rattle.std.specs.List.{flat_map, join_by};
ghost use Rattle.mud_survey.specs.Json.{array, stranded_json, json_text};

use crate::survey::{Stranded, Survey};
use std::alloc::{AllocError, Global};

// Numbers, each after a comma.
fn push_others(out: &mut String, numbers: &[u32]) -> Result<(), AllocError>
    ensures { OnOk result (string_bytes out.new
        ≡ string_bytes out.old ++ flat_map (λ n. codes "," ++ decimal n) numbers.now) }
{
    for number in numbers {
        write!(out, ",{}", *number)?;
    }
    Ok(())
}

// A name and an array of numbers.
fn push_numbers(out: &mut String, name: &str, numbers: &[u32]) -> Result<(), AllocError>
    ensures { OnOk result (string_bytes out.new ≡ string_bytes out.old ++ (name.now ++ array decimal numbers.now)) }
{
    out.push_str(name)?;
    out.push_str("[")?;
    if let [first, others @ ..] = numbers {
        write!(out, "{}", *first)?;
        push_others(out, others)?;
    }
    out.push_str("]")
}

// Appends a player and the room from which the player has no way back.
fn push_stranded(out: &mut String, stranded: Stranded) -> Result<(), AllocError>
    ensures { OnOk result (string_bytes out.new ≡ string_bytes out.old ++ stranded_json stranded) }
{
    let Stranded { player, room } = stranded;
    out.push_str("{\"player\":")?;
    write!(out, "{player}")?;
    out.push_str(",\"room\":")?;
    write!(out, "{room}")?;
    out.push_str("}")
}

// Players and rooms, each after a comma.
fn push_other_stranded(out: &mut String, all: &[Stranded]) -> Result<(), AllocError>
    ensures { OnOk result (string_bytes out.new
        ≡ string_bytes out.old ++ flat_map (λ s. codes "," ++ stranded_json s) all.now) }
{
    for stranded in all {
        out.push_str(",")?;
        push_stranded(out, *stranded)?;
    }
    Ok(())
}

// A name and an array of players and rooms.
fn push_all_stranded(out: &mut String, name: &str, all: &[Stranded]) -> Result<(), AllocError>
    ensures { OnOk result (string_bytes out.new ≡ string_bytes out.old ++ (name.now ++ array stranded_json all.now)) }
{
    out.push_str(name)?;
    out.push_str("[")?;
    if let [first, others @ ..] = all {
        push_stranded(out, *first)?;
        push_other_stranded(out, others)?;
    }
    out.push_str("]")
}

/// A survey of the world of this version, made for these players, as a JSON object in one line (docs/KEEPING.md,
/// "Survey"). The only error is out of memory.
pub fn json_text(
    alloc: Global,
    version: usize,
    players: &[u32],
    survey: &Survey,
) -> Result<String, AllocError>
    ensures { IfOk result (λ text. string_bytes text ≡ json_text version players.now survey.now) }
{
    let mut out = String::new(alloc);
    out.push_str("{\"version\":")?;
    write!(out, "{version}")?;
    push_numbers(&mut out, ",\"players\":", players)?;
    push_numbers(&mut out, ",\"rooms\":", &survey.rooms)?;
    push_numbers(&mut out, ",\"exits\":", &survey.exits)?;
    push_numbers(&mut out, ",\"one_way\":", &survey.one_way)?;
    push_all_stranded(&mut out, ",\"no_way_back\":", &survey.no_way_back)?;
    push_numbers(&mut out, ",\"keys\":", &survey.keys)?;
    push_numbers(&mut out, ",\"things\":", &survey.things)?;
    out.push_str("}\n")?;
    Ok(out)
}
