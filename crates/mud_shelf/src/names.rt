//! The names of volumes, and which of them is the latest.

ghost use Rattle.std.specs.Prelude.{◌≡◌, ◌≢◌, ◌≤◌, ◌<◌, ℕ, MatchOption, IfOk, map, string_bytes};
ghost use Rattle.std.specs.Fmt.{decimal};
ghost use Rattle.mud_shelf.specs.Names.{IsVolume, volume_name, HasVolume, IsLatest};

use itoa::Buffer;
use std::alloc::{AllocError, Global};

/// The highest number of a volume: it has nine digits.
pub const MOST_VOLUMES: u32 = 999_999_999;

/// The name of the volume of this number, 1 to [`MOST_VOLUMES`]: of the first it is the journal's, of a later one its
/// number stands behind that and a point, as in `world.journal.2`. The only error is out of memory.
pub fn volume_name(alloc: Global, journal: &str, number: u32) -> Result<String, AllocError>
    ensures { IfOk result (λ name. string_bytes name ≡ volume_name journal.now number) }
{
    let mut name = String::from_str(alloc, journal)?;
    if number != 1 {
        name.push_str(".")?;
        name.push_str(Buffer::new().format(number))?;
    }
    Ok(name)
}

// The number, 2 to the highest, that is spelled without needless zeros.
fn later_number(digits: &str) -> Option<u32>
    ensures { MatchOption result ((n : ℕ) → 2 ≤ n → n ≤ MOST_VOLUMES → digits.now ≢ decimal n)
        (λ n. (2 ≤ n) × (n ≤ MOST_VOLUMES) × (digits.now ≡ decimal n)) }
{
    let Ok(number) = digits.parse::<u32>() else {
        return None;
    };
    if number < 2 || MOST_VOLUMES < number {
        return None;
    }
    if Buffer::new().format(number) != digits {
        return None;
    }
    Some(number)
}

/// The number of the volume that has this name.
pub fn volume_number(journal: &str, name: &str) -> Option<u32>
    ensures { MatchOption result ((n : ℕ) → IsVolume n → name.now ≢ volume_name journal.now n)
        (λ n. IsVolume n × (name.now ≡ volume_name journal.now n)) }
{
    let Some(rest) = name.strip_prefix(journal) else {
        return None;
    };
    if rest.is_empty() {
        return Some(1);
    }
    match rest.strip_prefix(".") {
        Some(digits) => later_number(digits),
        None => None,
    }
}

/// The highest number of the volumes that have these names.
pub fn latest_volume(journal: &str, names: &[String]) -> Option<u32>
    ensures { MatchOption result ((n : ℕ) → ¬ HasVolume journal.now (map string_bytes names.now) n)
        (IsLatest journal.now (map string_bytes names.now)) }
{
    let mut latest = 0;
    for name in names {
        latest = volume_number(journal, name.as_str())
            .unwrap_or(0)
            .max(latest);
    }
    if latest == 0 { None } else { Some(latest) }
}
