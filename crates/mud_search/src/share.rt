//! Divides a party, or its workers.

ghost use Rattle.std.specs.Prelude.{◌≡◌, ◌<◌, ◌≤◌, ◌/◌};

/// Returns the share of the last of `among` parts of `of`: an equal share, rounded down, but at least one. The others
/// get the rest, which is not empty.
pub fn last_share(of: usize, among: usize) -> usize
    requires of { 2 ≤ of }
    requires among { 2 ≤ among }
    ensures equal { among ≤ of → result ≡ of / among }
    ensures one { of < among → result ≡ 1 }
    ensures some { 1 ≤ result }
    ensures rest { result < of }
{
    if among <= of { of / among } else { 1 }
}
