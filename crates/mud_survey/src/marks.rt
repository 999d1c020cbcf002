//! Marks by number.

ghost use Rattle.std.specs.Prelude.{◌≡◌, ◌||◌, ◌≤◌, ℕ, true, length, slice_set};
ghost use Rattle.mud_survey.specs.inner.Marks.{mark_at};

/// Returns whether the number is marked.
pub(crate) fn mark_at(marks: &[bool], number: u32) -> bool
    ensures { result ≡ mark_at marks.now number }
{
    match marks.get(number as usize) {
        Some(mark) => *mark,
        None => false,
    }
}

/// Marks the number. There is no mark of a number past the last.
pub(crate) fn mark(marks: &mut Vec<bool>, number: u32)
    ensures { marks.new.items ≡ slice_set marks.old.items number true }
{
    if let Some(mark) = marks.get_mut(number as usize) {
        *mark = true;
    }
}

/// Marks what is marked in the other list, too, which is as long.
pub(crate) fn mark_all(marks: &mut Vec<bool>, others: &[bool])
    requires { length others.now ≡ length marks.old.items }
    ensures marks { (n : ℕ) → mark_at marks.new.items n ≡ (mark_at marks.old.items n || mark_at others.now n) }
    ensures size { length marks.new.items ≡ length marks.old.items }
{
    for i in 0..others.len() {
        if others[i] {
            marks[i] = true;
        }
    }
}
