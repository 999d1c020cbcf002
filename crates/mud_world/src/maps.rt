//! Edits of the records, and of the maps derived from them.

ghost use Rattle.std.specs.Prelude.{◌≡◌, ℕ, ◌++◌, [], ◌∷◌, None, Some, IfOk, OnOk, OnErr, map, nat_eq, string_bytes};
ghost use Rattle.std.specs.Prelude.{option_copied};
ghost use Rattle.mud_world.specs.declared.record.Record.{Record};
ghost use Rattle.std.specs.Map.{lookup, remove_entry};
ghost use Rattle.std.specs.List.{list_any};
ghost use Rattle.mud_index.specs.Rising.{insert, without};
ghost use Rattle.mud_index.specs.Lists.{list_at, AreChanged, AreSame};
ghost use Rattle.mud_index.specs.Owners.{AreOwnersPassed};
ghost use Rattle.mud_index.specs.inner.Views.{HaveSameOwners};
ghost use Rattle.mud_world.specs.inner.Edits.{edit, placed_at, costing_at, with_names, with_key, asked_by};
ghost use Rattle.mud_world.specs.inner.Edits.{names_to_find, called_by, AreLinked, AreMoved, AreRekeyed, AreSameLinks};
ghost use Rattle.mud_world.specs.inner.Edits.{IsInNone};
ghost use Rattle.mud_world.specs.Sound.{IsRising};

use crate::askers::{exchange, leave};
use crate::links::Links;
use crate::slots::{Edit, Slots};
use crate::{Kind, Record};
use mud_index::{Lists, Owners};
use mud_key::{Key, Names};
use std::alloc::{AllocError, Global};

// Returns the names by which an object of this kind is found: only players are found by name.
fn names_to_find(kind: Kind, names: &Names) -> &[String]
    ensures { map string_bytes result.now ≡ called_by kind names.now }
{
    if kind.is_player() { names.list() } else { &[] }
}

// Registers the names of a new object. An error changes no owner.
fn enroll(records: &Slots, owners: &mut Owners, number: u32) -> Result<(), AllocError>
    ensures ok { (r : Record) → lookup (nat_eq number) records.now ≡ Some r
        → OnOk result (AreOwnersPassed [] (names_to_find r) number owners.old owners.new) }
    ensures err { OnErr result (HaveSameOwners owners.old owners.new) }
{
    match records.get(number) {
        Some(record) => owners.pass(&[], names_to_find(record.kind, &record.names), number),
        None => Ok(()),
    }
}

// Inserts a new object into its lists, and a player's names into the owners. If the owners can't grow, the lists are
// restored, and the error changes nothing.
fn introduce(
    records: &Slots,
    links: &mut Links,
    owners: &mut Owners,
    kind: Kind,
    number: u32,
) -> Result<(), AllocError>
    requires { IsInNone number links.old }
    ensures ok_links { OnOk result (AreLinked kind (insert number) links.old links.new) }
    ensures ok_owners { (r : Record) → lookup (nat_eq number) records.now ≡ Some r
        → OnOk result (AreOwnersPassed [] (names_to_find r) number owners.old owners.new) }
    ensures err_links { OnErr result (AreSameLinks links.old links.new) }
    ensures err_owners { OnErr result (HaveSameOwners owners.old owners.new) }
{
    links.link(kind, number)?;
    let done = enroll(records, owners, number);
    if done.is_err() {
        links.unlink(kind, number);
    }
    done
}

// Appends a new record, inserts it into its lists, and registers a player's names. An error changes nothing: the record
// is removed again.
pub(crate) fn grow(
    records: &mut Slots,
    links: &mut Links,
    owners: &mut Owners,
    number: u32,
    object: Record,
) -> Result<(), AllocError>
    requires new { IsRising 0 records.old number }
    requires unlinked { IsInNone number links.old }
    ensures ok_records { OnOk result (records.new ≡ records.old ++ (number, object) ∷ []) }
    ensures ok_links { OnOk result (AreLinked object.kind (insert number) links.old links.new) }
    ensures ok_owners { OnOk result (AreOwnersPassed [] (names_to_find object) number owners.old owners.new) }
    ensures err_records { OnErr result (records.new ≡ records.old) }
    ensures err_links { OnErr result (AreSameLinks links.old links.new) }
    ensures err_owners { OnErr result (HaveSameOwners owners.old owners.new) }
{
    let kind = object.kind;
    records.put(number, object)?;
    let done = introduce(records, links, owners, kind, number);
    if done.is_err() {
        drop(records.take(number));
    }
    done
}

// Removes an object that is not found by name.
pub(crate) fn forget(records: &mut Slots, links: &mut Links, askers: &mut Lists, number: u32)
    ensures records { records.new ≡ remove_entry (nat_eq number) records.old }
    ensures links { (r : Record) → lookup (nat_eq number) records.old ≡ Some r
        → AreLinked r.kind (without number) links.old links.new }
    ensures askers { (r : Record) → lookup (nat_eq number) records.old ≡ Some r
        → AreChanged (λ n. asked_by n r.key) (without number) askers.old askers.new }
{
    if let Some(object) = records.take(number) {
        links.unlink(object.kind, number);
        leave(askers, number, &object.key, &None);
    }
}

// Gives an object other names, and registers them. If an allocation fails, nothing changes.
pub(crate) fn rename_in(
    records: &mut Slots,
    owners: &mut Owners,
    object: u32,
    names: Names,
) -> Result<(), AllocError>
    ensures ok_records { OnOk result (records.new ≡ edit object (with_names names) records.old) }
    ensures ok_owners { (r : Record) → lookup (nat_eq object) records.old ≡ Some r
        → OnOk result (AreOwnersPassed (names_to_find r) (called_by r.kind names) object owners.old owners.new) }
    ensures err_records { OnErr result (records.new ≡ records.old) }
    ensures err_owners { OnErr result (HaveSameOwners owners.old owners.new) }
{
    match records.get(object) {
        Some(record) => {
            let old = names_to_find(record.kind, &record.names);
            owners.pass(old, names_to_find(record.kind, &names), object)?;
        }
        None => return Ok(()),
    }
    records.edit(object, Edit::Names(names));
    Ok(())
}

// Gives an object another key, or none, and updates the askers. If an allocation fails, nothing changes.
pub(crate) fn rekey(
    records: &mut Slots,
    askers: &mut Lists,
    object: u32,
    key: Option<Key>,
) -> Result<(), AllocError>
    requires { (r : Record) → lookup (nat_eq object) records.old ≡ Some r
        → (n : ℕ) → list_any (nat_eq object) (list_at askers.old n) ≡ asked_by n r.key }
    ensures ok_records { OnOk result (records.new ≡ edit object (with_key key) records.old) }
    ensures ok_askers { (r : Record) → lookup (nat_eq object) records.old ≡ Some r
        → OnOk result (AreRekeyed object r.key key askers.old askers.new) }
    ensures err_records { OnErr result (records.new ≡ records.old) }
    ensures err_askers { OnErr result (AreSame askers.old askers.new) }
{
    match records.get(object) {
        Some(record) => exchange(askers, object, &record.key, &key)?,
        None => return Ok(()),
    }
    records.edit(object, Edit::Key(key));
    Ok(())
}

// Removes the key of an object and its entries among the askers.
pub(crate) fn unkey(records: &mut Slots, askers: &mut Lists, object: u32)
    ensures records { records.new ≡ edit object (with_key None) records.old }
    ensures askers { (r : Record) → lookup (nat_eq object) records.old ≡ Some r
        → AreRekeyed object r.key None askers.old askers.new }
{
    match records.get(object) {
        Some(record) => leave(askers, object, &record.key, &None),
        None => return,
    }
    records.edit(object, Edit::Key(None));
}

// Moves an object to another place by three edits. The edit that may fail comes first.
pub(crate) fn relocate_in(
    records: &mut Slots,
    contents: &mut Lists,
    object: u32,
    from: u32,
    to: u32,
) -> Result<(), AllocError>
    ensures ok_records { OnOk result (records.new ≡ edit object (placed_at to) records.old) }
    ensures ok_contents { OnOk result (AreMoved object from to contents.old contents.new) }
    ensures err_records { OnErr result (records.new ≡ records.old) }
    ensures err_contents { OnErr result (AreSame contents.old contents.new) }
{
    contents.insert(to, object)?;
    contents.remove(from, object);
    records.edit(object, Edit::Place(to));
    Ok(())
}
