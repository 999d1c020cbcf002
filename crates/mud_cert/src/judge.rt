//! Checks a certificate, trusting nobody.

ghost use Rattle.std.specs.Prelude.{◌≡◌, ◌≢◌, nat_eq, find, [], None, Some, option_map, IfOk, IfErr, IsOk};
ghost use Rattle.std.specs.List.{list_any, list_all};
ghost use Rattle.mud_world.specs.State.{IsHolding, is_room};
ghost use Rattle.mud_world.specs.Sound.{IsSound};
ghost use Rattle.mud_cert.specs.Certificate.{IsCertificate};
ghost use Rattle.mud_cert.specs.declared.doubt.Doubt.TheVariants.{OutOfMemory, Arc};
ghost use Rattle.mud_cert.specs.inner.Tests.{is_label, ◌or◌, numbers, is_new, stands, is_started, breaks};
ghost use Rattle.mud_cert.specs.inner.Tests.{walk_doubt, given_doubt, member_doubt, members_doubt, first_doubt};
ghost use Rattle.mud_cert.specs.Valid.{IsValid, Optimal};
ghost use Rattle.mud_cert.specs.Doubts.{IsFirstDoubt};

use crate::agree::concludes;
use crate::look::{is_after, label_at};
use crate::steps::{first_break, first_lock, hop_of, passes, progress_of, step_of};
use crate::{Cert, Doubt, Form, Member};
use mud_roads::Label;
use mud_world::{Holding, World};
use std::alloc::AllocError;

// Returns whether an earlier member is this player.
fn is_among(earlier: &[Member], player: u32) -> bool
    ensures { result ≡ list_any (λ m. nat_eq m.player player) earlier.now }
{
    earlier.iter().any(|m| m.player() == player)
}

// Returns whether the member is a player of the world, and not an earlier member.
fn is_new(world: &World, earlier: &[Member], member: &Member) -> bool
    ensures { result ≡ is_new world.now earlier.now member.now }
{
    world.is_player(member.player()) && !is_among(earlier, member.player())
}

// Returns whether the member stands where the certificate claims.
fn stands(world: &World, member: &Member) -> bool
    ensures { result ≡ stands world.now member.now }
{
    world.is_in(member.player(), member.from())
}

// Returns whether each labelled number is a room.
fn are_rooms(world: &World, labels: &[(u32, Label)]) -> bool
    ensures { result ≡ list_all (λ e. is_room world.now e.0) labels.now }
{
    labels.iter().all(|entry| world.is_room(entry.0))
}

// Returns whether the member's start is labelled 0, and each labelled number is a room.
fn is_started(world: &World, member: &Member) -> bool
    ensures { result ≡ is_started world.now member.now }
{
    match label_at(member, member.from()) {
        Some(label) => label.cost == 0 && label.exits == 0 && are_rooms(world, member.labels()),
        None => false,
    }
}

// Returns whether the exit is open to the member, leaves a labelled room, and leads to a room without a label or with
// one that is too great.
fn breaks(world: &World, form: Form, holding: &Holding, member: &Member, exit: u32) -> bool
    requires { IsHolding world.now member.now.player holding.now }
    ensures { result ≡ breaks world.now form member.now exit }
{
    if !passes(world, holding, exit) {
        return false;
    }
    let Some(passage) = world.passage(exit) else {
        return false;
    };
    let Some(before) = label_at(member, passage.source) else {
        return false;
    };
    let step = step_of(world, exit);
    match label_at(member, step.to) {
        Some(label) => !is_after(label, before, hop_of(form), step),
        None => true,
    }
}

// Returns the lowest exit that breaks the labels. It tries each number of the world, so it looks only at the labels of
// ends of exits.
fn first_breach(world: &World, form: Form, holding: &Holding, member: &Member) -> Option<u32>
    requires { IsHolding world.now member.now.player holding.now }
    ensures { result ≡ find (breaks world.now form member.now) (numbers world.now) }
{
    for number in 0..world.next_number() {
        if breaks(world, form, holding, member, number) {
            return Some(number);
        }
    }
    None
}

// Returns whether there is a label with this cost and this number of exits.
fn is_labelled(label: Option<Label>, cost: u128, exits: usize) -> bool
    ensures { result ≡ is_label label (record { cost = cost; exits = exits }) }
{
    match label {
        Some(label) => u128::from(label.cost) == cost && label.exits as usize == exits,
        None => false,
    }
}

// Returns the first doubt of the member's walk.
fn walk_doubt(
    world: &World,
    form: Form,
    holding: &Holding,
    member: &Member,
    walk: &[u32],
) -> Option<Doubt>
    requires { IsHolding world.now member.now.player holding.now }
    ensures { result ≡ walk_doubt world.now form member.now walk.now }
{
    let player = member.player();
    if let Some(at) = first_break(world, member.from(), walk) {
        return Some(Doubt::WalkBroken { player, at });
    }
    if let Some(at) = first_lock(world, holding, walk) {
        return Some(Doubt::WalkLocked { player, at });
    }
    let progress = progress_of(world, form, member.from(), walk);
    if is_labelled(
        label_at(member, progress.end),
        progress.cost,
        progress.exits,
    ) {
        None
    } else {
        Some(Doubt::WalkCost(player))
    }
}

// Returns the first doubt of the member's walk, if one is given.
fn given_doubt(world: &World, form: Form, holding: &Holding, member: &Member) -> Option<Doubt>
    requires { IsHolding world.now member.now.player holding.now }
    ensures { result ≡ given_doubt world.now form member.now member.now.walk }
{
    match member.walk() {
        Some(walk) => walk_doubt(world, form, holding, member, walk),
        None => None,
    }
}

// Returns the first doubt of the member's labels and walk.
fn labels_doubt(world: &World, form: Form, holding: &Holding, member: &Member) -> Option<Doubt>
    requires { IsHolding world.now member.now.player holding.now }
    ensures { result
        ≡ option_map (λ x. Arc member.now.player x) (find (breaks world.now form member.now) (numbers world.now))
        or given_doubt world.now form member.now member.now.walk }
{
    let player = member.player();
    if let Some(exit) = first_breach(world, form, holding, member) {
        return Some(Doubt::Arc { player, exit });
    }
    given_doubt(world, form, holding, member)
}

// Returns the first doubt of a member that follows these members. It allocates the member's holding.
fn member_doubt(
    world: &World,
    form: Form,
    earlier: &[Member],
    member: &Member,
) -> Result<Option<Doubt>, AllocError>
    ensures { IfOk result (λ doubt. doubt ≡ member_doubt world.now form earlier.now member.now) }
{
    let player = member.player();
    if !is_new(world, earlier, member) {
        return Ok(Some(Doubt::NoSuchPlayer(player)));
    }
    if !stands(world, member) {
        return Ok(Some(Doubt::WrongStart(player)));
    }
    if !is_started(world, member) {
        return Ok(Some(Doubt::StartLabel(player)));
    }
    let holding = world.carried(player)?;
    Ok(labels_doubt(world, form, &holding, member))
}

// Returns the first doubt of the members.
fn members_doubt(world: &World, form: Form, members: &[Member]) -> Result<Option<Doubt>, AllocError>
    ensures { IfOk result (λ doubt. doubt ≡ members_doubt world.now form [] members.now) }
{
    for (i, member) in members.iter().enumerate() {
        if let Some(doubt) = member_doubt(world, form, &members[..i], member)? {
            return Ok(Some(doubt));
        }
    }
    Ok(None)
}

// Returns the first doubt of the certificate.
fn first_doubt(world: &World, cert: &Cert) -> Result<Option<Doubt>, AllocError>
    ensures { IfOk result (λ doubt. doubt ≡ first_doubt world.now cert.now) }
{
    if let Some(doubt) = members_doubt(world, cert.form(), cert.members())? {
        return Ok(Some(doubt));
    }
    if concludes(world, cert.members(), cert.conclusion()) {
        Ok(None)
    } else {
        Ok(Some(Doubt::Conclusion))
    }
}

// Tells the prover that the world is sound and that the certificate keeps its invariant. It does nothing at run time.
fn know_both(world: &World, cert: &Cert)
    ensures world { IsSound world.now }
    ensures certificate { IsCertificate cert.now }
{
    // for the prover: `next_number` shows that the world is sound
    let _known = world.next_number();
    // for the prover: reading a field makes the type's invariant known
    let _known = &cert.members;
}

/// Checks the certificate in this world: member by member, then the conclusion. It returns the first doubt ([`Doubt`]
/// has their order).
///
/// A certificate without a doubt is valid, and its conclusion is optimal. Its walks lead the members to the room, and
/// no walk costs less or, if exits count, as much with fewer of them. If it claims that no walk leads to a room, none
/// does. No room is a better meeting room. None of this depends on who made the certificate.
///
/// `OutOfMemory` says nothing about the certificate; only the holding of each member is allocated. For each member the
/// time is a look-up for each exit of the world, with its keys, for each exit of the walk, and for each label.
pub fn check(world: &World, cert: &Cert) -> Result<(), Doubt>
    ensures valid { IsOk result → IsValid world.now cert.now }
    ensures refuses { IfErr result (λ doubt. doubt ≢ OutOfMemory → IsFirstDoubt world.now cert.now doubt) }
    ensures optimal { IsOk result → Optimal world.now cert.now }
{
    // for the prover: the world is sound, and the certificate keeps its invariant
    know_both(world, cert);
    match first_doubt(world, cert)? {
        None => Ok(()),
        Some(doubt) => Err(doubt),
    }
}
