//! The partners of accesses: those of the same object that they race with.
ghost use Rattle.std.specs.Prelude.{◌≡◌, ◌<◌, [], ◌∷◌, ◌++◌, length, IfOk, OnOk};
ghost use Rattle.access_partners.specs.reading.Pairs.{kept_by, AreChosen, AreCopied, AreAllByCells, AreFirsts, HasPartners, ArePartnersBy};

use crate::pairs::{firsts, pairs_of};
use crate::points::Point;
use access_groups::ObjectAccess;
use std::alloc::Global;
use tm_lattice::NoMemory;

// How many partners of an access are shown.
const SHOWN: usize = 8;

/// How many partners an access has, and the first eight of them.
#[derive(Drop)]
pub(crate) struct Partners {
    pub(crate) count: usize,
    pub(crate) shown: Vec<ObjectAccess>,
}

// Adds an access, if it is one.
fn add_if(chosen: &mut Vec<ObjectAccess>, is: bool, access: ObjectAccess) -> Result<(), NoMemory>
    ensures { OnOk result (chosen.new.items ≡ chosen.old.items ++ kept_by (is ∷ []) (access ∷ [])) }
{
    if !is {
        return Ok(());
    }
    chosen.push(access)?;
    Ok(())
}

// Those of which this tells that they are partners.
fn chosen(
    alloc: Global,
    accesses: &[ObjectAccess],
    pairs: &[bool],
) -> Result<Vec<ObjectAccess>, NoMemory>
    requires { length pairs.now ≡ length accesses.now }
    ensures { IfOk result (λ chosen. chosen.items ≡ kept_by pairs.now accesses.now) }
{
    let mut chosen = Vec::new(alloc);
    for at in 0..accesses.len() {
        add_if(&mut chosen, pairs[at], accesses[at])?;
    }
    Ok(chosen)
}

// Their number, and the first eight of them.
fn partners_in(
    alloc: Global,
    accesses: &[ObjectAccess],
    pairs: &[bool],
) -> Result<Partners, NoMemory>
    requires { length pairs.now ≡ length accesses.now }
    ensures { IfOk result (λ partners. AreChosen pairs.now accesses.now partners) }
{
    let mut shown = chosen(alloc, accesses, pairs)?;
    let count = shown.len();
    shown.truncate(SHOWN);
    Ok(Partners { count, shown })
}

// The same ones.
fn copied(alloc: Global, partners: &Partners) -> Result<Partners, NoMemory>
    ensures { IfOk result (λ same. AreCopied partners.now same) }
{
    let shown = partners.shown.to_vec(alloc)?;
    Ok(Partners {
        count: partners.count,
        shown,
    })
}

// The partners of the access with this number, where those of the earlier ones are known.
fn partners_of(
    alloc: Global,
    accesses: &[ObjectAccess],
    points: &[Vec<Point>],
    firsts: &[usize],
    at: usize,
    known: &[Partners],
) -> Result<Partners, NoMemory>
    requires count { length points.now ≡ length accesses.now }
    requires by_cells { AreAllByCells points.now }
    requires firsts { AreFirsts accesses.now points.now firsts.now }
    requires at { at < length accesses.now }
    requires known { ArePartnersBy accesses.now points.now at known.now }
    ensures { IfOk result (λ partners. HasPartners accesses.now points.now at partners.count partners.shown.items) }
{
    let first = firsts[at];
    if first < at {
        return copied(alloc, &known[first]);
    }
    let pairs = pairs_of(alloc, accesses, points, firsts, at)?;
    partners_in(alloc, accesses, &pairs)
}

/// The partners of each access.
pub(crate) fn partners_by_access(
    alloc: Global,
    accesses: &[ObjectAccess],
    points: &[Vec<Point>],
) -> Result<Vec<Partners>, NoMemory>
    requires count { length points.now ≡ length accesses.now }
    requires by_cells { AreAllByCells points.now }
    ensures { IfOk result (λ partners. ArePartnersBy accesses.now points.now (length accesses.now) partners.items) }
{
    let firsts = firsts(alloc, accesses, points)?;
    let mut all = Vec::new(alloc);
    for at in 0..accesses.len() {
        let partners = partners_of(alloc, accesses, points, &firsts, at, &all)?;
        all.push(partners)?;
    }
    Ok(all)
}
