//! What is noted of a body beside its edges: what is noted so of its call paths, counted from where each begins.
ghost use Rattle.std.specs.Prelude.{◌≡◌, ◌++◌, ℕ, List, map, option_map, IfOk, OnOk};
ghost use Rattle.std.specs.List.{flat_map};
ghost use Rattle.path_origins.specs.Noted.{Noted, span_by, operands_by, reload_by, overwrite_by, life_by};
ghost use Rattle.path_origins.specs.Shown.{shown};
ghost use Rattle.edge_origins.specs.reading.Gathered.{counted_on};

use crate::starts::Start;
use body_builder::more;
use path_origins::{Life, Notes, Overwrite, Passing, Reload, Span, Unsequenced};
use std::alloc::Global;
use tm_lattice::NoMemory;

/// What is noted of a path beside its edges, of one kind.
pub(crate) trait Beside: Copy {
    /// That of what is noted of a path.
    ghost listed: { Noted → List Self };

    /// The same where so many edges stand before.
    ghost counted: { ℕ → Self → Self };

    /// That of what is noted of a path.
    fn listed_in(notes: &Notes) -> &[Self]
        ensures { result.now ≡ listed (shown notes.now) };

    /// The same where so many edges stand before.
    fn counted_from(&self, at: u32) -> Result<Self, NoMemory>
        ensures { IfOk result (λ found. found ≡ counted at self.now) };
}

// Edges that are counted from a later one on.
fn span_from(at: u32, span: Span) -> Result<Span, NoMemory>
    ensures { IfOk result (λ found. found ≡ span_by at span) }
{
    Ok(Span {
        first: more(at, span.first)?,
        end: more(at, span.end)?,
    })
}

// The edges of an initialiser, if there is one, that are counted so.
fn initialiser_from(at: u32, initialiser: Option<Span>) -> Result<Option<Span>, NoMemory>
    ensures { IfOk result (λ found. found ≡ option_map (span_by at) initialiser) }
{
    match initialiser {
        Some(span) => Ok(Some(span_from(at, span)?)),
        None => Ok(None),
    }
}

impl Beside for Unsequenced {
    ghost listed = { λ x. x.operands };

    ghost counted = { operands_by };

    fn listed_in(notes: &Notes) -> &[Unsequenced] {
        &notes.operands
    }

    fn counted_from(&self, at: u32) -> Result<Unsequenced, NoMemory> {
        Ok(Unsequenced {
            place: self.place,
            first: span_from(at, self.first)?,
            second: span_from(at, self.second)?,
        })
    }
}

impl Beside for Reload {
    ghost listed = { λ x. x.reloads };

    ghost counted = { reload_by };

    fn listed_in(notes: &Notes) -> &[Reload] {
        &notes.reloads
    }

    fn counted_from(&self, at: u32) -> Result<Reload, NoMemory> {
        Ok(Reload {
            place: self.place,
            load: more(at, self.load)?,
            right: span_from(at, self.right)?,
        })
    }
}

impl Beside for Overwrite {
    ghost listed = { λ x. x.overwrites };

    ghost counted = { overwrite_by };

    fn listed_in(notes: &Notes) -> &[Overwrite] {
        &notes.overwrites
    }

    fn counted_from(&self, at: u32) -> Result<Overwrite, NoMemory> {
        Ok(Overwrite {
            place: self.place,
            store: more(at, self.store)?,
            earlier: more(at, self.earlier)?,
        })
    }
}

impl Beside for Life {
    ghost listed = { λ x. x.lives };

    ghost counted = { life_by };

    fn listed_in(notes: &Notes) -> &[Life] {
        &notes.lives
    }

    fn counted_from(&self, at: u32) -> Result<Life, NoMemory> {
        Ok(Life {
            object: self.object,
            place: self.place,
            begins: more(at, self.begins)?,
            scope: span_from(at, self.scope)?,
            initialiser: initialiser_from(at, self.initialiser)?,
        })
    }
}

impl Beside for Passing {
    ghost listed = { λ x. x.passings };

    ghost counted = { λ at passing. passing };

    fn listed_in(notes: &Notes) -> &[Passing] {
        &notes.passings
    }

    fn counted_from(&self, _at: u32) -> Result<Passing, NoMemory> {
        Ok(*self)
    }
}

// What is noted of a path that begins at an edge.
fn put_counted<K: Beside>(to: &mut Vec<K>, at: u32, noted: &[K]) -> Result<(), NoMemory>
    ensures { OnOk result (to.new.items ≡ to.old.items ++ map (K.counted at) noted.now) }
{
    for one in noted {
        to.push(one.counted_from(at)?)?;
    }
    Ok(())
}

/// What is noted of the paths with these starts, of one kind.
pub(crate) fn gathered<K: Beside>(
    alloc: Global,
    notes: &[Notes],
    starts: &[Start],
) -> Result<Vec<K>, NoMemory>
    ensures { IfOk result (λ found. found.items ≡ flat_map (counted_on notes.now K.listed K.counted) starts.now) }
{
    let mut to = Vec::new(alloc);
    for start in starts {
        let Some(found) = notes.get(start.path as usize) else {
            return Err(NoMemory);
        };
        put_counted(&mut to, start.at, K::listed_in(found))?;
    }
    Ok(to)
}
