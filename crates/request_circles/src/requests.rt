//! Requests.
ghost use Rattle.std.specs.Prelude.{◌≡◌, ◌⊎◌, ◌↔◌, Contains, IsTrue, OnOk};
ghost use Rattle.std.specs.Int.{bit_at};
ghost use Rattle.request_circles.specs.declared.requests.Request.{Request as ARequest};
ghost use Rattle.request_circles.specs.Requests.{LeadsTo};
ghost use Rattle.request_circles.specs.reading.Steps.{Joins};

use tm_lattice::NoMemory;
use tm_terms::Place;

/// What a task asks for: its number, the mutexes that it holds, as a set in which bit m stands for the mutex with the
/// number m, the mutex that it asks for, and the place of its lock.
#[derive(Clone, Copy, PartialEq, Eq, PartialOrd, Ord)]
pub struct Request {
    pub task: u32,
    pub held: u16,
    pub mutex: u32,
    pub place: Place,
}

/// Adds a request; nothing where it is the same as the last one.
pub fn push_request(requests: &mut Vec<Request>, request: Request) -> Result<(), NoMemory>
    ensures { OnOk result ((r : ARequest) → Contains requests.new.items r
        ↔ (Contains requests.old.items r ⊎ (r ≡ request))) }
{
    if requests.last().copied() == Some(request) {
        return Ok(());
    }
    requests.push(request)?;
    Ok(())
}

/// Whether the mutex is in the set.
pub fn has_mutex(set: u16, mutex: u32) -> bool
    ensures { IsTrue result ↔ (bit_at set mutex ≡ 1) }
{
    mutex < 16 && (set >> mutex) % 2 == 1
}

// Whether a request leads to another.
fn leads_to(one: Request, other: Request) -> bool
    ensures { IsTrue result ↔ LeadsTo one other }
{
    one.task != other.task && one.held & other.held == 0 && has_mutex(other.held, one.mutex)
}

// Whether a request leads to another, or where the search goes back, the other to it.
pub(crate) fn joins(ahead: bool, one: Request, other: Request) -> bool
    ensures { IsTrue result ↔ Joins ahead one other }
{
    if ahead {
        leads_to(one, other)
    } else {
        leads_to(other, one)
    }
}
