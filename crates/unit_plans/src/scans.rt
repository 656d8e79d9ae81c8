//! What each token of the units is.

ghost use Rattle.std.specs.Prelude.{◌≡◌, ◌++◌, [], ◌∷◌, List, IfOk, OnOk, length, map};
ghost use Rattle.unit_plans.specs.Marks.{mark_of};
ghost use Rattle.unit_plans.specs.Sights.{behind, behind_sight, closes, goes_on, is_type, next_mark, next_room};
ghost use Rattle.unit_plans.specs.Sights.{opened_by, room_behind, rooms_behind, sight_of, sights_of, typedef_by, typedef_of};
ghost use Rattle.unit_plans.specs.declared.declarations.Sight.{Sight as Seen};
ghost use Rattle.unit_plans.specs.reading.Scans.{stand_of};
ghost use Rattle.unit_plans.specs.reading.Tables.{IsTable};

use crate::declarations::{Declared, Local, Role, Sight, Spot};
use crate::marks::{Mark, mark_of};
use crate::rooms::{Room, opened};
use crate::spots::{behind_token, ends, first_spot, lead_behind, role_of};
use crate::tables::{first_named, name_in, no_names, note};
use std::alloc::Global;
use std::collections::BTreeMap;
use tm_lattice::NoMemory;
use tm_terms::Token;
use unit_tokens::unit_of;

/// Where a scan stands: in what, in which rooms round that, and what it has found.
#[derive(Drop)]
pub struct Scan {
    spot: Spot,
    rooms: Vec<Room>,
    sights: Vec<Sight>,
    /// The names that typedefs have declared.
    types: BTreeMap<Local, usize>,
}

/// The name that a token declares by `typedef`.
fn typedef_of(sight: Sight) -> Option<Local>
    ensures { result ≡ typedef_of sight }
{
    match sight.role {
        Role::Declared(Declared::Typedef) => name_in(sight.unit, sight.token, sight.role),
        _ => None,
    }
}

/// Whether a token is a name that a typedef of its unit has declared.
fn is_type(types: &BTreeMap<Local, usize>, unit: usize, mark: Mark) -> bool
    ensures { (sights : List Seen) → IsTable types.now (map typedef_of sights) → result ≡ is_type sights unit mark }
{
    match mark {
        Mark::Name(name) => {
            let local = Local {
                unit,
                is_tag: false,
                name,
            };
            first_named(types, local).is_some()
        }
        _ => false,
    }
}

fn closes(mark: Mark) -> bool
    ensures { result ≡ closes mark }
{
    match mark {
        Mark::Close | Mark::CloseBrace => true,
        _ => false,
    }
}

/// What a token is that stands here, in so many brackets.
fn sight_of(
    number: usize,
    unit: usize,
    spot: Spot,
    brackets: usize,
    is_type: bool,
    token: Token,
    next: Mark,
) -> Sight
    ensures { result ≡ sight_of number unit spot brackets is_type token next }
{
    let mark = mark_of(token.shape);
    Sight {
        number,
        token,
        unit,
        spot,
        role: role_of(spot, brackets < 1, is_type, mark, next),
        ends: ends(spot, brackets, mark),
    }
}

/// Leaves brackets, and tells the room round them.
fn left(rooms: &mut Vec<Room>) -> Room
    ensures room { result ≡ room_behind rooms.old.items Room.Inner None Mark.Close }
    ensures rooms { rooms.new.items ≡ rooms_behind rooms.old.items Room.Inner None Mark.Close }
{
    match rooms.pop() {
        Some(room) => room,
        None => Room::Outer,
    }
}

/// Moves to the room of the next token, and tells it.
fn moved(
    rooms: &mut Vec<Room>,
    room: Room,
    inner: Option<Room>,
    mark: Mark,
) -> Result<Room, NoMemory>
    ensures room { IfOk result (λ next. next ≡ room_behind rooms.old.items room inner mark) }
    ensures rooms { OnOk result (rooms.new.items ≡ rooms_behind rooms.old.items room inner mark) }
{
    if let Some(inner) = inner {
        rooms.push(room)?;
        return Ok(inner);
    }
    if closes(mark) {
        return Ok(left(rooms));
    }
    Ok(room)
}

/// Where the next token stands in the same declaration, but for its room.
fn goes_on(sight: Sight, brackets: usize, room: Room) -> Spot
    ensures { (rooms : List Room) → brackets ≡ length rooms
        → room ≡ next_room rooms sight
        → result ≡ goes_on rooms sight }
{
    let mark = mark_of(sight.token.shape);
    let name = name_in(0, sight.token, sight.role);
    let mut spot = behind_token(
        sight.spot,
        brackets < 1,
        sight.token,
        sight.role,
        name,
        mark,
    );
    spot.lead = lead_behind(sight.spot.lead, sight.role, mark);
    spot.room = room;
    spot
}

/// Goes behind a token.
fn pass(scan: &mut Scan, sight: Sight) -> Result<(), NoMemory>
    requires spot { sight.spot ≡ scan.old.spot }
    requires types { IsTable scan.old.types (map typedef_of scan.old.sights.items) }
    ensures stand { OnOk result (stand_of scan.new ≡ behind_sight (stand_of scan.old) sight) }
    ensures types { OnOk result (IsTable scan.new.types (map typedef_of scan.new.sights.items)) }
{
    note(&mut scan.types, typedef_of(sight), scan.sights.len())?;
    scan.sights.push(sight)?;
    let mark = mark_of(sight.token.shape);
    let inner = opened(sight.spot.lead, sight.spot.room, sight.spot.in_value, mark);
    let brackets = scan.rooms.len();
    let room = moved(&mut scan.rooms, sight.spot.room, inner, mark)?;
    scan.spot = if sight.ends {
        first_spot(scan.sights.len())
    } else {
        goes_on(sight, brackets, room)
    };
    Ok(())
}

/// Looks at a token; `next` stands behind it.
fn see(scan: &mut Scan, borders: &[u32], token: Token, next: Mark) -> Result<(), NoMemory>
    requires types { IsTable scan.old.types (map typedef_of scan.old.sights.items) }
    ensures stand { OnOk result (stand_of scan.new ≡ behind borders.now (stand_of scan.old) token next) }
    ensures types { OnOk result (IsTable scan.new.types (map typedef_of scan.new.sights.items)) }
{
    let unit = unit_of(borders, token.place.line);
    let is_type = is_type(&scan.types, unit, mark_of(token.shape));
    let number = scan.sights.len();
    let sight = sight_of(
        number,
        unit,
        scan.spot,
        scan.rooms.len(),
        is_type,
        token,
        next,
    );
    pass(scan, sight)
}

/// What the next token is to declarations.
fn next_mark(tokens: &[Token]) -> Mark
    ensures { result ≡ next_mark tokens.now }
{
    match tokens {
        [token, ..] => mark_of(token.shape),
        [] => Mark::Other,
    }
}

/// What the tokens of the units are.
pub fn sights_of(alloc: Global, borders: &[u32], tokens: &[Token]) -> Result<Vec<Sight>, NoMemory>
    ensures { IfOk result (λ sights. sights.items ≡ sights_of borders.now tokens.now) }
{
    let mut scan = Scan {
        spot: first_spot(0),
        rooms: Vec::new(alloc),
        sights: Vec::new(alloc),
        types: no_names(alloc),
    };
    let mut left = tokens;
    while let [token, rest @ ..] = left {
        see(&mut scan, borders, *token, next_mark(rest))?;
        left = rest;
    }
    let Scan {
        spot: _spot,
        rooms: _rooms,
        sights,
        types: _types,
    } = scan;
    Ok(sights)
}
