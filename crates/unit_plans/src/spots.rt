//! Where a token stands in its declaration, and what it is to the names of its unit.

ghost use Rattle.std.specs.Prelude.{◌≡◌, true};
ghost use Rattle.unit_plans.specs.Spots.{behind_body, behind_name, behind_outside, behind_token, constant_or_used};
ghost use Rattle.unit_plans.specs.Spots.{declared_by, declared_or_used, defining, ends, first_of, first_spot};
ghost use Rattle.unit_plans.specs.Spots.{lead_behind, lead_behind_name, lead_behind_role, member_or_used, name_by};
ghost use Rattle.unit_plans.specs.Spots.{opens_body, ordinary_by, role_of, tag_by};

use crate::declarations::{Declared, Local, Role, Spot};
use crate::marks::{Mark, ends_member, is_open_brace, is_open_parenthesis};
use crate::rooms::{Lead, Room, in_braces, is_inner, is_local};
use tm_terms::Token;

/// The first token of a declaration.
pub fn first_spot(from: usize) -> Spot
    ensures { result ≡ first_spot from }
{
    Spot {
        from,
        room: Room::Outer,
        lead: Lead::Other,
        storage: None,
        in_value: false,
        has_body: false,
        declares: true,
        key: None,
        declared: None,
    }
}

/// Whether a brace here opens a body, by whether it stands outside of all brackets.
pub fn opens_body(spot: Spot, outside: bool) -> bool
    ensures { result ≡ opens_body spot outside }
{
    outside && !spot.in_value && is_inner(in_braces(spot.lead, spot.room))
}

/// What a name behind the specifiers is declared as.
fn declared_by(storage: Option<Declared>, next: Mark) -> Declared
    ensures { result ≡ declared_by storage next }
{
    match storage {
        Some(storage) => storage,
        None => {
            if is_open_parenthesis(next) {
                Declared::Extern
            } else {
                Declared::Defined
            }
        }
    }
}

/// What a name among members is.
fn member_or_used(next: Mark) -> Role
    ensures { result ≡ member_or_used next }
{
    if ends_member(next) {
        Role::None
    } else {
        Role::Used
    }
}

/// What a name among the constants of an enumeration is.
fn constant_or_used(lead: Lead) -> Role
    ensures { result ≡ constant_or_used lead }
{
    match lead {
        Lead::Begin => Role::Declared(Declared::Enumerator),
        _ => Role::Used,
    }
}

/// What a name at file scope is.
fn declared_or_used(spot: Spot, is_type: bool, next: Mark) -> Role
    ensures { result ≡ declared_or_used spot is_type next }
{
    if spot.in_value || is_type {
        Role::Used
    } else {
        Role::Declared(declared_by(spot.storage, next))
    }
}

/// What an ordinary name is.
fn ordinary_by(spot: Spot, is_type: bool, next: Mark) -> Role
    ensures { result ≡ ordinary_by spot.room spot is_type next }
{
    match spot.room {
        Room::Members | Room::LocalMembers => member_or_used(next),
        Room::Constants => constant_or_used(spot.lead),
        Room::Outer => declared_or_used(spot, is_type, next),
        Room::Inner => Role::Used,
    }
}

/// What a tag is.
fn tag_by(room: Room, next: Mark) -> Role
    ensures { result ≡ tag_by room next }
{
    if is_open_brace(next) {
        if is_local(room) {
            Role::OpenedWithin
        } else {
            Role::Opened
        }
    } else {
        Role::Tag
    }
}

/// What a name is.
fn name_by(spot: Spot, is_type: bool, next: Mark) -> Role
    ensures { result ≡ name_by spot.lead spot is_type next }
{
    match spot.lead {
        Lead::Selector => Role::None,
        Lead::Struct | Lead::Enum => tag_by(spot.room, next),
        _ => ordinary_by(spot, is_type, next),
    }
}

/// What a sign is behind which stands a value or a body.
fn defining(declared: Option<Token>) -> Role
    ensures { result ≡ defining declared }
{
    match declared {
        Some(token) => Role::Defines(token),
        None => Role::None,
    }
}

/// What a token is to the names of its unit, by whether it stands outside of all brackets, whether a typedef has
/// declared it, and the token behind it.
pub fn role_of(spot: Spot, outside: bool, is_type: bool, mark: Mark, next: Mark) -> Role
    ensures { result ≡ role_of spot outside is_type mark next }
{
    match mark {
        Mark::Name(_) => name_by(spot, is_type, next),
        Mark::Equal => {
            if outside {
                defining(spot.declared)
            } else {
                Role::None
            }
        }
        Mark::OpenBrace => {
            if opens_body(spot, outside) {
                defining(spot.declared)
            } else {
                Role::None
            }
        }
        _ => Role::None,
    }
}

/// Whether a declaration ends with a token that stands in so many brackets.
pub fn ends(spot: Spot, brackets: usize, mark: Mark) -> bool
    ensures { result ≡ ends spot brackets mark }
{
    match mark {
        Mark::Semicolon => brackets < 1,
        Mark::CloseBrace => brackets < 2 && spot.has_body,
        _ => false,
    }
}

fn lead_behind_role(role: Role) -> Lead
    ensures { result ≡ lead_behind_role role }
{
    match role {
        Role::Declared(
            Declared::Static | Declared::Extern | Declared::Defined | Declared::Typedef,
        ) => Lead::Declared,
        _ => Lead::Other,
    }
}

fn lead_behind_name(lead: Lead, role: Role) -> Lead
    ensures { result ≡ lead_behind_name lead role }
{
    match lead {
        Lead::Struct => Lead::StructTag,
        Lead::Enum => Lead::EnumTag,
        _ => lead_behind_role(role),
    }
}

/// What stands right before the next token.
pub fn lead_behind(lead: Lead, role: Role, mark: Mark) -> Lead
    ensures { result ≡ lead_behind lead role mark }
{
    match mark {
        Mark::Name(_) => lead_behind_name(lead, role),
        Mark::Selector => Lead::Selector,
        Mark::Struct => Lead::Struct,
        Mark::Enum => Lead::Enum,
        Mark::Task => Lead::Task,
        Mark::OpenBrace | Mark::Comma => Lead::Begin,
        _ => Lead::Other,
    }
}

fn first_of(one: Option<Local>, other: Option<Local>) -> Option<Local>
    ensures { result ≡ first_of one other }
{
    match one {
        Some(one) => Some(one),
        None => other,
    }
}

/// Where the token behind a name stands.
fn behind_name(mut spot: Spot, token: Token, role: Role, name: Option<Local>) -> Spot
    ensures { result ≡ behind_name spot token role name }
{
    match role {
        Role::Declared(Declared::Static | Declared::Defined) => {
            spot.declares = false;
            spot.declared = Some(token);
        }
        Role::Declared(Declared::Extern) => spot.declared = Some(token),
        Role::Declared(Declared::Typedef) => {
            spot.key = first_of(spot.key, name);
            spot.declared = Some(token);
        }
        Role::Declared(Declared::Mutex | Declared::Enumerator) | Role::Opened => {
            spot.key = first_of(spot.key, name);
        }
        _ => {}
    }
    spot
}

/// Where the token behind one outside of all brackets stands.
fn behind_outside(mut spot: Spot, mark: Mark) -> Spot
    ensures { result ≡ behind_outside spot mark }
{
    match mark {
        Mark::Equal => {
            spot.in_value = true;
            spot.declares = false;
        }
        Mark::Comma => {
            spot.in_value = false;
            spot.declared = None;
        }
        Mark::Storage(storage) => spot.storage = Some(storage),
        _ => {}
    }
    spot
}

/// Where the token behind the brace that opens a body stands.
fn behind_body(mut spot: Spot) -> Spot
    ensures { result ≡ behind_body spot }
{
    spot.has_body = true;
    spot.declares = false;
    spot
}

/// Where the token behind one stands, but for its room and what stands right before it.
pub fn behind_token(
    spot: Spot,
    outside: bool,
    token: Token,
    role: Role,
    name: Option<Local>,
    mark: Mark,
) -> Spot
    ensures { result ≡ behind_token spot outside token role name mark }
{
    match mark {
        Mark::Name(_) => behind_name(spot, token, role, name),
        Mark::OpenBrace => {
            if opens_body(spot, outside) {
                behind_body(spot)
            } else {
                spot
            }
        }
        other => {
            if outside {
                behind_outside(spot, other)
            } else {
                spot
            }
        }
    }
}
