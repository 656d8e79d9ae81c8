//! Where a token stands: outside of all brackets, among the members of a structure, among the constants of an
//! enumeration, or elsewhere; and what stands right before it.

ghost use Rattle.std.specs.Prelude.{◌≡◌};
ghost use Rattle.unit_plans.specs.Rooms.{in_braces, in_parentheses, is_local, is_inner, opened};

use crate::marks::Mark;

/// What brackets make of what stands in them.
#[derive(Clone, Copy)]
pub enum Room {
    /// File scope: outside of all brackets, or in those round a declarator.
    Outer,
    /// The braces of a structure at file scope.
    Members,
    /// The braces of a structure in a body or among parameters.
    LocalMembers,
    /// The braces of an enumeration at file scope.
    Constants,
    /// All else: parameters, lengths, values, bodies.
    Inner,
}

/// What stands right before a token in its declaration.
#[derive(Clone, Copy)]
pub enum Lead {
    /// `.` or `->`
    Selector,
    /// `struct`
    Struct,
    /// `struct` and a tag
    StructTag,
    /// `enum`
    Enum,
    /// `enum` and a tag
    EnumTag,
    /// `__task`
    Task,
    /// `{` or `,`
    Begin,
    /// A name that is declared here, of an object, a function or a type.
    Declared,
    Other,
}

/// Whether a room stands in a body or among parameters.
pub fn is_local(room: Room) -> bool
    ensures { result ≡ is_local room }
{
    match room {
        Room::Inner | Room::LocalMembers => true,
        Room::Outer | Room::Members | Room::Constants => false,
    }
}

/// Whether a room is neither file scope, a structure nor an enumeration there.
pub fn is_inner(room: Room) -> bool
    ensures { result ≡ is_inner room }
{
    match room {
        Room::Inner => true,
        Room::Outer | Room::Members | Room::LocalMembers | Room::Constants => false,
    }
}

/// What stands in braces, by what stands before them and by where they stand.
pub fn in_braces(lead: Lead, room: Room) -> Room
    ensures { result ≡ in_braces lead room }
{
    match lead {
        Lead::Struct | Lead::StructTag => {
            if is_local(room) {
                Room::LocalMembers
            } else {
                Room::Members
            }
        }
        Lead::Enum | Lead::EnumTag => {
            if is_local(room) {
                Room::Inner
            } else {
                Room::Constants
            }
        }
        _ => Room::Inner,
    }
}

/// What stands in parentheses at file scope: parameters, or a declarator.
fn in_outer_parentheses(lead: Lead) -> Room
    ensures { result ≡ in_parentheses lead Room.Outer }
{
    match lead {
        Lead::Declared | Lead::Task => Room::Inner,
        _ => Room::Outer,
    }
}

/// What stands in parentheses, by what stands before them and by where they stand.
pub fn in_parentheses(lead: Lead, room: Room) -> Room
    ensures { result ≡ in_parentheses lead room }
{
    match room {
        Room::Members | Room::LocalMembers => room,
        Room::Outer => in_outer_parentheses(lead),
        Room::Constants | Room::Inner => Room::Inner,
    }
}

/// The room that a token opens, if it opens one.
pub fn opened(lead: Lead, room: Room, in_value: bool, mark: Mark) -> Option<Room>
    ensures { result ≡ opened lead room in_value mark }
{
    match mark {
        Mark::OpenBracket => Some(Room::Inner),
        Mark::OpenParenthesis => {
            Some(if in_value {
                Room::Inner
            } else {
                in_parentheses(lead, room)
            })
        }
        Mark::OpenBrace => Some(if in_value {
            Room::Inner
        } else {
            in_braces(lead, room)
        }),
        _ => None,
    }
}
