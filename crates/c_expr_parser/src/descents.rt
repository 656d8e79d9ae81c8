ghost use Rattle.std.specs.Prelude.{◌≡◌, ◌≤◌, ◌+◌, suc, true, length, IfOk};
ghost use Rattle.tm_terms.specs.ExprTrees.{tree_of, no_arguments};
ghost use Rattle.tm_terms.specs.ExprSpelling.{prefix_of};
ghost use Rattle.c_expr_parser.specs.reading.Parts.{seen_rest, name_at};
ghost use Rattle.c_expr_parser.specs.reading.Founds.{pair_of, seen_found, seen_arguments, seen_type, IfFound, IsStep};
ghost use Rattle.c_expr_parser.specs.reading.Founds.{IsLow};
ghost use Rattle.c_expr_parser.specs.reading.Descent.{arguments, arguments_from, called, name_form, prefix_form};
ghost use Rattle.c_expr_parser.specs.reading.Descent.{inside_form, closed_type, cast_form, sizeof_type_form};
ghost use Rattle.c_expr_parser.specs.reading.Descent.{sizeof_form, input_form, islocked_form, sign_form, word_form};
ghost use Rattle.c_expr_parser.specs.reading.Descent.{form, may_continue, continued, continued_member, step, steps};
ghost use Rattle.c_expr_parser.specs.reading.Descent.{from_form, reads};

use crate::found::{Found, FoundArguments, Stepped, Tried};
use crate::levels::{level_of, operand_level, rank, right_level};
use crate::marks::{Mark, Opener, after, name_at, opener_left, opener_level, opener_of};
use crate::nodes;
use crate::operators::prefix_of;
use crate::type_names::{begins_type, read_type_name};
use std::alloc::Global;
use tm_lattice::NoMemory;
use tm_terms::{
    Access, Expr, Infix, Level, Name, Names, Place, Postfix, Prefix, Shape, Sign, Token, TypeName,
    Word,
};

// The longest expression at a level of at most the allowed height.
#[cycle(parse)]
#[tactic(auto, unfolding(crate::specs::reading::Descent::reads))]
pub(crate) fn read<'a>(
    alloc: Global,
    types: &Names,
    allowed: u32,
    at: u32,
    tokens: &'a [Token],
) -> Result<Tried<'a, Found<'a>>, NoMemory>
    requires { allowed ≤ 500 }
    ensures value { IfOk result (λ found. seen_found found ≡ reads types.now allowed at tokens.now) }
    ensures low { IfOk result (λ found. IfFound found (λ f. f.height ≤ allowed)) }
{
    if allowed == 0 {
        return Ok(Tried::Stuck(tokens));
    }
    match form(alloc, types, allowed - 1, tokens)? {
        Tried::Stuck(at) => Ok(Tried::Stuck(at)),
        Tried::Found(first) => from_form(alloc, types, allowed - 1, at, first),
    }
}

// The expression that the first token begins, with no operator after it; its parts have at most the
// allowed height.
#[cycle(parse)]
#[tactic(auto, unfolding(crate::specs::reading::Descent::form))]
fn form<'a>(
    alloc: Global,
    types: &Names,
    allowed: u32,
    tokens: &'a [Token],
) -> Result<Tried<'a, Found<'a>>, NoMemory>
    requires { allowed ≤ 499 }
    ensures value { IfOk result (λ found. seen_found found
        ≡ form types.now (reads types.now allowed) allowed tokens.now) }
    ensures low { IfOk result (λ found. IfFound found (λ f. f.height ≤ allowed + 1)) }
{
    let [token, rest @ ..] = tokens else {
        return Ok(Tried::Stuck(tokens));
    };
    let place = token.place;
    match token.shape {
        Shape::Name(name) => name_form(alloc, types, allowed, name, place, rest, tokens),
        Shape::Word(word) => word_form(alloc, types, allowed, word, place, rest, tokens),
        Shape::Integer(constant) => {
            Ok(Tried::Found(nodes::integer(alloc, constant, place, rest)?))
        }
        Shape::Character(value) => Ok(Tried::Found(nodes::character(alloc, value, place, rest)?)),
        Shape::Sign(sign) => sign_form(alloc, types, allowed, sign, place, rest, tokens),
    }
}

// What a sign begins: an operator with its operand, a cast, or an expression in parentheses.
#[cycle(parse)]
fn sign_form<'a>(
    alloc: Global,
    types: &Names,
    allowed: u32,
    sign: Sign,
    place: Place,
    rest: &'a [Token],
    whole: &'a [Token],
) -> Result<Tried<'a, Found<'a>>, NoMemory>
    requires { allowed ≤ 499 }
    ensures value { IfOk result (λ found. seen_found found
        ≡ sign_form types.now (reads types.now allowed) (prefix_of sign) sign place rest.now) }
    ensures low { IfOk result (λ found. IfFound found (λ f. f.height ≤ allowed + 1)) }
{
    match prefix_of(sign) {
        Some(operator) => prefix_form(alloc, types, allowed, operator, place, rest),
        None => match sign {
            Sign::OpenParenthesis => {
                if begins_type(types, rest) {
                    cast_form(alloc, types, allowed, place, rest)
                } else {
                    inside_form(alloc, types, allowed, rest)
                }
            }
            _ => Ok(Tried::Stuck(whole)),
        },
    }
}

// What a word begins.
#[cycle(parse)]
fn word_form<'a>(
    alloc: Global,
    types: &Names,
    allowed: u32,
    word: Word,
    place: Place,
    rest: &'a [Token],
    whole: &'a [Token],
) -> Result<Tried<'a, Found<'a>>, NoMemory>
    requires { allowed ≤ 499 }
    ensures value { IfOk result (λ found. seen_found found
        ≡ word_form types.now (reads types.now allowed) allowed word place rest.now) }
    ensures low { IfOk result (λ found. IfFound found (λ f. f.height ≤ allowed + 1)) }
{
    match word {
        Word::Sizeof => sizeof_form(alloc, types, allowed, place, rest),
        Word::Input => input_form(alloc, types, allowed, place, rest),
        Word::Islocked => islocked_form(alloc, types, place, rest),
        _ => Ok(Tried::Stuck(whole)),
    }
}

// After a name: a call if arguments follow, else the name.
#[cycle(parse)]
#[tactic(auto, unfolding(crate::specs::reading::Descent::name_form))]
fn name_form<'a>(
    alloc: Global,
    types: &Names,
    allowed: u32,
    name: Name,
    place: Place,
    rest: &'a [Token],
    whole: &'a [Token],
) -> Result<Tried<'a, Found<'a>>, NoMemory>
    requires { allowed ≤ 499 }
    ensures value { IfOk result (λ found. seen_found found
        ≡ name_form types.now (reads types.now allowed) name place rest.now) }
    ensures low { IfOk result (λ found. IfFound found (λ f. f.height ≤ allowed + 1)) }
{
    if types.contains(name) {
        return Ok(Tried::Stuck(whole));
    }
    match called(
        alloc,
        types,
        allowed,
        after(Mark::OpenParenthesis, rest),
        rest,
    )? {
        Tried::Stuck(at) => Ok(Tried::Found(nodes::name(alloc, name, place, rest, at)?)),
        Tried::Found(found) => Ok(Tried::Found(nodes::call(alloc, name, place, found)?)),
    }
}

// The arguments after a `(`, if there is one.
#[cycle(parse)]
fn called<'a>(
    alloc: Global,
    types: &Names,
    allowed: u32,
    opened: Option<&'a [Token]>,
    whole: &'a [Token],
) -> Result<Tried<'a, FoundArguments<'a>>, NoMemory>
    requires { allowed ≤ 499 }
    ensures value { IfOk result (λ found. seen_arguments found
        ≡ called (reads types.now allowed) (seen_rest opened.entry)) }
    ensures low { IfOk result (λ found. IfFound found (λ f. f.height ≤ allowed)) }
{
    match opened {
        None => Ok(Tried::Stuck(whole)),
        Some(rest) => arguments(alloc, types, allowed, rest),
    }
}

// The arguments of a call, and the `)`.
#[cycle(parse)]
#[tactic(auto, unfolding(crate::specs::reading::Descent::arguments))]
fn arguments<'a>(
    alloc: Global,
    types: &Names,
    allowed: u32,
    tokens: &'a [Token],
) -> Result<Tried<'a, FoundArguments<'a>>, NoMemory>
    requires { allowed ≤ 499 }
    ensures value { IfOk result (λ found. seen_arguments found ≡ arguments (reads types.now allowed) tokens.now) }
    ensures low { IfOk result (λ found. IfFound found (λ f. f.height ≤ allowed)) }
{
    match after(Mark::CloseParenthesis, tokens) {
        Some(rest) => Ok(Tried::Found(FoundArguments {
            items: Vec::new(alloc),
            rest,
            height: 0,
        })),
        None => arguments_from(alloc, types, allowed, tokens),
    }
}

// At least one argument and the `)`.
#[cycle(parse)]
fn arguments_from<'a>(
    alloc: Global,
    types: &Names,
    allowed: u32,
    tokens: &'a [Token],
) -> Result<Tried<'a, FoundArguments<'a>>, NoMemory>
    requires { allowed ≤ 499 }
    ensures value { IfOk result (λ found. seen_arguments found
        ≡ arguments_from (reads types.now allowed) (length tokens.now) no_arguments tokens.now) }
    ensures low { IfOk result (λ found. IfFound found (λ f. f.height ≤ allowed)) }
{
    let mut items = Vec::new(alloc);
    let mut height = 0;
    let mut rest = tokens;
    let limit = tokens.len();
    'items: for _i in 0..limit {
        match read(alloc, types, allowed, rank(Level::Assignment), rest)? {
            Tried::Stuck(at) => return Ok(Tried::Stuck(at)),
            Tried::Found(argument) => {
                let next = argument.rest;
                let stuck = argument.stuck;
                height = argument.height.max(height);
                nodes::push_expr(&mut items, argument.expr)?;
                match after(Mark::Comma, next) {
                    Some(following) => rest = following,
                    None => return Ok(nodes::closed(
                        items,
                        height,
                        after(Mark::CloseParenthesis, next),
                        stuck,
                    )),
                }
            }
        }
    }
    Ok(Tried::Stuck(rest))
}

// After an operator: its operand.
#[cycle(parse)]
#[tactic(auto, unfolding(crate::specs::reading::Descent::prefix_form))]
fn prefix_form<'a>(
    alloc: Global,
    types: &Names,
    allowed: u32,
    operator: Prefix,
    place: Place,
    rest: &'a [Token],
) -> Result<Tried<'a, Found<'a>>, NoMemory>
    requires { allowed ≤ 499 }
    ensures value { IfOk result (λ found. seen_found found
        ≡ prefix_form (reads types.now allowed) operator place rest.now) }
    ensures low { IfOk result (λ found. IfFound found (λ f. f.height ≤ allowed + 1)) }
{
    match read(alloc, types, allowed, operand_level(operator), rest)? {
        Tried::Stuck(at) => Ok(Tried::Stuck(at)),
        Tried::Found(operand) => {
            Ok(Tried::Found(nodes::prefixed(alloc, operator, place, operand)?))
        }
    }
}

// After a `(`: an expression and the `)`.
#[cycle(parse)]
#[tactic(auto, unfolding(crate::specs::reading::Descent::inside_form))]
fn inside_form<'a>(
    alloc: Global,
    types: &Names,
    allowed: u32,
    tokens: &'a [Token],
) -> Result<Tried<'a, Found<'a>>, NoMemory>
    requires { allowed ≤ 499 }
    ensures value { IfOk result (λ found. seen_found found ≡ inside_form (reads types.now allowed) tokens.now) }
    ensures low { IfOk result (λ found. IfFound found (λ f. f.height ≤ allowed + 1)) }
{
    match read(alloc, types, allowed, rank(Level::Comma), tokens)? {
        Tried::Stuck(at) => Ok(Tried::Stuck(at)),
        Tried::Found(inside) => match after(Mark::CloseParenthesis, inside.rest) {
            None => Ok(Tried::Stuck(inside.stuck)),
            Some(rest) => Ok(Tried::Found(nodes::parentheses(alloc, inside, rest)?)),
        },
    }
}

// A type name and the `)` after it.
#[tactic(auto, unfolding(crate::specs::reading::Descent::closed_type))]
fn closed_type<'a>(
    alloc: Global,
    types: &Names,
    tokens: &'a [Token],
) -> Result<Tried<'a, (TypeName, &'a [Token])>, NoMemory>
    ensures { IfOk result (λ found. seen_type found ≡ closed_type types.now tokens.now) }
{
    match read_type_name(alloc, types, tokens)? {
        Tried::Stuck(at) => Ok(Tried::Stuck(at)),
        Tried::Found((type_name, rest)) => match after(Mark::CloseParenthesis, rest) {
            None => Ok(Tried::Stuck(rest)),
            Some(next) => Ok(Tried::Found((type_name, next))),
        },
    }
}

// After the `(` of a cast.
#[cycle(parse)]
#[tactic(auto, unfolding(crate::specs::reading::Descent::cast_form))]
fn cast_form<'a>(
    alloc: Global,
    types: &Names,
    allowed: u32,
    place: Place,
    tokens: &'a [Token],
) -> Result<Tried<'a, Found<'a>>, NoMemory>
    requires { allowed ≤ 499 }
    ensures value { IfOk result (λ found. seen_found found
        ≡ cast_form types.now (reads types.now allowed) place tokens.now) }
    ensures low { IfOk result (λ found. IfFound found (λ f. f.height ≤ allowed + 1)) }
{
    match closed_type(alloc, types, tokens)? {
        Tried::Stuck(at) => Ok(Tried::Stuck(at)),
        Tried::Found((type_name, next)) => match read(
            alloc,
            types,
            allowed,
            rank(Level::Cast),
            next,
        )? {
            Tried::Stuck(at) => Ok(Tried::Stuck(at)),
            Tried::Found(operand) => {
                Ok(Tried::Found(nodes::cast(alloc, type_name, place, operand)?))
            }
        },
    }
}

// After `sizeof (`: a type and the `)`.
#[tactic(auto, unfolding(crate::specs::reading::Descent::sizeof_type_form))]
fn sizeof_type_form<'a>(
    alloc: Global,
    types: &Names,
    allowed: u32,
    place: Place,
    tokens: &'a [Token],
) -> Result<Tried<'a, Found<'a>>, NoMemory>
    ensures value { IfOk result (λ found. seen_found found ≡ sizeof_type_form types.now allowed place tokens.now) }
    ensures low { IfOk result (λ found. IfFound found (λ f. f.height ≤ allowed + 1)) }
{
    if allowed == 0 {
        return Ok(Tried::Stuck(tokens));
    }
    match closed_type(alloc, types, tokens)? {
        Tried::Stuck(at) => Ok(Tried::Stuck(at)),
        Tried::Found((type_name, next)) => {
            Ok(Tried::Found(nodes::sizeof_type(alloc, type_name, place, next)?))
        }
    }
}

// After `sizeof`: a type in parentheses, or an operand.
#[cycle(parse)]
#[tactic(auto, unfolding(crate::specs::reading::Descent::sizeof_form))]
fn sizeof_form<'a>(
    alloc: Global,
    types: &Names,
    allowed: u32,
    place: Place,
    rest: &'a [Token],
) -> Result<Tried<'a, Found<'a>>, NoMemory>
    requires { allowed ≤ 499 }
    ensures value { IfOk result (λ found. seen_found found
        ≡ sizeof_form types.now (reads types.now allowed) allowed place rest.now) }
    ensures low { IfOk result (λ found. IfFound found (λ f. f.height ≤ allowed + 1)) }
{
    match after(Mark::OpenParenthesis, rest) {
        None => prefix_form(alloc, types, allowed, Prefix::Sizeof, place, rest),
        Some(next) => {
            if begins_type(types, next) {
                sizeof_type_form(alloc, types, allowed, place, next)
            } else {
                prefix_form(alloc, types, allowed, Prefix::Sizeof, place, rest)
            }
        }
    }
}

// After `__input`: two expressions in parentheses.
#[cycle(parse)]
#[tactic(auto, unfolding(crate::specs::reading::Descent::input_form))]
fn input_form<'a>(
    alloc: Global,
    types: &Names,
    allowed: u32,
    place: Place,
    tokens: &'a [Token],
) -> Result<Tried<'a, Found<'a>>, NoMemory>
    requires { allowed ≤ 499 }
    ensures value { IfOk result (λ found. seen_found found ≡ input_form (reads types.now allowed) place tokens.now) }
    ensures low { IfOk result (λ found. IfFound found (λ f. f.height ≤ allowed + 1)) }
{
    match after(Mark::OpenParenthesis, tokens) {
        None => Ok(Tried::Stuck(tokens)),
        Some(opened) => match read(alloc, types, allowed, rank(Level::Condition), opened)? {
            Tried::Stuck(at) => Ok(Tried::Stuck(at)),
            Tried::Found(low) => match after(Mark::Comma, low.rest) {
                None => Ok(Tried::Stuck(low.stuck)),
                Some(parted) => match read(alloc, types, allowed, rank(Level::Condition), parted)? {
                    Tried::Stuck(at) => Ok(Tried::Stuck(at)),
                    Tried::Found(high) => match after(Mark::CloseParenthesis, high.rest) {
                        None => Ok(Tried::Stuck(high.stuck)),
                        Some(rest) => {
                            Ok(Tried::Found(nodes::input(alloc, low, high, place, rest)?))
                        }
                    },
                },
            },
        },
    }
}

// After `__islocked`: a name in parentheses.
#[tactic(auto, unfolding(crate::specs::reading::Descent::islocked_form))]
fn islocked_form<'a>(
    alloc: Global,
    types: &Names,
    place: Place,
    tokens: &'a [Token],
) -> Result<Tried<'a, Found<'a>>, NoMemory>
    ensures value { IfOk result (λ found. seen_found found ≡ islocked_form types.now place tokens.now) }
    ensures low { IfOk result (λ found. IfFound found (λ f. f.height ≡ 1)) }
{
    match after(Mark::OpenParenthesis, tokens) {
        None => Ok(Tried::Stuck(tokens)),
        Some(opened) => match name_at(opened) {
            None => Ok(Tried::Stuck(opened)),
            Some((mutex, mutex_place, next)) => {
                if types.contains(mutex) {
                    return Ok(Tried::Stuck(opened));
                }
                match after(Mark::CloseParenthesis, next) {
                    None => Ok(Tried::Stuck(next)),
                    Some(rest) => Ok(Tried::Found(nodes::islocked(
                        alloc,
                        mutex,
                        mutex_place,
                        place,
                        rest,
                    )?)),
                }
            }
        },
    }
}

// The expression at a level whose first form was read.
#[cycle(parse)]
#[tactic(auto, unfolding(crate::specs::reading::Descent::from_form))]
fn from_form<'a>(
    alloc: Global,
    types: &Names,
    allowed: u32,
    at: u32,
    first: Found<'a>,
) -> Result<Tried<'a, Found<'a>>, NoMemory>
    requires few { allowed ≤ 499 }
    requires small { first.height ≤ allowed + 1 }
    ensures value { IfOk result (λ found. seen_found found
        ≡ from_form (reads types.now allowed) at allowed (tree_of first.entry.expr.value) first.entry.rest.now) }
    ensures low { IfOk result (λ found. IfFound found (λ f. f.height ≤ allowed + 1)) }
{
    if at <= level_of(&first.expr) {
        return Ok(Tried::Found(steps(alloc, types, allowed, at, first)?));
    }
    Ok(Tried::Stuck(first.rest))
}

// The expression with all the operators that follow.
#[cycle(parse)]
fn steps<'a>(
    alloc: Global,
    types: &Names,
    allowed: u32,
    at: u32,
    first: Found<'a>,
) -> Result<Found<'a>, NoMemory>
    requires few { allowed ≤ 499 }
    requires small { first.height ≤ allowed + 1 }
    ensures value { IfOk result (λ f. pair_of f
        ≡ steps (reads types.now allowed) at allowed (suc allowed)
        (tree_of first.entry.expr.value) first.entry.rest.now) }
    ensures low { IfOk result (λ f. f.height ≤ allowed + 1) }
{
    let mut found = first;
    let limit = allowed + 1;
    'operators: for _i in 0..limit {
        match step(alloc, types, allowed, at, found)? {
            Stepped::On(next) => found = next,
            Stepped::Stop(last) => return Ok(last),
        }
    }
    Ok(found)
}

// Whether the token may continue the expression.
fn may_continue(at: u32, allowed: u32, opener: Opener, found: &Found) -> bool
    ensures value { result ≡ may_continue at allowed opener (tree_of found.now.expr.value) }
    ensures low { result ≡ true → found.now.height ≤ allowed }
{
    at <= opener_level(opener)
        && opener_left(opener) <= level_of(&found.expr)
        && found.height <= allowed
}

// The expression with one operator more.
#[cycle(parse)]
#[tactic(auto, unfolding(crate::specs::reading::Descent::step))]
fn step<'a>(
    alloc: Global,
    types: &Names,
    allowed: u32,
    at: u32,
    found: Found<'a>,
) -> Result<Stepped<'a>, NoMemory>
    requires few { allowed ≤ 499 }
    requires small { found.height ≤ allowed + 1 }
    ensures value { IfOk result (λ stepped. IsStep stepped (pair_of found.entry)
        (step (reads types.now allowed) at allowed (tree_of found.entry.expr.value) found.entry.rest.now)) }
    ensures low { IfOk result (λ stepped. IsLow stepped (allowed + 1)) }
{
    let tokens = found.rest;
    let [token, rest @ ..] = tokens else {
        return Ok(Stepped::Stop(found));
    };
    match opener_of(token.shape) {
        None => Ok(Stepped::Stop(found)),
        Some(opener) => {
            if may_continue(at, allowed, opener, &found) {
                continued(alloc, types, allowed, opener, found, token.place, rest)
            } else {
                Ok(Stepped::Stop(found))
            }
        }
    }
}

// What the token makes of the expression.
#[cycle(parse)]
fn continued<'a>(
    alloc: Global,
    types: &Names,
    allowed: u32,
    opener: Opener,
    left: Found<'a>,
    place: Place,
    tokens: &'a [Token],
) -> Result<Stepped<'a>, NoMemory>
    requires few { allowed ≤ 499 }
    requires small { left.height ≤ allowed }
    ensures value { IfOk result (λ stepped. IsStep stepped (pair_of left.entry)
        (continued (reads types.now allowed) opener (tree_of left.entry.expr.value) place tokens.now)) }
    ensures low { IfOk result (λ stepped. IsLow stepped (allowed + 1)) }
{
    match opener {
        Opener::Infix(operator) => {
            continue_infix(alloc, types, allowed, operator, left, place, tokens)
        }
        Opener::Question => continue_question(alloc, types, allowed, left, place, tokens),
        Opener::Subscript => continue_subscript(alloc, types, allowed, left, place, tokens),
        Opener::Member(access) => continue_member(alloc, access, left, place, tokens),
        Opener::Postfix(operator) => Ok(Stepped::On(nodes::postfix(
            alloc, left, operator, place, tokens,
        )?)),
    }
}

#[cycle(parse)]
#[tactic(auto, unfolding(crate::specs::reading::Descent::continued))]
fn continue_infix<'a>(
    alloc: Global,
    types: &Names,
    allowed: u32,
    operator: Infix,
    left: Found<'a>,
    place: Place,
    tokens: &'a [Token],
) -> Result<Stepped<'a>, NoMemory>
    requires few { allowed ≤ 499 }
    requires small { left.height ≤ allowed }
    ensures value { IfOk result (λ stepped. IsStep stepped (pair_of left.entry)
        (continued (reads types.now allowed) (Opener.Infix operator)
        (tree_of left.entry.expr.value) place tokens.now)) }
    ensures low { IfOk result (λ stepped. IsLow stepped (allowed + 1)) }
{
    match read(alloc, types, allowed, right_level(operator), tokens)? {
        Tried::Stuck(stuck) => Ok(Stepped::Stop(nodes::stuck_at(left, stuck))),
        Tried::Found(right) => Ok(Stepped::On(nodes::infix(alloc, left, operator, place, right)?)),
    }
}

#[cycle(parse)]
#[tactic(auto, unfolding(crate::specs::reading::Descent::continued))]
fn continue_question<'a>(
    alloc: Global,
    types: &Names,
    allowed: u32,
    condition: Found<'a>,
    place: Place,
    tokens: &'a [Token],
) -> Result<Stepped<'a>, NoMemory>
    requires few { allowed ≤ 499 }
    requires small { condition.height ≤ allowed }
    ensures value { IfOk result (λ stepped. IsStep stepped (pair_of condition.entry)
        (continued (reads types.now allowed) Opener.Question (tree_of condition.entry.expr.value) place tokens.now)) }
    ensures low { IfOk result (λ stepped. IsLow stepped (allowed + 1)) }
{
    match read(alloc, types, allowed, rank(Level::Comma), tokens)? {
        Tried::Stuck(stuck) => Ok(Stepped::Stop(nodes::stuck_at(condition, stuck))),
        Tried::Found(first) => match after(Mark::Colon, first.rest) {
            None => Ok(Stepped::Stop(nodes::stuck_at(condition, first.stuck))),
            Some(parted) => match read(alloc, types, allowed, rank(Level::Condition), parted)? {
                Tried::Stuck(stuck) => Ok(Stepped::Stop(nodes::stuck_at(condition, stuck))),
                Tried::Found(second) => Ok(Stepped::On(nodes::conditional(
                    alloc, condition, place, first, second,
                )?)),
            },
        },
    }
}

#[cycle(parse)]
#[tactic(auto, unfolding(crate::specs::reading::Descent::continued))]
fn continue_subscript<'a>(
    alloc: Global,
    types: &Names,
    allowed: u32,
    array: Found<'a>,
    place: Place,
    tokens: &'a [Token],
) -> Result<Stepped<'a>, NoMemory>
    requires few { allowed ≤ 499 }
    requires small { array.height ≤ allowed }
    ensures value { IfOk result (λ stepped. IsStep stepped (pair_of array.entry)
        (continued (reads types.now allowed) Opener.Subscript (tree_of array.entry.expr.value) place tokens.now)) }
    ensures low { IfOk result (λ stepped. IsLow stepped (allowed + 1)) }
{
    match read(alloc, types, allowed, rank(Level::Comma), tokens)? {
        Tried::Stuck(stuck) => Ok(Stepped::Stop(nodes::stuck_at(array, stuck))),
        Tried::Found(index) => match after(Mark::CloseBracket, index.rest) {
            None => Ok(Stepped::Stop(nodes::stuck_at(array, index.stuck))),
            Some(rest) => Ok(Stepped::On(nodes::subscript(alloc, array, place, index, rest)?)),
        },
    }
}

#[tactic(auto, unfolding(crate::specs::reading::Descent::continued))]
fn continue_member<'a>(
    alloc: Global,
    access: Access,
    object: Found<'a>,
    place: Place,
    tokens: &'a [Token],
) -> Result<Stepped<'a>, NoMemory>
    requires { object.height ≤ 499 }
    ensures value { IfOk result (λ stepped. IsStep stepped (pair_of object.entry)
        (continued_member access (tree_of object.entry.expr.value) place (name_at tokens.now))) }
    ensures low { IfOk result (λ stepped. IsLow stepped (object.entry.height + 1)) }
{
    match name_at(tokens) {
        None => Ok(Stepped::Stop(nodes::stuck_at(object, tokens))),
        Some((member, member_place, rest)) => Ok(Stepped::On(nodes::member(
            alloc,
            object,
            access,
            place,
            member,
            member_place,
            rest,
        )?)),
    }
}
