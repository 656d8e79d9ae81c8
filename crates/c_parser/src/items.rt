//! Parts of a file: declarations, functions, mutexes and tasks.
ghost use Rattle.std.specs.Prelude.{◌≡◌, ◌≤◌, map, IfOk};
ghost use Rattle.c_expr_parser.specs.reading.Parts.{after};
ghost use Rattle.tm_trees.specs.DeclarationTrees.{specifier_tree, count_as, as_specifiers};
ghost use Rattle.tm_trees.specs.DeclarationSpelling.{is_typedef_list};
ghost use Rattle.tm_trees.specs.FileTrees.{item_tree};
ghost use Rattle.c_decl_parser.specs.reading.Parts.{seen};
ghost use Rattle.c_parser.specs.reading.FileDescent.{declared_by, undeclared_by, behind_pointers, behind_specifiers};
ghost use Rattle.c_parser.specs.reading.FileDescent.{declared_item, mutex_item, task_head, task_item, item_word};
ghost use Rattle.c_parser.specs.reading.FileDescent.{item_sign, item};

use crate::functions::{function_after, function_name};
use crate::parameters::only_void_at;
use crate::statements::block;
use c_decl_parser::declarations::{file_declarators, is_file_list, is_typedef_list};
use c_decl_parser::expressions::expression;
use c_decl_parser::reads::Read;
use c_decl_parser::specifiers::{counted, specifiers};
use c_decl_parser::tokens::{Keyword, after_word, declared_at};
use c_expr_parser::marks::{Mark, after};
use c_expr_parser::type_names::read_pointers;
use std::alloc::Global;
use tm_lattice::NoMemory;
use tm_terms::{Level, Name, Names, Place, PointerWord, Shape, Sign, Token, Word};
use tm_trees::{Declaration, Item, Specifier};

// The declarators of a declaration behind the first pointer part, and the `;`.
fn declared<'a>(
    alloc: Global,
    types: &mut Names,
    allowed: u32,
    typedef: bool,
    specifiers: Vec<Specifier>,
    pointers: Vec<PointerWord>,
    tokens: &'a [Token],
) -> Result<Read<'a, Item>, NoMemory>
    requires low { allowed ≤ 500 }
    requires typedef { typedef ≡ is_typedef_list (count_as (as_specifiers (map specifier_tree specifiers.items))) }
    ensures { IfOk result (λ read. seen (λ i. (item_tree i, types.new)) read
        ≡ declared_by types.old allowed (map specifier_tree specifiers.items) pointers.items tokens.now) }
{
    match file_declarators(alloc, types, allowed, typedef, pointers, tokens)? {
        Read::Stuck(at) => Ok(Read::Stuck(at)),
        Read::Found(declarators, rest) => Ok(Read::Found(
            Item::Declaration(Declaration {
                specifiers,
                declarators,
            }),
            rest,
        )),
    }
}

// A declaration or a function behind its specifiers and the first pointer part.
#[tactic(auto, unfolding(crate::specs::reading::FileDescent::behind_pointers))]
fn behind_pointers<'a>(
    alloc: Global,
    types: &mut Names,
    allowed: u32,
    typedef: bool,
    specifiers: Vec<Specifier>,
    pointers: Vec<PointerWord>,
    tokens: &'a [Token],
) -> Result<Read<'a, Item>, NoMemory>
    requires low { allowed ≤ 500 }
    requires typedef { typedef ≡ is_typedef_list (count_as (as_specifiers (map specifier_tree specifiers.items))) }
    ensures { IfOk result (λ read. seen (λ i. (item_tree i, types.new)) read
        ≡ behind_pointers types.old allowed (map specifier_tree specifiers.items) pointers.items tokens.now) }
{
    match function_name(types, tokens) {
        Some((name, place, rest)) => function_after(
            alloc, types, allowed, typedef, specifiers, pointers, name, place, rest,
        ),
        None => declared(alloc, types, allowed, typedef, specifiers, pointers, tokens),
    }
}

// A declaration or a function behind its specifiers.
fn behind_specifiers<'a>(
    alloc: Global,
    types: &mut Names,
    allowed: u32,
    specifiers: Vec<Specifier>,
    tokens: &'a [Token],
) -> Result<Read<'a, Item>, NoMemory>
    requires { allowed ≤ 500 }
    ensures { IfOk result (λ read. seen (λ i. (item_tree i, types.new)) read
        ≡ behind_specifiers types.old allowed (map specifier_tree specifiers.items) tokens.now) }
{
    let specs = counted(alloc, &specifiers)?;
    let typedef = is_typedef_list(&specs);
    let listed = is_file_list(&specs);
    if listed {
        behind_list(alloc, types, allowed, typedef, specifiers, tokens)
    } else {
        Ok(Read::Stuck(tokens))
    }
}

// A declaration or a function behind the specifiers of one.
fn behind_list<'a>(
    alloc: Global,
    types: &mut Names,
    allowed: u32,
    typedef: bool,
    specifiers: Vec<Specifier>,
    tokens: &'a [Token],
) -> Result<Read<'a, Item>, NoMemory>
    requires low { allowed ≤ 500 }
    requires typedef { typedef ≡ is_typedef_list (count_as (as_specifiers (map specifier_tree specifiers.items))) }
    ensures { IfOk result (λ read. seen (λ i. (item_tree i, types.new)) read
        ≡ undeclared_by types.old allowed (map specifier_tree specifiers.items)
        (after Mark.Semicolon tokens.now) tokens.now) }
{
    match after(Mark::Semicolon, tokens) {
        Some(rest) => Ok(Read::Found(
            Item::Declaration(Declaration {
                specifiers,
                declarators: Vec::new(alloc),
            }),
            rest,
        )),
        None => {
            let (pointers, behind) = read_pointers(alloc, tokens)?;
            behind_pointers(alloc, types, allowed, typedef, specifiers, pointers, behind)
        }
    }
}

// A declaration or a function.
#[tactic(auto, unfolding(crate::specs::reading::FileDescent::declared_item))]
fn declared_item<'a>(
    alloc: Global,
    types: &mut Names,
    allowed: u32,
    tokens: &'a [Token],
) -> Result<Read<'a, Item>, NoMemory>
    requires { allowed ≤ 500 }
    ensures { IfOk result (λ read. seen (λ i. (item_tree i, types.new)) read
        ≡ declared_item types.old allowed tokens.now) }
{
    match specifiers(alloc, types, allowed, tokens)? {
        Read::Stuck(at) => Ok(Read::Stuck(at)),
        Read::Found(specifiers, behind) => {
            behind_specifiers(alloc, types, allowed, specifiers, behind)
        }
    }
}

// After `__mutex`: its name, and the `;`.
#[tactic(auto, unfolding(crate::specs::reading::FileDescent::mutex_item))]
fn mutex_item<'a>(types: &Names, tokens: &'a [Token]) -> Read<'a, Item>
    ensures { seen (λ i. (item_tree i, types.now)) result ≡ mutex_item types.now tokens.now }
{
    match declared_at(types, false, tokens) {
        None => Read::Stuck(tokens),
        Some((name, place, behind)) => match after(Mark::Semicolon, behind) {
            None => Read::Stuck(behind),
            Some(rest) => Read::Found(Item::Mutex { name, place }, rest),
        },
    }
}

// `void`, the name of a task, and `(void)`.
#[tactic(auto, unfolding(crate::specs::reading::FileDescent::task_head))]
fn task_head<'a>(types: &Names, tokens: &'a [Token]) -> Read<'a, (Name, Place)>
    ensures { seen (λ n. n) result ≡ task_head types.now tokens.now }
{
    match after_word(Keyword::Void, tokens) {
        None => Read::Stuck(tokens),
        Some(named) => match declared_at(types, false, named) {
            None => Read::Stuck(named),
            Some((name, place, behind)) => match after(Mark::OpenParenthesis, behind) {
                None => Read::Stuck(behind),
                Some(inside) => match only_void_at(inside) {
                    None => Read::Stuck(inside),
                    Some(rest) => Read::Found((name, place), rest),
                },
            },
        },
    }
}

// After `__task`: its priority, its head, and its body.
#[tactic(auto, unfolding(crate::specs::reading::FileDescent::task_item))]
fn task_item<'a>(
    alloc: Global,
    types: &Names,
    allowed: u32,
    place: Place,
    tokens: &'a [Token],
) -> Result<Read<'a, Item>, NoMemory>
    requires { allowed ≤ 500 }
    ensures { IfOk result (λ read. seen (λ i. (item_tree i, types.now)) read
        ≡ task_item types.now allowed place tokens.now) }
{
    match after(Mark::OpenParenthesis, tokens) {
        None => Ok(Read::Stuck(tokens)),
        Some(inside) => match expression(alloc, types, allowed, Level::Condition, inside)? {
            Read::Stuck(at) => Ok(Read::Stuck(at)),
            Read::Found(priority, end) => match after(Mark::CloseParenthesis, end) {
                None => Ok(Read::Stuck(end)),
                Some(head) => match task_head(types, head) {
                    Read::Stuck(at) => Ok(Read::Stuck(at)),
                    Read::Found((name, name_place), behind) => {
                        match block(alloc, types, allowed, behind)? {
                            Read::Stuck(at) => Ok(Read::Stuck(at)),
                            Read::Found(body, rest) => Ok(Read::Found(
                                Item::Task {
                                    priority,
                                    name,
                                    name_place,
                                    body,
                                    place,
                                },
                                rest,
                            )),
                        }
                    }
                },
            },
        },
    }
}

// What a word begins.
fn item_word<'a>(
    alloc: Global,
    types: &mut Names,
    allowed: u32,
    word: Word,
    place: Place,
    rest: &'a [Token],
    whole: &'a [Token],
) -> Result<Read<'a, Item>, NoMemory>
    requires { allowed ≤ 500 }
    ensures { IfOk result (λ read. seen (λ i. (item_tree i, types.new)) read
        ≡ item_word types.old allowed word place rest.now whole.now) }
{
    match word {
        Word::Mutex => Ok(mutex_item(types, rest)),
        Word::Task => task_item(alloc, types, allowed, place, rest),
        _ => declared_item(alloc, types, allowed, whole),
    }
}

// What a sign begins.
fn item_sign<'a>(
    alloc: Global,
    types: &mut Names,
    allowed: u32,
    sign: Sign,
    rest: &'a [Token],
    whole: &'a [Token],
) -> Result<Read<'a, Item>, NoMemory>
    requires { allowed ≤ 500 }
    ensures { IfOk result (λ read. seen (λ i. (item_tree i, types.new)) read
        ≡ item_sign types.old allowed sign rest.now whole.now) }
{
    match sign {
        Sign::Semicolon => Ok(Read::Found(Item::Empty, rest)),
        _ => declared_item(alloc, types, allowed, whole),
    }
}

// One part of a file, whose parts have at most the allowed height. The names that typedefs declare are
// added.
#[tactic(auto, unfolding(crate::specs::reading::FileDescent::item))]
pub(crate) fn item<'a>(
    alloc: Global,
    types: &mut Names,
    allowed: u32,
    tokens: &'a [Token],
) -> Result<Read<'a, Item>, NoMemory>
    requires { allowed ≤ 500 }
    ensures { IfOk result (λ read. seen (λ i. (item_tree i, types.new)) read ≡ item types.old allowed tokens.now) }
{
    let [token, rest @ ..] = tokens else {
        return Ok(Read::Stuck(tokens));
    };
    match token.shape {
        Shape::Word(word) => item_word(alloc, types, allowed, word, token.place, rest, tokens),
        Shape::Sign(sign) => item_sign(alloc, types, allowed, sign, rest, tokens),
        _ => declared_item(alloc, types, allowed, tokens),
    }
}
