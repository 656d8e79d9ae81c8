//! Statements and blocks (C99 6.8).
ghost use Rattle.std.specs.Prelude.{◌≡◌, ◌≤◌, [], length, map, IfOk};
ghost use Rattle.tm_terms.specs.ExprTrees.{tree_of};
ghost use Rattle.tm_trees.specs.FileTrees.{part_tree, block_tree, case_tree};
ghost use Rattle.c_decl_parser.specs.reading.Parts.{seen, after_word};
ghost use Rattle.c_decl_parser.specs.reading.Repetitions.{until_brace};
ghost use Rattle.c_parser.specs.reading.Founds.{boxed_tree};
ghost use Rattle.c_parser.specs.reading.FileDescent.{part, parts, labelled, default_label, case_word, case_step};
ghost use Rattle.c_parser.specs.reading.FileDescent.{case_part, else_by, if_form, while_form, do_form, for_form};
ghost use Rattle.c_parser.specs.reading.FileDescent.{switch_form, statement_word, block_form, statement_sign};
ghost use Rattle.c_parser.specs.reading.FileDescent.{statement_by, statement, inside, block};

use crate::simple_statements::{
    break_form, continue_form, for_head, lock_form, return_form, unlock_form, value_form,
    yield_form,
};
use crate::statement_nodes as nodes;
use c_decl_parser::declarations::local_declaration;
use c_decl_parser::expressions::{expression, in_parentheses};
use c_decl_parser::reads::{Read, push};
use c_decl_parser::tokens::{Keyword, after_word};
use c_expr_parser::marks::{Mark, after};
use c_expr_parser::type_names::begins_type;
use std::alloc::Global;
use tm_lattice::NoMemory;
use tm_terms::{Expr, Level, Names, Place, Shape, Sign, Token, Word};
use tm_trees::{Block, BlockPart, Statement, SwitchPart};

// A block.
#[tactic(auto, unfolding(crate::specs::reading::FileDescent::block))]
pub(crate) fn block<'a>(
    alloc: Global,
    types: &Names,
    allowed: u32,
    tokens: &'a [Token],
) -> Result<Read<'a, Block>, NoMemory>
    requires { allowed ≤ 500 }
    ensures { IfOk result (λ read. seen block_tree read ≡ block types.now allowed tokens.now) }
{
    match after(Mark::OpenBrace, tokens) {
        None => Ok(Read::Stuck(tokens)),
        Some(rest) => inside(alloc, types, allowed, rest),
    }
}

// A statement of at most the allowed height.
#[cycle(statement)]
pub(crate) fn statement<'a>(
    alloc: Global,
    types: &Names,
    allowed: u32,
    tokens: &'a [Token],
) -> Result<Read<'a, Box<Statement>>, NoMemory>
    requires { allowed ≤ 500 }
    ensures { IfOk result (λ read. seen boxed_tree read ≡ statement types.now allowed tokens.now) }
{
    if allowed == 0 {
        return Ok(Read::Stuck(tokens));
    }
    statement_within(alloc, types, allowed - 1, tokens)
}

// A statement whose parts have at most the allowed height.
#[cycle(statement)]
fn statement_within<'a>(
    alloc: Global,
    types: &Names,
    allowed: u32,
    tokens: &'a [Token],
) -> Result<Read<'a, Box<Statement>>, NoMemory>
    requires { allowed ≤ 499 }
    ensures { IfOk result (λ read. seen boxed_tree read
        ≡ statement_by types.now allowed (statement types.now allowed) (inside types.now allowed) tokens.now) }
{
    let [token, rest @ ..] = tokens else {
        return Ok(Read::Stuck(tokens));
    };
    match token.shape {
        Shape::Word(word) => word_form(alloc, types, allowed, word, token.place, rest, tokens),
        Shape::Sign(sign) => sign_form(alloc, types, allowed, sign, rest, tokens),
        _ => value_form(alloc, types, allowed, tokens),
    }
}

// What a word begins.
#[cycle(statement)]
fn word_form<'a>(
    alloc: Global,
    types: &Names,
    allowed: u32,
    word: Word,
    place: Place,
    rest: &'a [Token],
    whole: &'a [Token],
) -> Result<Read<'a, Box<Statement>>, NoMemory>
    requires { allowed ≤ 499 }
    ensures { IfOk result (λ read. seen boxed_tree read
        ≡ statement_word types.now allowed (statement types.now allowed) word place rest.now whole.now) }
{
    match word {
        Word::If => if_form(alloc, types, allowed, rest),
        Word::While => while_form(alloc, types, allowed, rest),
        Word::Do => do_form(alloc, types, allowed, rest),
        Word::For => for_form(alloc, types, allowed, rest),
        Word::Switch => switch_form(alloc, types, allowed, rest),
        Word::Break => break_form(alloc, place, rest),
        Word::Continue => continue_form(alloc, place, rest),
        Word::Return => return_form(alloc, types, allowed, place, rest),
        Word::Lock => lock_form(alloc, types, place, rest),
        Word::Unlock => unlock_form(alloc, types, place, rest),
        Word::Yield => yield_form(alloc, place, rest),
        _ => value_form(alloc, types, allowed, whole),
    }
}

// What a sign begins.
#[cycle(statement)]
fn sign_form<'a>(
    alloc: Global,
    types: &Names,
    allowed: u32,
    sign: Sign,
    rest: &'a [Token],
    whole: &'a [Token],
) -> Result<Read<'a, Box<Statement>>, NoMemory>
    requires { allowed ≤ 499 }
    ensures { IfOk result (λ read. seen boxed_tree read
        ≡ statement_sign types.now allowed (inside types.now allowed) sign rest.now whole.now) }
{
    match sign {
        Sign::OpenBrace => block_form(alloc, types, allowed, rest),
        _ => value_form(alloc, types, allowed, whole),
    }
}

// A block as a statement, behind its `{`.
#[cycle(statement)]
fn block_form<'a>(
    alloc: Global,
    types: &Names,
    allowed: u32,
    tokens: &'a [Token],
) -> Result<Read<'a, Box<Statement>>, NoMemory>
    requires { allowed ≤ 499 }
    ensures { IfOk result (λ read. seen boxed_tree read ≡ block_form (inside types.now allowed) tokens.now) }
{
    match inside(alloc, types, allowed, tokens)? {
        Read::Stuck(at) => Ok(Read::Stuck(at)),
        Read::Found(block, rest) => Ok(Read::Found(nodes::block(alloc, block)?, rest)),
    }
}

// The parts of a block behind its `{`, and the `}`; the block is a node.
#[cycle(statement)]
fn inside<'a>(
    alloc: Global,
    types: &Names,
    allowed: u32,
    tokens: &'a [Token],
) -> Result<Read<'a, Block>, NoMemory>
    requires { allowed ≤ 500 }
    ensures { IfOk result (λ read. seen block_tree read ≡ inside types.now allowed tokens.now) }
{
    if allowed == 0 {
        return Ok(Read::Stuck(tokens));
    }
    parts(alloc, types, allowed - 1, tokens)
}

// Parts of at most the allowed height up to a `}`.
#[cycle(statement)]
fn parts<'a>(
    alloc: Global,
    types: &Names,
    allowed: u32,
    tokens: &'a [Token],
) -> Result<Read<'a, Block>, NoMemory>
    requires { allowed ≤ 499 }
    ensures { IfOk result (λ read. seen block_tree read
        ≡ parts types.now allowed (statement types.now allowed) tokens.now) }
{
    let mut found = Vec::new(alloc);
    let mut rest = tokens;
    let limit = tokens.len();
    'parts: for _i in 0..limit {
        match after(Mark::CloseBrace, rest) {
            Some(next) => return Ok(Read::Found(Block { parts: found }, next)),
            None => match part(alloc, types, allowed, rest)? {
                Read::Stuck(at) => return Ok(Read::Stuck(at)),
                Read::Found(one, next) => {
                    push(&mut found, one)?;
                    rest = next;
                }
            },
        }
    }
    Ok(Read::Stuck(rest))
}

// A part of a block.
#[cycle(statement)]
#[tactic(auto, unfolding(crate::specs::reading::FileDescent::part))]
fn part<'a>(
    alloc: Global,
    types: &Names,
    allowed: u32,
    tokens: &'a [Token],
) -> Result<Read<'a, BlockPart>, NoMemory>
    requires { allowed ≤ 499 }
    ensures { IfOk result (λ read. seen part_tree read
        ≡ part types.now allowed (statement types.now allowed) tokens.now) }
{
    if begins_type(types, tokens) {
        match local_declaration(alloc, types, allowed, tokens)? {
            Read::Stuck(at) => Ok(Read::Stuck(at)),
            Read::Found(declaration, rest) => {
                Ok(Read::Found(BlockPart::Declaration(declaration), rest))
            }
        }
    } else {
        match statement(alloc, types, allowed, tokens)? {
            Read::Stuck(at) => Ok(Read::Stuck(at)),
            Read::Found(step, rest) => Ok(Read::Found(nodes::block_step(step), rest)),
        }
    }
}

// After `if`.
#[cycle(statement)]
#[tactic(auto, unfolding(crate::specs::reading::FileDescent::if_form))]
fn if_form<'a>(
    alloc: Global,
    types: &Names,
    allowed: u32,
    tokens: &'a [Token],
) -> Result<Read<'a, Box<Statement>>, NoMemory>
    requires { allowed ≤ 499 }
    ensures { IfOk result (λ read. seen boxed_tree read
        ≡ if_form types.now allowed (statement types.now allowed) tokens.now) }
{
    match in_parentheses(alloc, types, allowed, tokens)? {
        Read::Stuck(at) => Ok(Read::Stuck(at)),
        Read::Found(condition, behind) => match statement(alloc, types, allowed, behind)? {
            Read::Stuck(at) => Ok(Read::Stuck(at)),
            Read::Found(first, rest) => else_form(alloc, types, allowed, condition, first, rest),
        },
    }
}

// Behind the first statement of an `if`: one after `else`, if that comes first.
#[cycle(statement)]
fn else_form<'a>(
    alloc: Global,
    types: &Names,
    allowed: u32,
    condition: Expr,
    first: Box<Statement>,
    tokens: &'a [Token],
) -> Result<Read<'a, Box<Statement>>, NoMemory>
    requires { allowed ≤ 499 }
    ensures { IfOk result (λ read. seen boxed_tree read
        ≡ else_by (tree_of condition) (boxed_tree first) (statement types.now allowed)
        (after_word Keyword.Else tokens.now) tokens.now) }
{
    match after_word(Keyword::Else, tokens) {
        None => Ok(Read::Found(nodes::if_alone(alloc, condition, first)?, tokens)),
        Some(behind) => match statement(alloc, types, allowed, behind)? {
            Read::Stuck(at) => Ok(Read::Stuck(at)),
            Read::Found(second, rest) => Ok(Read::Found(
                nodes::if_else(alloc, condition, first, second)?,
                rest,
            )),
        },
    }
}

// After `while`.
#[cycle(statement)]
#[tactic(auto, unfolding(crate::specs::reading::FileDescent::while_form))]
fn while_form<'a>(
    alloc: Global,
    types: &Names,
    allowed: u32,
    tokens: &'a [Token],
) -> Result<Read<'a, Box<Statement>>, NoMemory>
    requires { allowed ≤ 499 }
    ensures { IfOk result (λ read. seen boxed_tree read
        ≡ while_form types.now allowed (statement types.now allowed) tokens.now) }
{
    match in_parentheses(alloc, types, allowed, tokens)? {
        Read::Stuck(at) => Ok(Read::Stuck(at)),
        Read::Found(condition, behind) => match statement(alloc, types, allowed, behind)? {
            Read::Stuck(at) => Ok(Read::Stuck(at)),
            Read::Found(body, rest) => Ok(Read::Found(
                nodes::while_loop(alloc, condition, body)?,
                rest,
            )),
        },
    }
}

// After `do`.
#[cycle(statement)]
#[tactic(auto, unfolding(crate::specs::reading::FileDescent::do_form))]
fn do_form<'a>(
    alloc: Global,
    types: &Names,
    allowed: u32,
    tokens: &'a [Token],
) -> Result<Read<'a, Box<Statement>>, NoMemory>
    requires { allowed ≤ 499 }
    ensures { IfOk result (λ read. seen boxed_tree read
        ≡ do_form types.now allowed (statement types.now allowed) tokens.now) }
{
    match statement(alloc, types, allowed, tokens)? {
        Read::Stuck(at) => Ok(Read::Stuck(at)),
        Read::Found(body, behind) => match after_word(Keyword::While, behind) {
            None => Ok(Read::Stuck(behind)),
            Some(last) => match in_parentheses(alloc, types, allowed, last)? {
                Read::Stuck(at) => Ok(Read::Stuck(at)),
                Read::Found(condition, end) => match after(Mark::Semicolon, end) {
                    None => Ok(Read::Stuck(end)),
                    Some(rest) => Ok(Read::Found(nodes::do_loop(alloc, body, condition)?, rest)),
                },
            },
        },
    }
}

// After `for`.
#[cycle(statement)]
#[tactic(auto, unfolding(crate::specs::reading::FileDescent::for_form))]
fn for_form<'a>(
    alloc: Global,
    types: &Names,
    allowed: u32,
    tokens: &'a [Token],
) -> Result<Read<'a, Box<Statement>>, NoMemory>
    requires { allowed ≤ 499 }
    ensures { IfOk result (λ read. seen boxed_tree read
        ≡ for_form types.now allowed (statement types.now allowed) tokens.now) }
{
    match for_head(alloc, types, allowed, tokens)? {
        Read::Stuck(at) => Ok(Read::Stuck(at)),
        Read::Found(head, behind) => match statement(alloc, types, allowed, behind)? {
            Read::Stuck(at) => Ok(Read::Stuck(at)),
            Read::Found(body, rest) => Ok(Read::Found(nodes::for_loop(alloc, head, body)?, rest)),
        },
    }
}

// After `switch`.
#[cycle(statement)]
#[tactic(auto, unfolding(crate::specs::reading::FileDescent::switch_form))]
fn switch_form<'a>(
    alloc: Global,
    types: &Names,
    allowed: u32,
    tokens: &'a [Token],
) -> Result<Read<'a, Box<Statement>>, NoMemory>
    requires { allowed ≤ 499 }
    ensures { IfOk result (λ read. seen boxed_tree read
        ≡ switch_form types.now allowed (statement types.now allowed) tokens.now) }
{
    match in_parentheses(alloc, types, allowed, tokens)? {
        Read::Stuck(at) => Ok(Read::Stuck(at)),
        Read::Found(value, behind) => match after(Mark::OpenBrace, behind) {
            None => Ok(Read::Stuck(behind)),
            Some(opened) => match cases(alloc, types, allowed, opened)? {
                Read::Stuck(at) => Ok(Read::Stuck(at)),
                Read::Found(found, rest) => {
                    Ok(Read::Found(nodes::switch(alloc, value, found)?, rest))
                }
            },
        },
    }
}

// The parts of the block of a `switch` up to its `}`.
#[cycle(statement)]
fn cases<'a>(
    alloc: Global,
    types: &Names,
    allowed: u32,
    tokens: &'a [Token],
) -> Result<Read<'a, Vec<SwitchPart>>, NoMemory>
    requires { allowed ≤ 499 }
    ensures { IfOk result (λ read. seen (λ v. map case_tree v.items) read
        ≡ until_brace (case_part types.now allowed (statement types.now allowed)) (length tokens.now) [] tokens.now) }
{
    let mut found = Vec::new(alloc);
    let mut rest = tokens;
    let limit = tokens.len();
    'cases: for _i in 0..limit {
        match after(Mark::CloseBrace, rest) {
            Some(next) => return Ok(Read::Found(found, next)),
            None => match case_part(alloc, types, allowed, rest)? {
                Read::Stuck(at) => return Ok(Read::Stuck(at)),
                Read::Found(one, next) => {
                    push(&mut found, one)?;
                    rest = next;
                }
            },
        }
    }
    Ok(Read::Stuck(rest))
}

// A part of the block of a `switch`: a label, or a statement.
#[cycle(statement)]
#[tactic(auto, unfolding(crate::specs::reading::FileDescent::case_part))]
fn case_part<'a>(
    alloc: Global,
    types: &Names,
    allowed: u32,
    tokens: &'a [Token],
) -> Result<Read<'a, SwitchPart>, NoMemory>
    requires { allowed ≤ 499 }
    ensures { IfOk result (λ read. seen case_tree read
        ≡ case_part types.now allowed (statement types.now allowed) tokens.now) }
{
    let [token, rest @ ..] = tokens else {
        return Ok(Read::Stuck(tokens));
    };
    match token.shape {
        Shape::Word(word) => case_word(alloc, types, allowed, word, token.place, rest, tokens),
        _ => case_step(alloc, types, allowed, tokens),
    }
}

#[cycle(statement)]
fn case_word<'a>(
    alloc: Global,
    types: &Names,
    allowed: u32,
    word: Word,
    place: Place,
    rest: &'a [Token],
    whole: &'a [Token],
) -> Result<Read<'a, SwitchPart>, NoMemory>
    requires { allowed ≤ 499 }
    ensures { IfOk result (λ read. seen case_tree read
        ≡ case_word types.now allowed (statement types.now allowed) word place rest.now whole.now) }
{
    match word {
        Word::Case => labelled(alloc, types, allowed, place, rest),
        Word::Default => Ok(default_label(allowed, place, rest)),
        _ => case_step(alloc, types, allowed, whole),
    }
}

// A statement between labels.
#[cycle(statement)]
fn case_step<'a>(
    alloc: Global,
    types: &Names,
    allowed: u32,
    tokens: &'a [Token],
) -> Result<Read<'a, SwitchPart>, NoMemory>
    requires { allowed ≤ 499 }
    ensures { IfOk result (λ read. seen case_tree read ≡ case_step (statement types.now allowed) tokens.now) }
{
    match statement(alloc, types, allowed, tokens)? {
        Read::Stuck(at) => Ok(Read::Stuck(at)),
        Read::Found(step, rest) => Ok(Read::Found(nodes::case_step(step), rest)),
    }
}

// After `case`; the label is a node.
fn labelled<'a>(
    alloc: Global,
    types: &Names,
    allowed: u32,
    place: Place,
    tokens: &'a [Token],
) -> Result<Read<'a, SwitchPart>, NoMemory>
    requires { allowed ≤ 500 }
    ensures { IfOk result (λ read. seen case_tree read ≡ labelled types.now allowed place tokens.now) }
{
    if allowed == 0 {
        return Ok(Read::Stuck(tokens));
    }
    match expression(alloc, types, allowed - 1, Level::Condition, tokens)? {
        Read::Stuck(at) => Ok(Read::Stuck(at)),
        Read::Found(value, behind) => match after(Mark::Colon, behind) {
            None => Ok(Read::Stuck(behind)),
            Some(rest) => Ok(Read::Found(SwitchPart::Case { value, place }, rest)),
        },
    }
}

// After `default`; the label is a node.
fn default_label<'a>(allowed: u32, place: Place, tokens: &'a [Token]) -> Read<'a, SwitchPart>
    ensures { seen case_tree result ≡ default_label allowed place tokens.now }
{
    if allowed == 0 {
        return Read::Stuck(tokens);
    }
    match after(Mark::Colon, tokens) {
        None => Read::Stuck(tokens),
        Some(rest) => Read::Found(SwitchPart::Default { place }, rest),
    }
}
