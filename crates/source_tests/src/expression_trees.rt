//! Expressions of control code with their trees, and the deepest and longest shapes.

use crate::forms::push_form;
use crate::texts::assert_text;
use c_expr_parser::{Parsed, parse_expr};
use c_lexer::lex;
use std::alloc::{AllocError, Global};
use std::process::Abort;
use std::test::Fail;
use tm_terms::limits::TOKENS;
use tm_terms::{Expr, Name, Names, Place, Shape, Sign, Token};

// A text, its longest expression as its operands and then their operator, each by the first byte of the token
// at whose place it stands, how many tokens the expression takes, and its height. `T` is the name of a typedef.
static READ: [(&str, &str); 57] = [
    ("a", "a 1 1"),
    ("a - b - c", "ab-c- 5 3"),
    ("a = b = c", "abc== 5 3"),
    ("a ? b : c ? d : e", "abcde?? 9 3"),
    ("a ? b , c : d", "abc,d? 7 3"),
    ("x = a + b * c", "xabc*+= 7 4"),
    ("x = ( a + b ) * c", "xab+c*= 9 5"),
    ("( a + b )", "ab+ 5 3"),
    ("a < b == c < d", "ab<cd<= 7 3"),
    ("a & b == c", "abc=& 5 3"),
    ("a | b ^ c & d", "abcd&^| 7 4"),
    ("a || b && c | d", "abcd|&| 7 4"),
    ("! a && b", "a!b& 4 3"),
    ("- a * b", "a-b* 4 3"),
    ("* p ++", "p+* 3 3"),
    ("++ * p", "p*+ 3 3"),
    ("& buf [ i ]", "bi[& 5 3"),
    ("- - a", "a-- 3 3"),
    ("s . x . y = 1", "s..1= 7 4"),
    ("p -> next -> v += 2", "p--2+ 7 4"),
    ("buf [ ( head + 1 ) % 8 ] = v", "bh1+8%[v= 12 6"),
    ("f ( )", "f 3 1"),
    ("f ( a , b + c , d = e )", "abc+de=f 12 3"),
    ("( T ) x + 1", "x(1+ 6 3"),
    ("( T * ) p", "p( 5 2"),
    ("( T ) - x", "x-( 5 3"),
    ("( x ) - y", "xy- 5 3"),
    ("sizeof ( T )", "s 4 2"),
    ("sizeof ( T ) * 2", "s2* 6 3"),
    ("sizeof x [ 0 ]", "x0[s 5 3"),
    ("sizeof ( x ) [ 0 ]", "x0[s 7 4"),
    ("( unsigned char ) v >> 4", "v(4> 7 3"),
    ("( const volatile unsigned int * const ) p", "p( 9 2"),
    ("( long unsigned int long ) x", "x( 7 2"),
    ("( static int ) x", "x( 5 2"),
    ("( struct s * ) p", "p( 6 2"),
    ("( void ) f ( x )", "xf( 7 3"),
    ("a << 2 >> 1", "a2<1> 5 3"),
    (
        "pwm = duty > 255 ? 255 : duty < 0 ? 0 : duty",
        "pd2>2d0<0d??= 15 5",
    ),
    ("err = set - meas , sum += err", "esm-=se+, 9 4"),
    ("__input ( 0 , 1023 ) * 5 / 1024", "01_5*1/ 10 4"),
    ("__islocked ( m ) && ready", "_r& 6 2"),
    ("a , b , c", "ab,c, 5 3"),
    ("~ mask & flags", "m~f& 4 3"),
    ("x >>= 1", "x1> 3 2"),
    ("i ++ < 10 && buf [ i ] != 0", "i+1<bi[0!& 11 4"),
    ("f ( x ) [ 2 ] . y", "xf2[. 9 4"),
    ("! ( a || b )", "ab|! 6 4"),
    ("a = b = ;", "ab= 3 2"),
    ("a + b = c", "ab+ 3 2"),
    ("( f ) ( x )", "f 3 2"),
    ("f ( x ) ( y )", "xf 4 2"),
    ("f ( + )", "f 1 1"),
    ("a [ + ]", "a 1 1"),
    ("sizeof ( T ) [ 1 ]", "s 4 2"),
    ("s . T", "s. 3 2"),
    ("x = T", "x 1 1"),
];

// Texts that begin with no expression.
static NOT_READ: [(&str, &str); 17] = [
    ("T", "none"),
    ("( T )", "none"),
    ("+", "none"),
    ("( int T ) x", "none"),
    ("( unsigned signed ) x", "none"),
    ("( long long long ) x", "none"),
    ("( typedef int ) x", "none"),
    ("( T int ) x", "none"),
    ("( struct ) x", "none"),
    ("( x", "none"),
    ("__input ( 0 )", "none"),
    ("__islocked ( T )", "none"),
    ("sizeof", "none"),
    ("; a", "none"),
    (")", "none"),
    ("= 1", "none"),
    ("struct s", "none"),
];

// The tree, operands first: the byte of the text at the place of each part.
fn push_tree(text: &[u8], out: &mut String, expr: &Expr) -> Result<(), AllocError> {
    match expr {
        Expr::Parentheses { inside } => return push_tree(text, out, inside),
        Expr::Name { .. } | Expr::Integer { .. } | Expr::Character { .. } => {}
        Expr::Islocked { .. } | Expr::SizeofType { .. } => {}
        Expr::Prefix { operand, .. } | Expr::Cast { operand, .. } | Expr::Postfix { operand, .. } =>
            {
                push_tree(text, out, operand)?;
            }
        Expr::Member { object, .. } => push_tree(text, out, object)?,
        Expr::Input { low, high, .. } => {
            push_tree(text, out, low)?;
            push_tree(text, out, high)?;
        }
        Expr::Infix { left, right, .. } => {
            push_tree(text, out, left)?;
            push_tree(text, out, right)?;
        }
        Expr::Subscript { array, index, .. } => {
            push_tree(text, out, array)?;
            push_tree(text, out, index)?;
        }
        Expr::Conditional {
            condition,
            first,
            second,
            ..
        } => {
            push_tree(text, out, condition)?;
            push_tree(text, out, first)?;
            push_tree(text, out, second)?;
        }
        Expr::Call { arguments, .. } => {
            for argument in arguments {
                push_tree(text, out, argument)?;
            }
        }
    }
    let at = expr.place().col as usize;
    if at >= 1 && at <= text.len() {
        out.push(text[at - 1] as char)?;
    }
    Ok(())
}

// The tree of an expression, how many tokens it takes, and its height. (Each of these owns one thing, with one way out
// behind it.)
fn push_parsed(alloc: Global, out: &mut String, text: &[u8], parsed: &Parsed) -> Result<(), Fail> {
    push_tree(text, out, &parsed.expr)?;
    let extent = [parsed.end as i128, parsed.height as i128];
    push_form(alloc, out, " # #", &extent, &[])
}

// The same of the longest expression at the front of some tokens, or `none`.
fn push_longest(
    alloc: Global,
    out: &mut String,
    text: &[u8],
    tokens: &[Token],
    types: &Names,
) -> Result<(), Fail> {
    match parse_expr(alloc, tokens, 0, types)? {
        None => {
            out.push_str("none")?;
            Ok(())
        }
        Some(parsed) => push_parsed(alloc, out, text, &parsed),
    }
}

// Notes the names among the tokens that are spelled `T` as those of typedefs.
fn note_types(text: &[u8], tokens: &[Token], types: &mut Names) -> Result<(), Fail> {
    for token in tokens {
        if let Shape::Name(name) = token.shape {
            let start = name.start as usize;
            if name.length == 1 && start < text.len() && text[start] == b'T' {
                types.add(name)?;
            }
        }
    }
    Ok(())
}

fn push_read(alloc: Global, out: &mut String, text: &[u8], tokens: &[Token]) -> Result<(), Fail> {
    let mut types = Names::new(alloc);
    note_types(text, tokens, &mut types)?;
    push_longest(alloc, out, text, tokens, &types)
}

// A text of at most a hundred bytes.
fn push_text(alloc: Global, out: &mut String, text: &[u8]) -> Result<(), Fail> {
    if text.len() > 100 {
        return Err("too long")?;
    }
    match lex(alloc, text, TOKENS as usize) {
        Ok(tokens) => push_read(alloc, out, text, &tokens),
        Err(_) => Err("no tokens")?,
    }
}

fn reads(rt: &impl Abort, alloc: Global, text: &str, wanted: &str) -> Result<(), Fail> {
    let mut out = String::new(alloc);
    push_text(alloc, &mut out, text.as_bytes())?;
    assert_text(rt, text, &out, wanted);
    Ok(())
}

#[test]
fn trees(rt: HostRuntime) -> Result<(), Fail> {
    for (text, wanted) in READ.iter().chain(NOT_READ.iter()) {
        reads(&rt, rt.alloc(), *text, *wanted)?;
    }
    Ok(())
}

const A: Shape = Shape::Name(Name {
    start: 0,
    length: 1,
});

const OPEN: Shape = Shape::Sign(Sign::OpenParenthesis);

const CLOSE: Shape = Shape::Sign(Sign::CloseParenthesis);

// The name of a row; how often a front stands before a name, and a back behind it; where the longest expression ends,
// and its height, or `none`.
type Made = (
    &'static str,
    &'static [Shape],
    u32,
    &'static [Shape],
    &'static str,
);

static SHAPES: [Made; 14] = [
    (
        "499 of -",
        &[Shape::Sign(Sign::Minus)],
        499,
        &[],
        " 500 500",
    ),
    ("500 of -", &[Shape::Sign(Sign::Minus)], 500, &[], "none"),
    (
        "200,000 of -",
        &[Shape::Sign(Sign::Minus)],
        200_000,
        &[],
        "none",
    ),
    ("200,000 of (", &[OPEN], 200_000, &[], "none"),
    (
        "200,000 of a+",
        &[A, Shape::Sign(Sign::Plus)],
        200_000,
        &[],
        " 999 500",
    ),
    (
        "200,000 of a,",
        &[A, Shape::Sign(Sign::Comma)],
        200_000,
        &[],
        " 999 500",
    ),
    (
        "499 of a=",
        &[A, Shape::Sign(Sign::Equal)],
        499,
        &[],
        " 999 500",
    ),
    (
        "200,000 of a=",
        &[A, Shape::Sign(Sign::Equal)],
        200_000,
        &[],
        " 999 500",
    ),
    (
        "499 of a?a:",
        &[A, Shape::Sign(Sign::Question), A, Shape::Sign(Sign::Colon)],
        499,
        &[],
        " 1997 500",
    ),
    (
        "200,000 of a?a:",
        &[A, Shape::Sign(Sign::Question), A, Shape::Sign(Sign::Colon)],
        200_000,
        &[],
        " 1997 500",
    ),
    ("498 of ( and )", &[OPEN], 498, &[CLOSE], " 997 499"),
    ("499 of ( and )", &[OPEN], 499, &[CLOSE], " 999 500"),
    ("500 of ( and )", &[OPEN], 500, &[CLOSE], "none"),
    ("100,000 of ( and )", &[OPEN], 100_000, &[CLOSE], "none"),
];

// Appends these shapes so many times.
fn repeat(tokens: &mut Vec<Token>, shapes: &[Shape], count: u32) -> Result<(), AllocError> {
    for _i in 0..count {
        for shape in shapes {
            tokens.push(Token {
                shape: *shape,
                place: Place { line: 1, col: 1 },
            })?;
        }
    }
    Ok(())
}

// (The text of made tokens is empty, and so is what is written of their tree.)
fn push_made(
    alloc: Global,
    out: &mut String,
    front: &[Shape],
    count: u32,
    back: &[Shape],
) -> Result<(), Fail> {
    let mut tokens = Vec::new(alloc);
    repeat(&mut tokens, front, count)?;
    repeat(&mut tokens, &[A], 1)?;
    repeat(&mut tokens, back, count)?;
    push_longest(alloc, out, b"", &tokens, &Names::new(alloc))
}

fn has_extent(rt: &impl Abort, alloc: Global, row: &Made) -> Result<(), Fail> {
    let mut out = String::new(alloc);
    push_made(alloc, &mut out, row.1, row.2, row.3)?;
    assert_text(rt, row.0, &out, row.4);
    Ok(())
}

#[test]
fn shapes(rt: HostRuntime) -> Result<(), Fail> {
    for row in SHAPES.iter() {
        has_extent(&rt, rt.alloc(), row)?;
    }
    Ok(())
}
