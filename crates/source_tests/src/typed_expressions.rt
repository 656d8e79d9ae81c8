//! Types and folded values of expressions, as vectors/typing.c has them, where a C compiler checks them.

use crate::forms::push_number;
use crate::stations::{Way, answers};
use c_declarations::file_declaration;
use c_expr_rules::valued;
use c_specifiers::{declared, declared_name, declared_pointers, specified};
use c_type_names::base;
use c_typing_state::{State, folded_value};
use std::alloc::{AllocError, Global};
use std::process::Abort;
use std::test::Fail;
use tm_lattice::NoMemory;
use tm_terms::{Expr, Name};
use tm_trees::{BlockPart, File, Function, Item, Parameter, Parameters, Statement};
use tm_typed::{CType, FunctionEntry, Named, Qualified, Sort, is_same_int};

// The declarations before each expression.
static BEFORE: [&str; 7] = [
    "enum { E = 5, N = 0, L = -7 };",
    "struct S { char a; int b[3]; struct S *next; };",
    "_Bool bo; char c; signed char sc; unsigned char uc; short s; unsigned short us;",
    "int i; unsigned int u; long l; unsigned long ul; long long ll; unsigned long long ull;",
    "volatile int v; const int k = 1; int *p; const int *cp; volatile int *vp;",
    "int a[5]; int m[2][3]; const int ka[4]; struct S t; struct S *q; const struct S *kq;",
    "int f(int x, long long y); unsigned char h(void); int *r(void);",
];

// An expression, and the declaration of an object of its type.
static TYPES: [(&str, &str); 214] = [
    ("c", "char want;"),
    ("+c", "int want;"),
    ("+uc", "int want;"),
    ("+s", "int want;"),
    ("+us", "int want;"),
    ("+bo", "int want;"),
    ("+i", "int want;"),
    ("+u", "unsigned int want;"),
    ("+l", "long want;"),
    ("+ul", "unsigned long want;"),
    ("+ll", "long long want;"),
    ("+ull", "unsigned long long want;"),
    ("-us", "int want;"),
    ("~uc", "int want;"),
    ("!ull", "int want;"),
    ("c + c", "int want;"),
    ("bo + bo", "int want;"),
    ("uc * us", "int want;"),
    ("i + u", "unsigned int want;"),
    ("i + l", "long want;"),
    ("u + l", "unsigned long want;"),
    ("l + u", "unsigned long want;"),
    ("ul + i", "unsigned long want;"),
    ("ul + l", "unsigned long want;"),
    ("ul + ll", "long long want;"),
    ("u + ll", "long long want;"),
    ("ll + ul", "long long want;"),
    ("ll + ull", "unsigned long long want;"),
    ("ull + c", "unsigned long long want;"),
    ("i << ll", "int want;"),
    ("uc << ull", "int want;"),
    ("u >> c", "unsigned int want;"),
    ("ll >> i", "long long want;"),
    ("l << ul", "long want;"),
    ("ul < ll", "int want;"),
    ("ull == c", "int want;"),
    ("p == 0", "int want;"),
    ("i && ll", "int want;"),
    ("p || N", "int want;"),
    ("i ? c : uc", "int want;"),
    ("i ? l : u", "unsigned long want;"),
    ("i ? ll : ull", "unsigned long long want;"),
    ("i ? p : 0", "int *want;"),
    ("i ? 0 : p", "int *want;"),
    ("i ? p : (void *)0", "int *want;"),
    ("i ? cp : p", "const int *want;"),
    ("i ? vp : p", "volatile int *want;"),
    ("i ? a : p", "int *want;"),
    ("c, ll", "long long want;"),
    ("c = ll", "char want;"),
    ("ull = c", "unsigned long long want;"),
    ("c += ll", "char want;"),
    ("us++", "unsigned short want;"),
    ("--bo", "_Bool want;"),
    ("p++", "int *want;"),
    ("p += 2", "int *want;"),
    ("p + i", "int *want;"),
    ("ll + p", "int *want;"),
    ("p - uc", "int *want;"),
    ("a + 1", "int *want;"),
    ("m + 1", "int (*want)[3];"),
    ("*m", "int *want;"),
    ("m[1]", "int *want;"),
    ("m[1][2]", "int want;"),
    ("&i", "int *want;"),
    ("&k", "const int *want;"),
    ("&v", "volatile int *want;"),
    ("&a", "int (*want)[5];"),
    ("&a[2]", "int *want;"),
    ("&m[1]", "int (*want)[3];"),
    ("&t", "struct S *want;"),
    ("&t.b", "int (*want)[3];"),
    ("&q->b[1]", "int *want;"),
    ("&kq->b", "const int (*want)[3];"),
    ("ka", "const int *want;"),
    ("*p", "int want;"),
    ("*cp", "int want;"),
    ("*&i", "int want;"),
    ("a", "int *want;"),
    ("a[i]", "int want;"),
    ("t.a", "char want;"),
    ("t.b", "int *want;"),
    ("q->b[2]", "int want;"),
    ("q->next->a", "char want;"),
    ("kq->b", "const int *want;"),
    ("kq->next", "struct S *want;"),
    ("(unsigned char)ll", "unsigned char want;"),
    ("(long)c", "long want;"),
    ("(const int)c", "int want;"),
    ("(int *)p", "int *want;"),
    ("(int *)0", "int *want;"),
    ("f(c, c)", "int want;"),
    ("h()", "unsigned char want;"),
    ("r()", "int *want;"),
    ("sizeof i", "unsigned int want;"),
    ("sizeof(struct S)", "unsigned int want;"),
    ("'a'", "int want;"),
    ("E", "int want;"),
    ("1", "int want;"),
    ("2147483647", "int want;"),
    ("2147483648", "long long want;"),
    ("4294967295", "long long want;"),
    ("4294967296", "long long want;"),
    ("9223372036854775807", "long long want;"),
    ("1u", "unsigned int want;"),
    ("4294967295u", "unsigned int want;"),
    ("4294967296u", "unsigned long long want;"),
    ("18446744073709551615u", "unsigned long long want;"),
    ("1l", "long want;"),
    ("2147483647l", "long want;"),
    ("2147483648l", "long long want;"),
    ("1ul", "unsigned long want;"),
    ("4294967295ul", "unsigned long want;"),
    ("4294967296ul", "unsigned long long want;"),
    ("1ll", "long long want;"),
    ("1ull", "unsigned long long want;"),
    ("0x7fffffff", "int want;"),
    ("0x80000000", "unsigned int want;"),
    ("0xffffffff", "unsigned int want;"),
    ("0x100000000", "long long want;"),
    ("0x7fffffffffffffff", "long long want;"),
    ("0x8000000000000000", "unsigned long long want;"),
    ("0x80000000l", "unsigned long want;"),
    ("0x100000000l", "long long want;"),
    ("0x8000000000000000ll", "unsigned long long want;"),
    ("017777777777", "int want;"),
    ("020000000000", "unsigned int want;"),
    ("E + E", "int want;"),
    ("E / 2", "int want;"),
    ("-7 / 2", "int want;"),
    ("-7 % 2", "int want;"),
    ("7 % -2", "int want;"),
    ("N && E / N", "int want;"),
    ("E || E / N", "int want;"),
    ("E ? E : E / N", "int want;"),
    ("N ? E / N : L", "int want;"),
    ("1 << 4", "int want;"),
    ("-8 >> 1", "int want;"),
    ("~0", "int want;"),
    ("~0u", "unsigned int want;"),
    ("-1u", "unsigned int want;"),
    ("1 - 2u", "unsigned int want;"),
    ("-1 < 1u", "int want;"),
    ("-1l < 1u", "int want;"),
    ("-1ll < 1u", "int want;"),
    ("-1 < 1ul", "int want;"),
    ("(unsigned char)300", "unsigned char want;"),
    ("(char)200", "char want;"),
    ("(short)40000", "short want;"),
    ("(_Bool)256", "_Bool want;"),
    ("(int)4294967295u", "int want;"),
    ("(unsigned long long)-1", "unsigned long long want;"),
    ("'a' + 1", "int want;"),
    ("'\\377'", "int want;"),
    ("'\\x80'", "int want;"),
    ("2147483647 + 1u", "unsigned int want;"),
    ("0x7fffffff * 2u", "unsigned int want;"),
    ("18446744073709551615u + 1", "unsigned long long want;"),
    ("4294967295u * 4294967295u", "unsigned int want;"),
    ("9223372036854775807 - 1", "long long want;"),
    ("sizeof(char)", "unsigned int want;"),
    ("sizeof(short)", "unsigned int want;"),
    ("sizeof(int)", "unsigned int want;"),
    ("sizeof(long)", "unsigned int want;"),
    ("sizeof(long long)", "unsigned int want;"),
    ("sizeof(int *)", "unsigned int want;"),
    ("sizeof a", "unsigned int want;"),
    ("sizeof m", "unsigned int want;"),
    ("sizeof m[0]", "unsigned int want;"),
    ("sizeof(a + 1)", "unsigned int want;"),
    ("sizeof(c + c)", "unsigned int want;"),
    ("sizeof c", "unsigned int want;"),
    ("sizeof(i ? c : uc)", "unsigned int want;"),
    ("sizeof(c = ll)", "unsigned int want;"),
    ("sizeof(1 ? c : ll)", "unsigned int want;"),
    ("sizeof 'a'", "unsigned int want;"),
    ("sizeof t", "unsigned int want;"),
    ("sizeof t.b", "unsigned int want;"),
    ("sizeof q->next", "unsigned int want;"),
    ("sizeof h()", "unsigned int want;"),
    ("sizeof -h()", "unsigned int want;"),
    ("sizeof(ll << 1)", "unsigned int want;"),
    ("sizeof(i << ll)", "unsigned int want;"),
    ("sizeof(u + l)", "unsigned int want;"),
    ("!E", "int want;"),
    ("!N", "int want;"),
    ("E == 5", "int want;"),
    ("L < 0u", "int want;"),
    ("5 > 3 > 1", "int want;"),
    ("3 & 5 | 8 ^ 12", "int want;"),
    ("1 ? 2 : 3ull", "unsigned long long want;"),
    ("-1 ? -1 : 0u", "unsigned int want;"),
    ("(N ? 1ll : -1) < 0u", "int want;"),
    ("p == vp", "int want;"),
    ("vp = p", "volatile int *want;"),
    ("cp = p", "const int *want;"),
    ("p = cp", "int *want;"),
    ("p = 0", "int *want;"),
    ("p = E - 5", "int *want;"),
    ("p = (void *)0", "int *want;"),
    ("(void *)0 == (void *)0", "int want;"),
    ("!(void *)0", "int want;"),
    ("i && (void *)0", "int want;"),
    ("(void *)0, i", "int want;"),
    ("sizeof((void *)0)", "unsigned int want;"),
    ("(volatile int *)p", "volatile int *want;"),
    ("(int *)cp", "int *want;"),
    ("q->next = (struct S *)(void *)0", "struct S *want;"),
    ("(struct Q *)0 == (struct Q *)0", "int want;"),
    ("t", "struct S want;"),
    ("i, t", "struct S want;"),
    ("f(c, &i == 0)", "int want;"),
    ("+(i < u)", "int want;"),
    ("&*p", "int *want;"),
];

// An expression, and its folded value.
static VALUES: [(&str, &str); 100] = [
    ("sizeof i", "4"),
    ("sizeof(struct S)", "20"),
    ("'a'", "97"),
    ("E", "5"),
    ("1", "1"),
    ("2147483647", "2147483647"),
    ("2147483648", "2147483648"),
    ("4294967295", "4294967295"),
    ("4294967296", "4294967296"),
    ("9223372036854775807", "9223372036854775807"),
    ("1u", "1"),
    ("4294967295u", "4294967295"),
    ("4294967296u", "4294967296"),
    ("18446744073709551615u", "18446744073709551615"),
    ("1l", "1"),
    ("2147483647l", "2147483647"),
    ("2147483648l", "2147483648"),
    ("1ul", "1"),
    ("4294967295ul", "4294967295"),
    ("4294967296ul", "4294967296"),
    ("1ll", "1"),
    ("1ull", "1"),
    ("0x7fffffff", "2147483647"),
    ("0x80000000", "2147483648"),
    ("0xffffffff", "4294967295"),
    ("0x100000000", "4294967296"),
    ("0x7fffffffffffffff", "9223372036854775807"),
    ("0x8000000000000000", "9223372036854775808"),
    ("0x80000000l", "2147483648"),
    ("0x100000000l", "4294967296"),
    ("0x8000000000000000ll", "9223372036854775808"),
    ("017777777777", "2147483647"),
    ("020000000000", "2147483648"),
    ("E + E", "10"),
    ("E / 2", "2"),
    ("-7 / 2", "-3"),
    ("-7 % 2", "-1"),
    ("7 % -2", "1"),
    ("N && E / N", "0"),
    ("E || E / N", "1"),
    ("E ? E : E / N", "5"),
    ("N ? E / N : L", "-7"),
    ("1 << 4", "16"),
    ("-8 >> 1", "-4"),
    ("~0", "-1"),
    ("~0u", "4294967295"),
    ("-1u", "4294967295"),
    ("1 - 2u", "4294967295"),
    ("-1 < 1u", "0"),
    ("-1l < 1u", "0"),
    ("-1ll < 1u", "1"),
    ("-1 < 1ul", "0"),
    ("(unsigned char)300", "44"),
    ("(char)200", "-56"),
    ("(short)40000", "-25536"),
    ("(_Bool)256", "1"),
    ("(int)4294967295u", "-1"),
    ("(unsigned long long)-1", "18446744073709551615"),
    ("'a' + 1", "98"),
    ("'\\377'", "-1"),
    ("'\\x80'", "-128"),
    ("2147483647 + 1u", "2147483648"),
    ("0x7fffffff * 2u", "4294967294"),
    ("18446744073709551615u + 1", "0"),
    ("4294967295u * 4294967295u", "1"),
    ("9223372036854775807 - 1", "9223372036854775806"),
    ("sizeof(char)", "1"),
    ("sizeof(short)", "2"),
    ("sizeof(int)", "4"),
    ("sizeof(long)", "4"),
    ("sizeof(long long)", "8"),
    ("sizeof(int *)", "4"),
    ("sizeof a", "20"),
    ("sizeof m", "24"),
    ("sizeof m[0]", "12"),
    ("sizeof(a + 1)", "4"),
    ("sizeof(c + c)", "4"),
    ("sizeof c", "1"),
    ("sizeof(i ? c : uc)", "4"),
    ("sizeof(c = ll)", "1"),
    ("sizeof(1 ? c : ll)", "8"),
    ("sizeof 'a'", "4"),
    ("sizeof t", "20"),
    ("sizeof t.b", "12"),
    ("sizeof q->next", "4"),
    ("sizeof h()", "1"),
    ("sizeof -h()", "4"),
    ("sizeof(ll << 1)", "8"),
    ("sizeof(i << ll)", "4"),
    ("sizeof(u + l)", "4"),
    ("!E", "0"),
    ("!N", "1"),
    ("E == 5", "1"),
    ("L < 0u", "0"),
    ("5 > 3 > 1", "0"),
    ("3 & 5 | 8 ^ 12", "5"),
    ("1 ? 2 : 3ull", "2"),
    ("-1 ? -1 : 0u", "4294967295"),
    ("(N ? 1ll : -1) < 0u", "1"),
    ("sizeof((void *)0)", "4"),
];

// A source of this table.
fn push_source(text: &mut Vec<u8>, wanted: &str, expression: &str) -> Result<(), AllocError> {
    for line in BEFORE.iter() {
        text.extend_from_slice(line.as_bytes())?;
    }
    text.extend_from_slice(wanted.as_bytes())?;
    text.extend_from_slice(b"void run(void){")?;
    text.extend_from_slice(expression.as_bytes())?;
    text.extend_from_slice(b";}")
}

// The number of the type of a parameter.
fn parameter_type(alloc: Global, state: &mut State, parameter: &Parameter) -> Option<u32> {
    match parameter {
        Parameter::Named {
            specifiers,
            declarator,
        } => match specified(alloc, state, specifiers) {
            Ok(said) => match declared(alloc, state, base(said), declarator) {
                Ok(shape) => Some(shape.of.number),
                Err(_) => None,
            },
            Err(_) => None,
        },
        _ => None,
    }
}

// The number of the type that a function gives.
fn result_type(alloc: Global, state: &mut State, function: &Function) -> Option<u32> {
    match specified(alloc, state, &function.specifiers) {
        Ok(said) => match declared_pointers(state, base(said), &function.pointers) {
            Ok(shape) => Some(shape.of.number),
            Err(_) => None,
        },
        Err(_) => None,
    }
}

fn push_parameters(
    alloc: Global,
    parameters: &mut Vec<u32>,
    state: &mut State,
    list: &Parameters,
) -> Option<()> {
    if let Parameters::List(list) = list {
        for parameter in list {
            let number = parameter_type(alloc, state, parameter)?;
            if parameters.push(number).is_err() {
                return None;
            }
        }
    }
    Some(())
}

// A function is declared that gives this type.
fn add_function(
    state: &mut State,
    name: Name,
    gives: u32,
    parameters: Vec<u32>,
) -> Result<(), NoMemory> {
    let number = state.functions_len().min(65_536) as u32;
    state.add_function(FunctionEntry {
        result: gives,
        parameters,
        defined: false,
    })?;
    state.add_name(name, Named::Function(number))
}

// A function of the table is declared.
fn declare(alloc: Global, state: &mut State, function: &Function) -> Option<()> {
    let gives = result_type(alloc, state, function)?;
    let mut parameters = Vec::new(alloc);
    push_parameters(alloc, &mut parameters, state, &function.parameters)?;
    match add_function(state, function.name, gives, parameters) {
        Ok(()) => Some(()),
        Err(_) => None,
    }
}

// The expression of the body of the last function.
fn expression_of(function: &Function) -> Option<&Expr> {
    match &function.body {
        Some(body) => match body.parts.as_slice() {
            [BlockPart::Statement(Statement::Expression(Some(expr)))] => Some(expr),
            _ => None,
        },
        None => None,
    }
}

// The expression of the body of a file, in the state behind its declarations.
fn row_expression<'a>(alloc: Global, file: &'a File, state: &mut State) -> Option<&'a Expr> {
    for item in &file.items {
        match item {
            Item::Declaration(declaration) => {
                if file_declaration(alloc, state, declaration).is_err() {
                    return None;
                }
            }
            Item::Function(function) => match expression_of(function) {
                Some(expr) => return Some(expr),
                None => declare(alloc, state, function)?,
            },
            Item::Empty | Item::Mutex { .. } | Item::Task { .. } => {}
        }
    }
    None
}

// The sort of an expression as a value, and its folded value.
fn typed_expression(alloc: Global, state: &mut State, expr: &Expr) -> Option<(Sort, Option<i128>)> {
    match state.typed_in(alloc, expr) {
        Ok(operand) => {
            let value = folded_value(&operand);
            match valued(alloc, state.scope(), operand) {
                Ok(valued) => Some((valued.sort, value)),
                Err(_) => None,
            }
        }
        Err(_) => None,
    }
}

// The type of the object that the last declaration of a file declares.
fn wanted_type(file: &File, state: &State) -> Qualified {
    let mut wanted = Qualified {
        number: 0,
        constant: false,
        volatile: false,
    };
    for item in &file.items {
        if let Item::Declaration(declaration) = item {
            if let [last] = declaration.declarators.as_slice() {
                if let Some(Named::Object { of, .. }) = state
                    .scope()
                    .named(declared_name(&last.declarator))
                {
                    wanted = of;
                }
            }
        }
    }
    wanted
}

fn is_same(state: &State, sort: Sort, of: Qualified) -> bool {
    match (sort, state.scope().ctype(of.number)) {
        (Sort::Integer(of, _), CType::Int(wanted)) => is_same_int(of, wanted),
        (Sort::Pointer(to), CType::Pointer(wanted)) => {
            state.scope().is_same_type(to.number, wanted.number)
                && to.constant == wanted.constant
                && to.volatile == wanted.volatile
        }
        (Sort::Structure(structure), CType::Struct(wanted)) => structure == wanted,
        _ => false,
    }
}

// Whether the expression of a file has the type of the object that its last declaration declares, and its folded value.
fn told_in(alloc: Global, file: &File, state: &mut State) -> Option<(bool, Option<i128>)> {
    let expr = row_expression(alloc, file, state)?;
    let (sort, value) = typed_expression(alloc, state, expr)?;
    Some((is_same(state, sort, wanted_type(file, state)), value))
}

// (What owns a state has one way out behind it: how a state is let go is dear.)
fn told(alloc: Global, file: &File) -> Option<(bool, Option<i128>)> {
    match State::new(alloc) {
        Ok(state) => {
            let mut state = state;
            told_in(alloc, file, &mut state)
        }
        Err(_) => None,
    }
}

/// Whether the expression of a file of this table has the type that is wanted.
pub fn push_type(alloc: Global, text: &mut String, file: &File) -> Result<(), Fail> {
    let answer = match told(alloc, file) {
        Some((true, _)) => "as wanted",
        Some((false, _)) => "of another type",
        None => "refused",
    };
    text.push_str(answer)?;
    Ok(())
}

/// The folded value of the expression of a file of this table.
pub fn push_value(alloc: Global, text: &mut String, file: &File) -> Result<(), Fail> {
    match told(alloc, file) {
        Some((_, Some(value))) => push_number(alloc, text, value),
        _ => {
            text.push_str("none")?;
            Ok(())
        }
    }
}

// The expression, behind this declaration, has this answer.
fn row_is_so(
    rt: &impl Abort,
    alloc: Global,
    way: Way,
    wanted: &str,
    expression: &str,
    answer: &str,
) -> Result<(), Fail> {
    let mut source = Vec::new(alloc);
    push_source(&mut source, wanted, expression)?;
    answers(rt, alloc, way, expression, &source, answer)
}

#[test]
fn types(rt: HostRuntime) -> Result<(), Fail> {
    for (expression, wanted) in TYPES.iter() {
        row_is_so(
            &rt,
            rt.alloc(),
            Way::Type,
            *wanted,
            *expression,
            "as wanted",
        )?;
    }
    Ok(())
}

#[test]
fn values(rt: HostRuntime) -> Result<(), Fail> {
    for (expression, value) in VALUES.iter() {
        row_is_so(&rt, rt.alloc(), Way::Value, "", *expression, *value)?;
    }
    Ok(())
}
