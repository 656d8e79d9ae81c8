//! Runs by choices, with a picture of the world after each.
ghost use Rattle.concrete_worlds.specs.Running.{IsWorld};

use crate::forms::push_form;
use crate::run_pictures::push_world;
use crate::stations::{Run, Way, row_is_so};
use concrete_steps::{Choice, Stepped};
use concrete_worlds::World;
use std::alloc::Global;
use std::test::Fail;
use tm_cint::Class;
use tm_terms::Place;

// A source with two cells of static storage, and two tasks or one and the initial section; choices, as w0 for wake 0
// and r17 for run 1 7; and the picture of the start and of the world after each choice: what was answered, the cells,
// how both stand and which mutexes they hold, and where they race.
static ROWS: [(&str, &str, &str); 7] = [
    (
        "__mutex m;int x=1;int r;\n__task(1) void w(void){__lock(m);x=0;x=1;__unlock(m);}\n\
__task(1) void q(void){__lock(m);r=10/x;__unlock(m);}",
        "w0 w1 r00 r10 r10 r00 r00 r00 r10 r10 r10",
        "1 0 | waiting waiting \
; done 1 0 | ready waiting \
; done 1 0 | ready ready \
; done 1 0 | ready with 0 ready \
; done 1 0 | ready with 0 blocked 0 \
; not allowed 1 0 | ready with 0 blocked 0 \
; done 0 0 | ready with 0 blocked 0 \
; done 1 0 | ready with 0 blocked 0 \
; done 1 0 | done ready \
; done 1 0 | done ready with 0 \
; done 1 0 | done ready with 0 \
; done 1 10 | done ready with 0 ",
    ),
    (
        "int x;int r;\n__task(2) void hi(void){x=5;r=10/x;}\n__task(1) void lo(void){x=0;}",
        "w1 r10 w0 r00 r00 r00",
        "0 0 | waiting waiting races 2:26 3:26 \
; done 0 0 | waiting ready races 2:26 3:26 \
; done 0 0 | waiting done \
; done 0 0 | ready done \
; done 5 0 | ready done \
; done 5 0 | ready done \
; done 5 2 | done done ",
    ),
    // one task alone
    (
        "int x;\n__task(1) void t(void){x=1/x;}",
        "w0 r00 r00 r00",
        "0 none | waiting none \
; done 0 none | ready none \
; done 0 none | ready none \
; stopped 2:27 DIV 0 none | ready none \
; not allowed 0 none | ready none ",
    ),
    // an initial section runs before the tasks
    (
        "int x;int r;int main(void){x=5;}\n__task(1) void t(void){r=10/x;x=x-5;r=10/x;}",
        "w0 r10 r17 w0 r00 r00 r00 r00 r00 r00",
        "0 0 | waiting ready \
; not allowed 0 0 | waiting ready \
; done 5 0 | waiting ready \
; done 5 0 | waiting done \
; done 5 0 | ready done \
; done 5 0 | ready done \
; done 5 2 | ready done \
; done 5 2 | ready done \
; done 0 2 | ready done \
; done 0 2 | ready done \
; stopped 2:41 DIV 0 2 | ready done ",
    ),
    // the more urgent task first; a task that yields keeps its mutex, and a probe sees it
    (
        "__mutex m;int x;int r;\n__task(1) void a(void){__lock(m);__yield();__unlock(m);}\n\
__task(2) void b(void){r=__islocked(m)+1;}",
        "w0 w1 r00 r10 r10 w0 r00 r00 r01",
        "0 0 | waiting waiting \
; done 0 0 | ready waiting \
; done 0 0 | ready ready \
; not allowed 0 0 | ready ready \
; done 0 0 | ready ready \
; done 0 1 | ready done \
; not allowed 0 1 | ready done \
; done 0 1 | ready with 0 done \
; done 0 1 | waiting with 0 done \
; not allowed 0 1 | waiting with 0 done ",
    ),
    (
        "__mutex m;int x;int r;\n__task(1) void a(void){__lock(m);__yield();__unlock(m);__unlock(m);}\n\
__task(2) void b(void){r=__islocked(m)+1;}",
        "w0 r00 r00 w1 r10 r10 w0 r00 r00 w1",
        "0 0 | waiting waiting \
; done 0 0 | ready waiting \
; done 0 0 | ready with 0 waiting \
; done 0 0 | waiting with 0 waiting \
; done 0 0 | waiting with 0 ready \
; done 0 0 | waiting with 0 ready \
; done 0 2 | waiting with 0 done \
; done 0 2 | ready with 0 done \
; done 0 2 | ready done \
; stopped 2:56 LOCK 0 2 | ready done \
; not allowed 0 2 | ready done ",
    ),
    // a value is chosen within its bounds, a local object is open once it is cleared, and a loop may spin
    (
        "int x;int r;__task(1) void a(void){int n;x=__input(2,4);r=n;}__task(1) void b(void){while(1);}",
        "w0 r00 r05 r03 r00 r07 r00 w1 r10 r11",
        "0 0 | waiting waiting \
; done 0 0 | ready waiting \
; done 0 0 | ready waiting \
; not allowed 0 0 | ready waiting \
; done 0 0 | ready waiting \
; done 3 0 | ready waiting \
; done 3 0 | ready waiting \
; done 3 7 | done waiting \
; done 3 7 | done ready \
; done 3 7 | done ready \
; not allowed 3 7 | done ready ",
    ),
];

fn class_told(class: Class) -> &'static str {
    match class {
        Class::Overflow => "OVERFLOW",
        Class::Div => "DIV",
        Class::Shift => "SHIFT",
        Class::Index => "INDEX",
        Class::Pointer => "POINTER",
        Class::Deref => "DEREF",
        Class::Lock => "LOCK",
        Class::Race => "RACE",
    }
}

fn push_answer(alloc: Global, text: &mut String, stepped: Stepped) -> Result<(), Fail> {
    match stepped {
        Stepped::Done => push_form(alloc, text, "; done ", &[], &[]),
        Stepped::NotAllowed => push_form(alloc, text, "; not allowed ", &[], &[]),
        Stepped::Stopped { class, place } => push_form(
            alloc,
            text,
            "; stopped #:# $ ",
            &[place.line as i128, place.col as i128],
            &[class_told(class)],
        ),
    }
}

fn digit(byte: u8) -> u32 {
    u32::from(byte).saturating_sub(48)
}

fn choice_of(word: &str) -> Choice {
    match word.as_bytes() {
        [b'w', task] => Choice::Wake { task: digit(*task) },
        [b'r', task, value] => Choice::Run {
            task: digit(*task),
            value: i128::from(digit(*value)),
        },
        _ => Choice::Wake { task: 99 },
    }
}

fn push_races(alloc: Global, text: &mut String, races: &[Place]) -> Result<(), Fail> {
    if races.len() > 0 {
        text.push_str("races ")?;
    }
    for place in races {
        let place = [place.line as i128, place.col as i128];
        push_form(alloc, text, "#:# ", &place, &[])?;
    }
    Ok(())
}

// The cells, how both stand, and where they race.
fn push_picture(alloc: Global, text: &mut String, world: &World) -> Result<(), Fail>
    requires { IsWorld world.now }
{
    push_world(alloc, text, world, 2, 2)?;
    let races = world.races(alloc)?;
    push_races(alloc, text, &races)
}

// What is answered to a choice, and the picture then.
fn push_step(
    alloc: Global,
    text: &mut String,
    world: &mut World,
    choice: Choice,
) -> Result<(), Fail>
    requires { IsWorld world.old }
    ensures { IsWorld world.new }
{
    world.reserve()?;
    let stepped = world.step(choice)?;
    push_answer(alloc, text, stepped)?;
    push_picture(alloc, text, world)
}

/// The picture of a world, and of what becomes of it by each choice.
pub fn push_choices(
    alloc: Global,
    text: &mut String,
    world: &mut World,
    choices: &str,
) -> Result<(), Fail>
    requires { IsWorld world.old }
{
    push_picture(alloc, text, world)?;
    for word in choices.split_whitespace() {
        push_step(alloc, text, world, choice_of(word))?;
    }
    Ok(())
}

#[test]
fn rows(rt: HostRuntime) -> Result<(), Fail> {
    for (source, choices, told) in ROWS.iter() {
        let run = Run::Choices(*choices);
        row_is_so(&rt, rt.alloc(), Way::Plain(run), *source, *told)?;
        row_is_so(&rt, rt.alloc(), Way::Along(run), *source, *told)?;
    }
    Ok(())
}
