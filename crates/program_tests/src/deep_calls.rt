//! A replay of calls that are 395 deep in one another, each in an expression of height 480: to go down through calls
//! and trees would need more stack than a main thread has.

use crate::commands::expect;
use crate::forms::push_form;
use std::alloc::Global;
use std::test::Fail;

/// `int f0(void){return 1;}`, then for K from 1 to 394 `int fK(void){return + + .. + f(K-1)();}` with 480 signs, a task
/// that stores what the last one gives, and the two choices with which it does so.
fn deep_source(alloc: Global) -> Result<String, Fail> {
    let mut text = String::from_str(alloc, "int f0(void){return 1;}\n")?;
    for callee in 0..394 {
        push_form(alloc, &mut text, "int f#(void){return", &[callee + 1])?;
        for _sign in 0..480 {
            text.push_str(" +")?;
        }
        push_form(alloc, &mut text, " f#();}\n", &[callee])?;
    }
    text.push_str("int x;__task(1) void t(void){x=f394();}\n#replay\nwake 0\nrun 0 0\n")?;
    Ok(text)
}

#[test]
fn deep_calls(rt: HostRuntime) -> Result<(), Fail> {
    let alloc = rt.alloc();
    let text = deep_source(alloc)?;
    expect(&rt, alloc, &["replay"], text.as_bytes(), 0, b"ran 2\n")
}
