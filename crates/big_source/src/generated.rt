//! The generated source.

ghost use Rattle.std.specs.Prelude.{◌≡◌, ◌++◌, IfOk, OnOk, string_bytes};
ghost use Rattle.std.specs.List.{flat_map};
ghost use Rattle.big_source.specs.GeneratedSources.{call_text, calls_text, function_line, numbers_below, source_text};
ghost use Rattle.big_source.specs.GeneratedSources.{tail_text, task_line};

use std::alloc::{AllocError, Global};
use tm_lattice::NoMemory;

/// What all tasks share.
const DECLARATIONS: &str = "__mutex m;\nint n;\nint b[16];\n";

/// How many tasks there are.
const TASKS: u32 = 4;

/// Appends the function of a number.
fn push_function(text: &mut String, k: u32) -> Result<(), AllocError>
    ensures { OnOk result (string_bytes text.new ≡ string_bytes text.old ++ function_line k) }
{
    write!(
        text,
        "int f{k}(int v){{if(v>{k})return v-{k};return {k};}}\n"
    )
}

/// Appends the functions of the numbers below a bound.
fn push_functions(text: &mut String, n: u32) -> Result<(), AllocError>
    ensures { OnOk result (string_bytes text.new ≡ string_bytes text.old ++ flat_map function_line (numbers_below n)) }
{
    for k in 0..n {
        push_function(text, k)?;
    }
    Ok(())
}

/// Appends the call of a function.
fn push_call(text: &mut String, k: u32) -> Result<(), AllocError>
    ensures { OnOk result (string_bytes text.new ≡ string_bytes text.old ++ call_text k) }
{
    write!(text, "z=f{k}(z);")
}

/// Appends the calls of a task.
fn push_calls(text: &mut String, n: u32, j: u32) -> Result<(), AllocError>
    ensures { OnOk result (string_bytes text.new ≡ string_bytes text.old ++ calls_text n j) }
{
    for k in 0..n {
        if k % TASKS == j {
            push_call(text, k)?;
        }
    }
    Ok(())
}

/// What a task does behind its unlock.
fn tail_of(j: u32) -> &'static str
    ensures { result.now ≡ tail_text j }
{
    if j == 3 { "if(n==3)z=0;" } else { "" }
}

/// Appends a task.
fn push_task(text: &mut String, n: u32, j: u32) -> Result<(), AllocError>
    ensures { OnOk result (string_bytes text.new ≡ string_bytes text.old ++ task_line n j) }
{
    write!(
        text,
        "__task(1) void t{j}(void){{int z;z={j};while(1){{__lock(m);"
    )?;
    push_calls(text, n, j)?;
    let tail = tail_of(j);
    write!(
        text,
        "if(n<16){{b[n]=z;n=n+1;}}__unlock(m);{tail}__yield();}}}}\n"
    )?;
    Ok(())
}

/// Appends the tasks of the numbers below a bound.
fn push_tasks(text: &mut String, n: u32, tasks: u32) -> Result<(), AllocError>
    ensures { OnOk result (string_bytes text.new
        ≡ string_bytes text.old ++ flat_map (task_line n) (numbers_below tasks)) }
{
    for j in 0..tasks {
        push_task(text, n, j)?;
    }
    Ok(())
}

/// Appends the whole source.
fn push_source(text: &mut String, n: u32) -> Result<(), AllocError>
    ensures { OnOk result (string_bytes text.new ≡ string_bytes text.old ++ source_text n) }
{
    text.push_str(DECLARATIONS)?;
    push_functions(text, n)?;
    push_tasks(text, n, TASKS)?;
    Ok(())
}

/// A source with n functions and four tasks, which share the calls of the functions among them. Its tasks write a
/// common variable under a mutex and read it without.
pub fn big_source(alloc: Global, n: u32) -> Result<String, NoMemory>
    ensures { IfOk result (λ text. string_bytes text ≡ source_text n) }
{
    let mut text = String::new(alloc);
    match push_source(&mut text, n) {
        Ok(()) => Ok(text),
        Err(_) => Err(NoMemory),
    }
}
