//! What edges do, as text.
use crate::forms::push_form;
use cell_env::State;
use edge_effects::After;
use interfere_set::Nested;
use pointer_dom::AbsValue;
use std::alloc::Global;
use std::test::Fail;
use tm_lattice::Keyed;
use transfer_int::Classes;

/// How many temporaries and cells there are.
const COUNT: u32 = 5;

// A number, or the first and the last of several and the step between them.
fn push_value(alloc: Global, text: &mut String, value: &AbsValue) -> Result<(), Fail> {
    let set = value.numbers();
    if set.is_empty() {
        return push_form(alloc, text, "none", &[], &[]);
    }
    let form = if set.lo() == set.hi() {
        "#"
    } else {
        "#..# by #"
    };
    push_form(alloc, text, form, &[set.lo(), set.hi(), set.stride()], &[])
}

fn push_temps(alloc: Global, text: &mut String, state: &State<AbsValue>) -> Result<(), Fail> {
    for number in 0..COUNT {
        if let Some(temp) = state.temp(number) {
            push_form(alloc, text, "t#=", &[number as i128], &[])?;
            push_value(alloc, text, &temp.value)?;
            match temp.copy {
                Some(cell) => push_form(alloc, text, "~# ", &[cell as i128], &[])?,
                None => push_form(alloc, text, " ", &[], &[])?,
            }
        }
    }
    Ok(())
}

fn push_cells(alloc: Global, text: &mut String, state: &State<AbsValue>) -> Result<(), Fail> {
    for number in 0..COUNT {
        if let Some(cell) = state.cell(number) {
            push_form(alloc, text, "c#=", &[number as i128], &[])?;
            push_value(alloc, text, &cell.value)?;
            let fresh = if cell.fresh { "f" } else { "" };
            let stored = if cell.stored { "s" } else { "" };
            push_form(
                alloc,
                text,
                ":#$$ ",
                &[cell.pending as i128],
                &[fresh, stored],
            )?;
        }
    }
    Ok(())
}

// The entries of one task under one set of mutexes, or one mutex.
fn push_entries(
    alloc: Global,
    text: &mut String,
    kind: &'static str,
    task: u32,
    set: u32,
    cells: &Keyed<AbsValue>,
) -> Result<(), Fail> {
    for (cell, value) in cells.entries() {
        let numbers = [task as i128, set as i128, *cell as i128];
        push_form(alloc, text, "$#/#/#=", &numbers, &[kind])?;
        push_value(alloc, text, value)?;
        push_form(alloc, text, " ", &[], &[])?;
    }
    Ok(())
}

fn push_nested(
    alloc: Global,
    text: &mut String,
    kind: &'static str,
    nested: &Nested,
) -> Result<(), Fail> {
    for (task, sets) in nested.entries() {
        for (set, cells) in sets.entries() {
            push_entries(alloc, text, kind, *task, *set, cells)?;
        }
    }
    Ok(())
}

fn push_targets(alloc: Global, text: &mut String, targets: &[u32]) -> Result<(), Fail> {
    for target in targets {
        push_form(alloc, text, "# ", &[*target as i128], &[])?;
    }
    Ok(())
}

// The class of mutexes; what else is not excluded is no class of these operations.
fn classes_told(classes: Classes) -> &'static str {
    if classes.overflow
        || classes.div
        || classes.shift
        || classes.index
        || classes.pointer
        || classes.deref
    {
        return "OTHER";
    }
    if classes.lock { "LOCK" } else { "" }
}

fn push_state(
    alloc: Global,
    text: &mut String,
    state: &Option<State<AbsValue>>,
) -> Result<(), Fail> {
    match state {
        Some(state) => {
            push_temps(alloc, text, state)?;
            push_cells(alloc, text, state)
        }
        None => push_form(alloc, text, "nowhere ", &[], &[]),
    }
}

fn push_after(alloc: Global, text: &mut String, after: &After) -> Result<(), Fail> {
    push_state(alloc, text, &after.state)?;
    push_form(alloc, text, "| ", &[], &[])?;
    push_nested(alloc, text, "w", after.added.weak())?;
    push_nested(alloc, text, "s", after.added.sync())?;
    push_form(alloc, text, "| ", &[], &[])?;
    push_targets(alloc, text, after.targets.as_slice())?;
    push_form(alloc, text, "|$", &[], &[classes_told(after.classes)])
}

/// The state where an edge leads, or `nowhere`; behind bars what it adds to the store, by task, held set or mutex, and
/// cell; the cells that it reaches; and the classes of errors. (What owns the text has one way out behind it.)
pub fn pictured(alloc: Global, after: &After) -> Result<String, Fail> {
    let mut text = String::new(alloc);
    push_after(alloc, &mut text, after)?;
    Ok(text)
}
