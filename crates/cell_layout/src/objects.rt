//! Objects in their order.
ghost use Rattle.std.specs.Prelude.{◌≡◌, ◌+◌, ◌≤◌, ◌++◌, ◌∷◌, [], IfOk, OnOk, length, cond, suc};
ghost use Rattle.tm_typed.specs.TypedFiles.{typed_file_tree, typed_static_tree};
ghost use Rattle.tm_laid.specs.Layouts.{declared_objects, static_count};
ghost use Rattle.tm_laid.specs.Objects.{local_objects, path_objects, static_numbers, static_objects};
ghost use Rattle.tm_laid.specs.Paths.{first_objects_of, locals_of};

use crate::tables::locals_in;
use std::alloc::Global;
use tm_laid::{CallPath, DeclaredObject};
use tm_lattice::NoMemory;
use tm_typed::{TypedFile, TypedStatic};

// A number so much further. Where it would be beyond 2^32, there is no memory for so many objects.
fn further(first: u32, more: usize) -> Result<u32, NoMemory>
    ensures { IfOk result (λ n. n ≡ first + more) }
{
    match u32::try_from(more) {
        Ok(count) => match first.checked_add(count) {
            Some(number) => Ok(number),
            None => Err(NoMemory),
        },
        Err(_) => Err(NoMemory),
    }
}

// An object of static storage stands behind the others, where it is defined.
fn push_static(objects: &mut Vec<DeclaredObject>, object: &TypedStatic) -> Result<(), NoMemory>
    ensures { OnOk result (objects.new.items ≡ objects.old.items ++ static_objects
        (typed_static_tree object.now ∷ [])) }
{
    if object.defined {
        objects.push(DeclaredObject {
            name: object.name,
            place: object.place,
            of: object.of,
            owner: None,
        })?;
        Ok(())
    } else {
        Ok(())
    }
}

// The objects of static storage.
fn statics(alloc: Global, file: &TypedFile) -> Result<Vec<DeclaredObject>, NoMemory>
    ensures { IfOk result (λ v. v.items ≡ static_objects (typed_file_tree file.now).statics) }
{
    let mut objects = Vec::new(alloc);
    for object in &file.statics {
        push_static(&mut objects, object)?;
    }
    Ok(objects)
}

// The parameters and local objects of a path stand behind the others.
fn push_locals(
    file: &TypedFile,
    objects: &mut Vec<DeclaredObject>,
    path: u32,
    function: u32,
) -> Result<(), NoMemory>
    ensures { OnOk result (objects.new.items ≡ objects.old.items ++ local_objects path
        (locals_of (typed_file_tree file.now) function)) }
{
    for local in locals_in(file, function) {
        objects.push(DeclaredObject {
            name: local.name,
            place: local.place,
            of: local.of,
            owner: Some(path),
        })?;
    }
    Ok(())
}

/// All objects in their order.
pub(crate) fn declared(
    alloc: Global,
    file: &TypedFile,
    paths: &[CallPath],
) -> Result<Vec<DeclaredObject>, NoMemory>
    requires few { length paths.now ≤ 65536 }
    ensures { IfOk result (λ v. v.items ≡ declared_objects (typed_file_tree file.now) paths.now) }
{
    let mut objects = statics(alloc, file)?;
    let mut number = 0;
    for path in paths {
        push_locals(file, &mut objects, number, path.function)?;
        number += 1;
    }
    Ok(objects)
}

/// For each path its first object, where so many have static storage.
pub(crate) fn first_objects(
    alloc: Global,
    file: &TypedFile,
    statics: u32,
    paths: &[CallPath],
) -> Result<Vec<u32>, NoMemory>
    ensures { IfOk result (λ v. v.items ≡ first_objects_of (typed_file_tree file.now) statics paths.now) }
{
    let mut firsts = Vec::new(alloc);
    let mut object = statics;
    for path in paths {
        firsts.push(object)?;
        object = further(object, locals_in(file, path.function).len())?;
    }
    Ok(firsts)
}

// The number behind that of an object of static storage.
fn number_behind(number: u32, object: &TypedStatic) -> Result<u32, NoMemory>
    ensures { IfOk result (λ n. n ≡ cond object.now.defined (suc number) number) }
{
    if object.defined {
        further(number, 1)
    } else {
        Ok(number)
    }
}

/// For each object of static storage its number.
pub(crate) fn numbers_of_statics(alloc: Global, file: &TypedFile) -> Result<Vec<u32>, NoMemory>
    ensures { IfOk result (λ v. v.items ≡ static_numbers 0 (typed_file_tree file.now).statics) }
{
    let mut numbers = Vec::new(alloc);
    let mut number = 0;
    for object in &file.statics {
        numbers.push(number)?;
        number = number_behind(number, object)?;
    }
    Ok(numbers)
}

/// How many objects have static storage.
pub(crate) fn count_of_statics(alloc: Global, file: &TypedFile) -> Result<u32, NoMemory>
    ensures { IfOk result (λ n. n ≡ static_count (typed_file_tree file.now)) }
{
    let objects = statics(alloc, file)?;
    further(0, objects.len())
}
