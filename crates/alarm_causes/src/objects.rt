//! The objects that advice names.
use crate::advices::{Advice, Step};
use std::alloc::Global;
use tm_lattice::NoMemory;

// Adds the objects of steps.
fn add_objects(steps: &[Step], objects: &mut Vec<u32>) -> Result<(), NoMemory> {
    for step in steps {
        if let Some(object) = step.object {
            objects.push(object)?;
        }
    }
    Ok(())
}

/// The numbers of the objects whose cells are loaded or stored on the ways of advice, rising, each once. The only error
/// is want of memory.
pub fn objects_named(alloc: Global, list: &[Advice]) -> Result<Vec<u32>, NoMemory> {
    let mut objects = Vec::new(alloc);
    for advice in list {
        add_objects(&advice.trace, &mut objects)?;
    }
    objects.sort()?;
    objects.dedup();
    Ok(objects)
}
