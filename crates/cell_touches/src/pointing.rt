//! To which objects the temporaries and cells of a program may point, and which cells an access then reaches.

use crate::cell_lists::push_all;
use crate::flows::{add_body, no_flows};
use crate::groups::{Groups, groups_of};
use crate::holders::{Holders, holders_of};
use crate::initial::add_initials;
use crate::pointees::{Pointees, no_pointees};
use crate::seen::is_reachable;
use crate::settling::settle;
use mutex_configs::Program;
use std::alloc::Global;
use tm_laid::{Laid, Scalar};
use tm_lattice::NoMemory;

/// To which objects the temporaries and cells of a program may point.
#[derive(Drop)]
pub(crate) struct Pointing {
    groups: Groups,
    holders: Holders,
    pointees: Pointees,
}

/// To which objects the temporaries and cells of a program may point.
pub(crate) fn program_pointing(alloc: Global, program: &Program) -> Result<Pointing, NoMemory> {
    let graphs = program.graphs.graphs.as_slice();
    let groups = groups_of(alloc, &program.laid)?;
    let holders = holders_of(alloc, graphs, groups.count())?;
    let mut pointees = no_pointees(alloc, holders.count())?;
    let mut flows = no_flows(alloc, holders.count())?;
    add_initials(&program.laid, &groups, &holders, &mut pointees)?;
    for body in 0..graphs.len() {
        add_body(&holders, body, &graphs[body], &mut flows, &mut pointees)?;
    }
    settle(&program.laid, &groups, &holders, &mut flows, &mut pointees)?;
    Ok(Pointing {
        groups,
        holders,
        pointees,
    })
}

impl Pointing {
    /// The cells of a type that an access by a body reaches, whose address is this temporary.
    pub(crate) fn cells(
        &self,
        alloc: Global,
        laid: &Laid,
        body: usize,
        address: u32,
        scalar: Scalar,
    ) -> Result<Vec<usize>, NoMemory> {
        let mut cells = Vec::new(alloc);
        let holder = self.holders.temporary(body, address);
        for object in self.pointees.objects(holder) {
            if is_reachable(laid, body, *object) {
                self.push_object(*object, scalar, &mut cells)?;
            }
        }
        Ok(cells)
    }

    // The cells of a type in an object.
    fn push_object(
        &self,
        object: u32,
        scalar: Scalar,
        cells: &mut Vec<usize>,
    ) -> Result<(), NoMemory> {
        match self.groups.group_of(object, scalar) {
            None => Ok(()),
            Some(group) => push_all(cells, self.groups.cells(group)),
        }
    }
}
