//! Tables and a store, from the bytes behind the source of a certificate.
ghost use Rattle.std.specs.Prelude.{◌≡◌, ◌<◌, ◌≤◌, ◌^◌, drop, length, IfOk, MatchOption};
ghost use Rattle.tm_laid.specs.Layouts.{laid_tree};
ghost use Rattle.post_recheck.specs.Pairs.{Pair as APair, FitsPair, pair_of};
ghost use Rattle.post_recheck.specs.program_systems.Analysable.{IsAnalysable};
ghost use Rattle.post_recheck.specs.program_systems.ProgramFacts.{AreProgramFacts, program_with};
ghost use Rattle.certificate_words.specs.Words.{lines_text};
ghost use Rattle.certificate_texts.specs.Certificates.{pair_lines};
ghost use Rattle.certificate_reading.specs.Values.{AreSizes};
ghost use Rattle.certificate_reading.specs.Stores.{IsLastStore};

use crate::held::Held;
use crate::stores::store_in;
use crate::tables::tables_in;
use certificate_parts::Ahead;
use certificate_texts::numbers_are_small;
use interfere_set::Store;
use mutex_configs::Program;
use post_recheck::{ProgramFacts, Table};
use std::alloc::Global;
use tm_laid::Laid;
use tm_lattice::NoMemory;

/// Tables of a program, those of its tasks by their numbers, then that of the initial section, where there is one; and
/// a store.
#[derive(Drop)]
pub struct Pair {
    pub tables: Vec<Table>,
    pub store: Store,
}

/// Of each object the number of its cells.
fn sizes_of(alloc: Global, laid: &Laid) -> Result<Vec<u32>, NoMemory>
    ensures { IfOk result (λ v. AreSizes (laid_tree laid.now) v.items) }
{
    let mut sizes = Vec::new(alloc);
    for object in &laid.objects {
        sizes.push(object.cells)?;
    }
    Ok(sizes)
}

/// Reads a store, and the end behind it.
fn store_at_end(
    alloc: Global,
    ahead: &mut Ahead,
    laid: &Laid,
    sizes: &[u32],
) -> Result<Option<Store>, NoMemory>
    requires sizes { AreSizes (laid_tree laid.now) sizes.now }
    requires few { length sizes.now ≤ 2 ^ 32 }
    requires tasks { length laid.now.file.tasks.items < 2 ^ 32 }
    requires cells { length laid.now.abstract_cells.items ≤ 65536 }
    ensures { IfOk result (IsLastStore (laid_tree laid.now) ahead.old) }
{
    let found = store_in(alloc, ahead, laid, sizes)?;
    let taken = ahead.take(b"end", &[])?;
    if !taken {
        return Ok(None);
    }
    if ahead.is_at_end() {
        Ok(found)
    } else {
        Ok(None)
    }
}

/// The tables and the store of a program that the bytes behind the source of a certificate tell, those from a place on:
/// none exactly where they are the lines of no tables and store that fit it. Each line is looked at once, and the bytes
/// are let go of table by table.
pub fn read(
    alloc: Global,
    bytes: Vec<u8>,
    start: usize,
    program: &Program,
    facts: &ProgramFacts,
) -> Result<Option<Pair>, NoMemory>
    requires analysable { IsAnalysable program.now }
    requires facts { AreProgramFacts program.now facts.now }
    requires few { length program.now.laid.objects.items ≤ 2 ^ 32 }
    requires start { start ≤ length bytes.items }
    ensures { IfOk result (λ found. let p = program_with program.now facts.now in MatchOption found
        ((pair : APair) → FitsPair p pair → drop start bytes.items ≡ lines_text (pair_lines pair) → ⊥)
        (λ pair. FitsPair p (pair_of pair.tables.items pair.store)
        × (drop start bytes.items ≡ lines_text (pair_lines (pair_of pair.tables.items pair.store))))) }
{
    numbers_are_small(program, facts);
    let sizes = sizes_of(alloc, &program.laid)?;
    let mut text = Held::new(bytes, start);
    let found = tables_in(alloc, &mut text, program, facts, &sizes)?;
    match found {
        None => Ok(None),
        Some(tables) => {
            let mut ahead = Ahead::new(alloc, text.rest())?;
            let last = store_at_end(alloc, &mut ahead, &program.laid, &sizes)?;
            match last {
                None => Ok(None),
                Some(store) => Ok(Some(Pair { tables, store })),
            }
        }
    }
}
