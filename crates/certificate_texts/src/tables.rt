//! The lines of tables.
ghost use Rattle.std.specs.Prelude.{OnOk};
ghost use Rattle.std.specs.List.{enumerate_from, flat_map};
ghost use Rattle.post_recheck.specs.Pairs.{lists_of};
ghost use Rattle.certificate_texts.specs.TableLines.{node_lines, table_lines};
ghost use Rattle.certificate_texts.specs.reading.Pages.{HasLines};

use crate::kept::Kept;
use crate::pages::Page;
use post_recheck::{BodyState, Table};
use tm_lattice::NoMemory;

impl Page {
    // The lines of a node, if it has a state. Where the text is too long already, the state is not looked at.
    fn push_node(
        &mut self,
        kept: &mut Kept,
        node: usize,
        at: &Option<BodyState>,
    ) -> Result<(), NoMemory>
        ensures { OnOk result (HasLines self.old self.new (node_lines (node, at.now))) }
    {
        match at {
            None => Ok(()),
            Some(state) => {
                if self.is_full() {
                    return Ok(());
                }
                self.push_numbered(b"node", node as u64)?;
                self.push_state(kept, state.state())
            }
        }
    }

    // The lines of a table.
    fn push_table(
        &mut self,
        kept: &mut Kept,
        body: usize,
        table: &[Option<BodyState>],
    ) -> Result<(), NoMemory>
        ensures { OnOk result (HasLines self.old self.new (table_lines (body, table.now))) }
    {
        self.push_numbered(b"task", body as u64)?;
        self.push_nodes(kept, table)
    }

    // The lines of all nodes.
    fn push_nodes(&mut self, kept: &mut Kept, table: &[Option<BodyState>]) -> Result<(), NoMemory>
        ensures { OnOk result (HasLines self.old self.new (flat_map node_lines (enumerate_from 0 table.now))) }
    {
        for node in 0..table.len() {
            self.push_node(kept, node, &table[node])?;
        }
        Ok(())
    }

    /// Writes the lines of tables.
    pub(crate) fn push_tables(&mut self, tables: &[Table]) -> Result<(), NoMemory>
        ensures { OnOk result (HasLines self.old self.new
            (flat_map table_lines (enumerate_from 0 (lists_of tables.now)))) }
    {
        let mut kept = Kept::new(*self.text.allocator());
        for body in 0..tables.len() {
            self.push_table(&mut kept, body, &tables[body])?;
        }
        Ok(())
    }
}
