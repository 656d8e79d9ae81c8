//! The lines of states.
ghost use Rattle.std.specs.Prelude.{[], ◌∷◌, OnOk};
ghost use Rattle.std.specs.FinMap.{entries};
ghost use Rattle.std.specs.List.{flat_map};
ghost use Rattle.certificate_texts.specs.StateLines.{copy_lines, paired, state_lines, temp_lines};
ghost use Rattle.certificate_texts.specs.reading.Pages.{HasLines};

use crate::kept::Kept;
use crate::pages::Page;
use cell_env::{State, TempState};
use pointer_dom::AbsValue;
use tm_lattice::NoMemory;

impl Page {
    // The value of a temporary.
    fn push_temp(&mut self, temp: u32, entry: &TempState<AbsValue>) -> Result<(), NoMemory>
        ensures { OnOk result (HasLines self.old self.new (temp_lines (temp, entry.now))) }
    {
        self.begin(b"t")?;
        self.push_natural(u64::from(temp))?;
        self.push_value(&entry.value)?;
        self.end()
    }

    // The cell of which a temporary is a copy, if there is one.
    fn push_copy(&mut self, temp: u32, entry: &TempState<AbsValue>) -> Result<(), NoMemory>
        ensures { OnOk result (HasLines self.old self.new (copy_lines (temp, entry.now))) }
    {
        match entry.copy {
            None => Ok(()),
            Some(cell) => self.push_pair(b"k", temp, cell),
        }
    }

    /// Writes the line of a tag and two numbers.
    pub(crate) fn push_pair(
        &mut self,
        letters: &'static [u8],
        one: u32,
        other: u32,
    ) -> Result<(), NoMemory>
        ensures { OnOk result (HasLines self.old self.new (paired letters.now one other ∷ [])) }
    {
        self.begin(letters)?;
        self.push_natural(u64::from(one))?;
        self.push_natural(u64::from(other))?;
        self.end()
    }

    /// Writes the lines of a state.
    pub(crate) fn push_state(
        &mut self,
        kept: &mut Kept,
        state: &State<AbsValue>,
    ) -> Result<(), NoMemory>
        ensures { OnOk result (HasLines self.old self.new (state_lines state.now)) }
    {
        self.push_temps(state)?;
        self.push_cells_again(kept, state.cells())?;
        self.push_copies(state)
    }

    // The values of all temporaries.
    fn push_temps(&mut self, state: &State<AbsValue>) -> Result<(), NoMemory>
        ensures { OnOk result (HasLines self.old self.new (flat_map temp_lines (entries state.now.temps))) }
    {
        for (temp, entry) in state.temps().entries() {
            self.push_temp(*temp, entry)?;
        }
        Ok(())
    }

    // The cells of which temporaries are copies.
    fn push_copies(&mut self, state: &State<AbsValue>) -> Result<(), NoMemory>
        ensures { OnOk result (HasLines self.old self.new (flat_map copy_lines (entries state.now.temps))) }
    {
        for (temp, entry) in state.temps().entries() {
            self.push_copy(*temp, entry)?;
        }
        Ok(())
    }
}
