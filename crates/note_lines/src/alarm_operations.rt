//! The texts of all alarms.
ghost use Rattle.std.specs.Prelude.{◌≡◌, IfOk};
ghost use Rattle.post_recheck.specs.program_systems.Analysable.{IsAnalysable};
ghost use Rattle.post_recheck.specs.program_systems.ProgramFacts.{AreProgramFacts, program_with};
ghost use Rattle.program_notes.specs.Operations.{operation_of};
ghost use Rattle.note_lines.specs.AlarmTexts.{alarms_text};

use crate::alarm_lines::{count_line, push_alarm};
use crate::names::Names;
use alarm_contexts::AlarmContexts;
use mutex_configs::Program;
use post_recheck::ProgramFacts;
use program_notes::operation_of;
use std::alloc::Global;
use tm_lattice::NoMemory;
use tm_terms::push_bytes;

/// The texts of alarms, and then their number.
pub fn alarms_text(
    alloc: Global,
    bytes: &[u8],
    names: &Names,
    program: &Program,
    facts: &ProgramFacts,
    alarms: &[AlarmContexts],
) -> Result<Vec<u8>, NoMemory>
    requires analysable { IsAnalysable program.now }
    requires facts { AreProgramFacts program.now facts.now }
    ensures { IfOk result (λ text. text.items ≡ alarms_text bytes.now names.now.objects.items names.now.tasks.items
        names.now.priorities.items names.now.mutexes.items (operation_of (program_with program.now facts.now))
        alarms.now) }
{
    let mut text = Vec::new(alloc);
    for alarm in alarms {
        let operation = operation_of(program, facts, alarm);
        push_alarm(alloc, &mut text, bytes, names, alarm, operation)?;
    }
    let count = count_line(alloc, alarms.len())?;
    push_bytes(&mut text, count.as_bytes())?;
    Ok(text)
}
