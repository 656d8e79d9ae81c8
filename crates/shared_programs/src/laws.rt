//! What crosses threads.
ghost use denote.Param.Send.{IsSend, IsSync};
ghost use Rattle.program_systems.specs.tm_typed.contracts.files.TypedFile as AFile;
ghost use Rattle.program_systems.specs.mutex_configs.contracts.programs.Program as AProgram;
ghost use Rattle.program_systems.specs.interfere_set.contracts.stores.Store as AStore;
ghost use Rattle.program_systems.specs.contracts.facts.ProgramFacts as AllFacts;

/// Typed files may be sent to other threads, and be shared by them.
pub fn files_cross_threads()
    ensures sent { IsSend AFile.the_row }
    ensures shared { IsSync AFile.the_row }
{}

/// Programs may be sent to other threads, and be shared by them.
pub fn programs_cross_threads()
    ensures sent { IsSend AProgram.the_row }
    ensures shared { IsSync AProgram.the_row }
{}

/// Stores may be sent to other threads, and be shared by them.
pub fn stores_cross_threads()
    ensures sent { IsSend AStore.the_row }
    ensures shared { IsSync AStore.the_row }
{}

/// What is computed once of a program may be sent to other threads, and be shared by them.
pub fn facts_cross_threads()
    ensures sent { IsSend AllFacts.the_row }
    ensures shared { IsSync AllFacts.the_row }
{}
