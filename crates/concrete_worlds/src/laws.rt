//! Which layouts have worlds.
ghost use Rattle.concrete_worlds.specs.Laws.{LaidFilesHaveWorlds};

/// What is laid out of a file has worlds, where its functions stand in an order in which it can be laid out.
pub fn laid_files_have_worlds()
    ensures { LaidFilesHaveWorlds }
{}
