//! What a layout needs.
ghost use Rattle.typed_file_laws.specs.Layouts.{AreLayable};

/// A typed file can be laid out, whatever order of its functions has each behind those that it calls.
pub fn typed_files_can_be_laid_out()
    ensures { AreLayable }
{}
