//! What is wrong with pointers.
ghost use Rattle.std.specs.Prelude.{◌≡◌};
ghost use Rattle.program_notes.specs.Flaws.{flaw_text};

use alarm_contexts::Flaw;

/// What is wrong with a pointer.
pub fn flaw_text(flaw: Flaw) -> &'static [u8]
    ensures { result.now ≡ flaw_text flaw }
{
    match flaw {
        Flaw::Gone => b"gone",
        Flaw::Offset => b"offset",
        Flaw::Before => b"before",
        Flaw::Behind => b"behind",
    }
}
