//! The program of a source.
ghost use Rattle.std.specs.Prelude.{◌≡◌, ◌≤◌, ◌^◌, length, Ok, IfOk};
ghost use Rattle.tm_terms.specs.declared.refusals.Fail.TheVariants as Fails;
ghost use Rattle.tm_trees.specs.FileTrees.{file_tree};
ghost use Rattle.tm_trees.specs.Parsing.{Parses};
ghost use Rattle.tm_laid.specs.declared.scales.Scale.TheVariants as Scales;
ghost use Rattle.tm_laid.specs.Layouts.{laid_tree};
ghost use Rattle.program_graphs.specs.lowering_laws.LaidFiles.{IsLaidFile};
ghost use Rattle.program_graphs.specs.Prepared.{answer_of, IsPrepared};
ghost use Rattle.thresholds.specs.Thresholds.{numbers_of, AreThresholds};
ghost use Rattle.program_laws.specs.program_equations.Programs.{ProgramBodies, IsProgramOf};
ghost use Rattle.program_laws.specs.program_systems.Analysable.{IsAnalysable};
ghost use Rattle.source_programs.specs.LaidSources.{longest_on, LexesOn, IsLaidSourceOn, IsLaidSource};
ghost use Rattle.source_programs.specs.Sources.{IsAcceptedOn, IsAccepted, source_limit, IsRefusedOn, IsRefused};
ghost use Rattle.source_programs.specs.Sources.{IfRefused};

use crate::mains::main_in;
use c_lexer::lex;
use c_parser::parse;
use c_typing::typed;
use cell_layout::lay;
use mutex_configs::Program;
use program_graphs::program;
use std::alloc::Global;
use thresholds::marks;
use tm_laid::{Laid, Scale};
use tm_lattice::NoMemory;
use tm_terms::{Fail, Kind, Limit, Place, Refusal, Token};
use tm_trees::File;

// The refusal of a source that is too long.
fn too_long() -> Fail
    ensures { result ≡ Fails.Refused source_limit }
{
    Fail::Refused(Refusal {
        kind: Kind::Limit,
        place: Place { line: 0, col: 0 },
        limit: Some(Limit::Source),
    })
}

// The program of a layout on a scale, with the thresholds of its text and those of the given numbers.
fn laid_program(alloc: Global, scale: Scale, laid: Laid, given: &[u32]) -> Result<Program, Fail>
    requires { IsLaidFile (laid_tree laid) }
    ensures prepared { IsPrepared scale (laid_tree laid) (answer_of result) }
    ensures laid { IfOk result (λ p. laid_tree p.laid ≡ laid_tree laid) }
    ensures order { IfOk result (λ p. p.laid.file.order.items ≡ laid.file.order.items) }
    ensures marks { IfOk result (λ p. AreThresholds
        (numbers_of laid.file.lengths.items laid.file.constants.items laid.file.labels.items given.now) p.marks) }
{
    let thresholds = marks(
        alloc,
        &laid.file.lengths,
        &laid.file.constants,
        &laid.file.labels,
        given,
    );
    match thresholds {
        Ok(thresholds) => program(alloc, scale, laid, thresholds),
        Err(NoMemory) => Err(Fail::NoMemory),
    }
}

// The program of a file that a source spells.
fn typed_program(
    alloc: Global,
    scale: Scale,
    bytes: &[u8],
    tokens: &[Token],
    file: &File,
    given: &[u32],
) -> Result<Program, Fail>
    requires short { length bytes.now ≤ longest_on scale }
    requires lexed { LexesOn scale bytes.now (Ok tokens.now) }
    requires parsed { Parses tokens.now (Ok (file_tree file.now)) }
    ensures accepted { IfOk result (λ program. (p : ProgramBodies) →
        IsProgramOf (laid_tree program.laid) program.graphs.graphs.items program.configured.items program.marks p →
        IsAcceptedOn scale given.now bytes.now p) }
    ensures analysable { IfOk result IsAnalysable }
    ensures numbered { IfOk result (λ program. length program.laid.objects.items ≤ 2 ^ 32) }
    ensures source { IfOk result (λ program. IsLaidSourceOn scale bytes.now (laid_tree program.laid)) }
    ensures prepared { IfOk result (λ program. IsPrepared scale (laid_tree program.laid) (answer_of (Ok program))) }
    ensures refused { IfRefused result (IsRefusedOn scale bytes.now) }
{
    match typed(alloc, file, main_in(bytes, tokens)) {
        Ok(typed) => match lay(alloc, scale, typed) {
            Ok(laid) => laid_program(alloc, scale, laid, given),
            Err(fail) => Err(fail),
        },
        Err(fail) => Err(fail),
    }
}

// The program of the tokens of a source.
fn parsed_program(
    alloc: Global,
    scale: Scale,
    bytes: &[u8],
    tokens: &[Token],
    given: &[u32],
) -> Result<Program, Fail>
    requires short { length bytes.now ≤ longest_on scale }
    requires lexed { LexesOn scale bytes.now (Ok tokens.now) }
    ensures accepted { IfOk result (λ program. (p : ProgramBodies) →
        IsProgramOf (laid_tree program.laid) program.graphs.graphs.items program.configured.items program.marks p →
        IsAcceptedOn scale given.now bytes.now p) }
    ensures analysable { IfOk result IsAnalysable }
    ensures numbered { IfOk result (λ program. length program.laid.objects.items ≤ 2 ^ 32) }
    ensures source { IfOk result (λ program. IsLaidSourceOn scale bytes.now (laid_tree program.laid)) }
    ensures prepared { IfOk result (λ program. IsPrepared scale (laid_tree program.laid) (answer_of (Ok program))) }
    ensures refused { IfRefused result (IsRefusedOn scale bytes.now) }
{
    match parse(alloc, tokens) {
        Ok(file) => typed_program(alloc, scale, bytes, tokens, &file, given),
        Err(fail) => Err(fail),
    }
}

// The program of a source that is not too long.
fn lexed_program(alloc: Global, scale: Scale, bytes: &[u8], given: &[u32]) -> Result<Program, Fail>
    requires { length bytes.now ≤ longest_on scale }
    ensures accepted { IfOk result (λ program. (p : ProgramBodies) →
        IsProgramOf (laid_tree program.laid) program.graphs.graphs.items program.configured.items program.marks p →
        IsAcceptedOn scale given.now bytes.now p) }
    ensures analysable { IfOk result IsAnalysable }
    ensures numbered { IfOk result (λ program. length program.laid.objects.items ≤ 2 ^ 32) }
    ensures source { IfOk result (λ program. IsLaidSourceOn scale bytes.now (laid_tree program.laid)) }
    ensures prepared { IfOk result (λ program. IsPrepared scale (laid_tree program.laid) (answer_of (Ok program))) }
    ensures refused { IfRefused result (IsRefusedOn scale bytes.now) }
{
    match lex(alloc, bytes, scale.number(Limit::Tokens) as usize) {
        Ok(tokens) => parsed_program(alloc, scale, bytes, &tokens, given),
        Err(fail) => Err(fail),
    }
}

/// The program of a source on a scale, which can be analysed; or the first reason to refuse it: that it is too long, or
/// else what the lexis, the grammar, typing, the layout or the graphs of its bodies refuse. Its thresholds are those of
/// its text, and each given number with its opposite.
pub fn source_program_on(
    alloc: Global,
    scale: Scale,
    bytes: &[u8],
    given: &[u32],
) -> Result<Program, Fail>
    // Whatever program of the equations is read of this one, it is that of the source with the given numbers.
    ensures accepted { IfOk result (λ program. (p : ProgramBodies) →
        IsProgramOf (laid_tree program.laid) program.graphs.graphs.items program.configured.items program.marks p →
        IsAcceptedOn scale given.now bytes.now p) }

    // The equations of the program can be solved.
    ensures analysable { IfOk result IsAnalysable }

    // Numbers of 32 bits are enough for its objects.
    ensures numbered { IfOk result (λ program. length program.laid.objects.items ≤ 2 ^ 32) }

    // The layout is that of the source, and it has these graphs and configured graphs.
    ensures source { IfOk result (λ program. IsLaidSourceOn scale bytes.now (laid_tree program.laid)) }
    ensures prepared { IfOk result (λ program. IsPrepared scale (laid_tree program.laid) (answer_of (Ok program))) }

    // Every refusal is one of the source. Beside these answers comes only want of memory.
    ensures refused { IfRefused result (IsRefusedOn scale bytes.now) }
{
    if bytes.len() > scale.number(Limit::Source) as usize {
        Err(too_long())
    } else {
        lexed_program(alloc, scale, bytes, given)
    }
}

/// The program of a source within the limits of the commands, which can be analysed; or the first reason to refuse it:
/// that it is too long, or else what the lexis, the grammar, typing, the layout or the graphs of its bodies refuse. Its
/// thresholds are those of its text, and each given number with its opposite.
pub fn source_program(alloc: Global, bytes: &[u8], given: &[u32]) -> Result<Program, Fail>
    // Whatever program of the equations is read of this one, it is that of the source with the given numbers.
    ensures accepted { IfOk result (λ program. (p : ProgramBodies) →
        IsProgramOf (laid_tree program.laid) program.graphs.graphs.items program.configured.items program.marks p →
        IsAccepted given.now bytes.now p) }

    // The equations of the program can be solved.
    ensures analysable { IfOk result IsAnalysable }

    // Numbers of 32 bits are enough for its objects.
    ensures numbered { IfOk result (λ program. length program.laid.objects.items ≤ 2 ^ 32) }

    // The layout is that of the source, and it has these graphs and configured graphs.
    ensures source { IfOk result (λ program. IsLaidSource bytes.now (laid_tree program.laid)) }
    ensures prepared { IfOk result (λ program.
        IsPrepared Scales.Usual (laid_tree program.laid) (answer_of (Ok program))) }

    // Every refusal is one of the source. Beside these answers comes only want of memory.
    ensures refused { IfRefused result (IsRefused bytes.now) }
{
    source_program_on(alloc, Scale::Usual, bytes, given)
}
