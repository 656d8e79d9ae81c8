//! Numbers of a program, which the types that hold them keep below 2^64.
ghost use Rattle.std.specs.Prelude.{◌<◌, ◌^◌, ℕ, length};
ghost use Rattle.post_recheck.specs.program_systems.Analysable.{IsAnalysable};
ghost use Rattle.post_recheck.specs.program_systems.ProgramFacts.{AreProgramFacts, program_with};
ghost use Rattle.certificate_texts.specs.Sizes.{HasSmallNumbers};
ghost use Rattle.certificate_texts.specs.reading.Smalls.{AreSmall, AreSmallLists, AreSmallObjects, AreSmallBodies};

use mutex_configs::{ConfiguredGraph, Program};
use post_recheck::ProgramFacts;
use tm_laid::LaidObject;

// A number of 32 bits is small.
fn is_small(_number: u32)
    ensures { _number < 2 ^ 64 }
{}

// Numbers of 32 bits are small.
fn are_small(_list: &[u32])
    ensures { AreSmall _list.now }
{}

// How many nodes a configured graph has is small.
fn nodes_are_small(configured: &ConfiguredGraph)
    ensures { length configured.now.nodes.keys < 2 ^ 64 }
{
    let _count = configured.nodes.len();
}

// The numbers in lists of numbers of 32 bits are small.
fn lists_are_small(lists: &[Vec<u32>])
    ensures { AreSmallLists lists.now (length lists.now) }
{
    for index in 0..lists.len() {
        are_small(&lists[index]);
    }
}

// The sizes of objects are small.
fn objects_are_small(objects: &[LaidObject])
    ensures { AreSmallObjects objects.now (length objects.now) }
{
    for object in 0..objects.len() {
        is_small(objects[object].cells);
    }
}

// The numbers of the nodes and of the live temporaries of each body are small.
fn bodies_are_small(program: &Program, facts: &ProgramFacts)
    requires analysable { IsAnalysable program.now }
    requires facts { AreProgramFacts program.now facts.now }
    ensures { AreSmallBodies program.now.configured.items facts.now.bodies (length facts.now.bodies) }
{
    for body in 0..facts.bodies().len() {
        nodes_are_small(&program.configured[body]);
        lists_are_small(facts.bodies()[body].live());
    }
}

/// The numbers that a certificate tells of a program are below 2^64. What the types of the program and of its facts say
/// of their parts is put together here; nothing is computed.
pub fn numbers_are_small(program: &Program, facts: &ProgramFacts)
    requires analysable { IsAnalysable program.now }
    requires facts { AreProgramFacts program.now facts.now }
    ensures { HasSmallNumbers (program_with program.now facts.now) }
{
    objects_are_small(&program.laid.objects);
    bodies_are_small(program, facts);
}
