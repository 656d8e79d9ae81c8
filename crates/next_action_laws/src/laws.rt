//! Laws of next actions.
ghost use Rattle.next_action_laws.specs.Laws.{BodiesAreRegular, ActionsAreProper, NeverMisfit};
ghost use Rattle.next_action_laws.specs.Laws.{PartsStand, ElementsStand};
ghost use Rattle.next_action_laws.specs.InitialValues.{InitialValuesFit};
ghost use Rattle.next_action_laws.specs.Worlds.{StartsHold, WorldsAreProper};

/// In the bodies of a typed file `break` and `continue` stand where they may, the cells that an initialiser gives have
/// the types of the object's cells, and the parameters of a function are the first objects of its body.
pub fn bodies_are_regular()
    ensures { BodiesAreRegular }
{}

/// After answers that fit, what a task does next is proper: loads and stores go to cells of their types, in objects of
/// static storage or the task's own, and stored values are of those types; what is cleared is the task's own; mutexes
/// are those of the file.
pub fn actions_are_proper()
    ensures { ActionsAreProper }
{}

/// After answers that fit, the next action is never a misfit.
pub fn never_misfit()
    ensures { NeverMisfit }
{}

/// Where a structure stands, the address of a part leads to the part, in the same object.
pub fn parts_stand()
    ensures { PartsStand }
{}

/// Where an array stands, the address of an element leads to the element, in the same object.
pub fn elements_stand()
    ensures { ElementsStand }
{}

/// Each cell that an initialiser gives to an object of static storage is one of the object's type, and its value is one
/// for it: a number of its range; null, or an address in an object that the file defines, at an offset of at most its
/// size.
pub fn initial_values_fit()
    ensures { InitialValuesFit }
{}

/// At the start each cell holds a value of its type, or is open.
pub fn starts_hold()
    ensures { StartsHold }
{}

/// In every world that is reached each cell holds a value of its type or is open, the answers so far fit, and what each
/// task does next is proper.
pub fn worlds_are_proper()
    ensures { WorldsAreProper }
{}
