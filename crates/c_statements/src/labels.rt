//! The labels of a `switch`, with a look-up that does not go over them (C99 6.8.4.2).
ghost use Rattle.std.specs.Prelude.{◌≡◌, false, OnOk, IfSome, Some};
ghost use Rattle.tm_cint.specs.Conversions.{converted_value};
ghost use Rattle.tm_typed.specs.Refusals.{Gives};
ghost use Rattle.tm_typed.specs.StatementRules.{no_labels, is_labelled, with_label, label_rules, default_rules};

use c_type_names::refusal;
use indexmap::IndexSet;
use std::alloc::Global;
use std::marker::Model;
use tm_cint::{IntType, convert};
use tm_lattice::NoMemory;
use tm_terms::{Fail, Kind, Place};

/// The labels of a `switch` so far: their converted values, and whether a `default` is among them.
#[derive(Drop)]
pub(crate) struct Labels {
    values: IndexSet<i128>,
    has_default: bool,
}

impl Model for Labels {
    ghost use Rattle.tm_typed.specs.StatementRules.{Labels as PlainLabels};

    ghost Value = { PlainLabels };

    ghost view = { λ l. record { values = l.values.keys; has_default = l.has_default } };
}

impl Labels {
    /// No labels.
    pub(crate) fn new(alloc: Global) -> Labels
        ensures { result ≡ no_labels }
    {
        Labels {
            values: IndexSet::new(alloc),
            has_default: false,
        }
    }

    // Whether an earlier label has this value.
    fn is_labelled(&self, value: i128) -> bool
        ensures { result ≡ is_labelled self.now.values value }
    {
        self.values.contains(&value)
    }

    /// The label of `case e:`: folded, converted to the type in which the `switch` compares, and equal to no earlier
    /// one.
    pub(crate) fn label(
        &self,
        of: IntType,
        word: Place,
        place: Place,
        value: Option<i128>,
    ) -> Result<i128, Fail>
        ensures { Gives (λ z. z) result (label_rules of self.now.values word place value) }
    {
        match value {
            None => Err(refusal(Kind::NotConstant, place)),
            Some(value) => {
                let label = convert(value, of);
                if self.is_labelled(label) {
                    Err(refusal(Kind::Redeclared, word))
                } else {
                    Ok(label)
                }
            }
        }
    }

    /// One more label, which equals no earlier one.
    pub(crate) fn push(&mut self, label: i128) -> Result<(), NoMemory>
        requires { is_labelled self.old.values label ≡ false }
        ensures { OnOk result (self.new ≡ with_label self.old label) }
    {
        match self.values.insert(label) {
            Ok(_) => Ok(()),
            Err(_) => Err(NoMemory),
        }
    }

    /// A `switch` has one `default`.
    pub(crate) fn push_default(&mut self, word: Place) -> Result<(), Fail>
        ensures { Gives (λ u. self.new) result (default_rules self.old word) }
    {
        if self.has_default {
            return Err(refusal(Kind::Redeclared, word));
        }
        self.has_default = true;
        Ok(())
    }
}
