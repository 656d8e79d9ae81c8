//! The words of values.
ghost use Rattle.std.specs.Prelude.{◌≢◌, [], ◌∷◌, OnOk};
ghost use Rattle.strided_dom.specs.Progression.{empty};
ghost use Rattle.transfer_rows.specs.StateForms.{only_numbers};
ghost use Rattle.certificate_words.specs.Numbers.{progression_words};
ghost use Rattle.certificate_texts.specs.ValueWords.{bit_word, object_words, pointers_words, value_words};
ghost use Rattle.certificate_texts.specs.reading.Pages.{HasWords};

use crate::pages::Page;
use pointer_dom::{AbsValue, Offsets, Parts, PointerSet};
use strided_dom::Strided;
use tm_lattice::NoMemory;

impl Page {
    // The least and the greatest number of a set, and its stride.
    fn push_set(&mut self, set: &Strided) -> Result<(), NoMemory>
        requires { set.now ≢ empty }
        ensures { OnOk result (HasWords self.old self.new (progression_words set.now)) }
    {
        self.push_number(set.lo())?;
        self.push_number(set.hi())?;
        self.push_number(set.stride())
    }

    // A set of numbers.
    fn push_numbers(&mut self, numbers: &Strided) -> Result<(), NoMemory>
        ensures { OnOk result (HasWords self.old self.new (value_words (only_numbers numbers.now))) }
    {
        if numbers.is_empty() {
            return self.push_tag(b"e");
        }
        self.push_tag(b"i")?;
        self.push_set(numbers)
    }

    // 1 where it is so, else 0.
    fn push_bit(&mut self, bit: bool) -> Result<(), NoMemory>
        ensures { OnOk result (HasWords self.old self.new (bit_word bit ∷ [])) }
    {
        if bit {
            self.push_natural(1)
        } else {
            self.push_natural(0)
        }
    }

    // An object and the offsets in it.
    fn push_object(&mut self, object: u32, offsets: &Offsets) -> Result<(), NoMemory>
        requires { offsets.now.offsets ≢ empty }
        ensures { OnOk result (HasWords self.old self.new (object_words (object, offsets.now))) }
    {
        self.push_natural(u64::from(object))?;
        self.push_set(&offsets.set())
    }

    // A set of pointers.
    fn push_pointers(&mut self, pointers: &PointerSet) -> Result<(), NoMemory>
        ensures { OnOk result (HasWords self.old self.new (pointers_words pointers.now)) }
    {
        self.push_tag(b"p")?;
        self.push_bit(pointers.has_null())?;
        self.push_bit(pointers.has_invalid())?;
        for (object, offsets) in pointers.objects().entries() {
            self.push_object(*object, offsets)?;
        }
        Ok(())
    }

    /// Adds the words of a value.
    pub(crate) fn push_value(&mut self, value: &AbsValue) -> Result<(), NoMemory>
        ensures { OnOk result (HasWords self.old self.new (value_words value.now)) }
    {
        match value.parts() {
            Parts::Int(numbers) => self.push_numbers(numbers),
            Parts::Ptr(pointers) => self.push_pointers(pointers),
            Parts::Both(numbers, _) => self.push_numbers(numbers),
        }
    }
}
