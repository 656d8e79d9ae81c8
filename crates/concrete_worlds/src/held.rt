//! Sets of mutexes.
ghost use Rattle.std.specs.Prelude.{⊤, ◌≡◌, ◌<◌, ◌^◌, []};
ghost use Rattle.std.specs.Int.RustNames.{bit_or};
ghost use Rattle.bitflags.specs.Sets.{without};
ghost use Rattle.concrete_worlds.specs.Held.{is_in};

use bitflags::{Flag, Flags};

/// A set of mutexes with numbers below 16.
#[derive(Clone, Copy, PartialEq, Eq)]
pub struct Held(u16);

impl Flags for Held {
    type Bits = u16;

    ghost exact = { ⊤ };

    ghost table = { [] };

    ghost set_of = { λ held. held.0 };

    fn flags<'a>() -> &'a [Flag<Held>] {
        &[]
    }

    fn bits(&self) -> u16 {
        self.0
    }

    fn from_bits_retain(bits: u16) -> Held {
        Held(bits)
    }
}

impl Held {
    /// No mutex.
    pub fn none() -> Held
        ensures { result.0 ≡ 0 }
    {
        Held(0)
    }

    /// Whether this mutex is held.
    pub fn has(self, mutex: u32) -> bool
        requires { mutex < 16 }
        ensures { result ≡ is_in self.0 mutex }
    {
        self.contains(Held(1 << mutex))
    }

    /// With this mutex.
    pub fn with(mut self, mutex: u32) -> Held
        requires { mutex < 16 }
        ensures { result.0 ≡ bit_or self.0 (2 ^ mutex) }
    {
        self.insert(Held(1 << mutex));
        self
    }

    /// Without this mutex.
    pub fn without(mut self, mutex: u32) -> Held
        requires { mutex < 16 }
        ensures { result.0 ≡ without 16 self.0 (2 ^ mutex) }
    {
        self.remove(Held(1 << mutex));
        self
    }
}
