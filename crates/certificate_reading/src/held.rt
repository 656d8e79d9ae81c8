//! A text of which is let go, from the front, what has been read.
ghost use Rattle.std.specs.Prelude.{◌≡◌, ◌+◌, ◌-◌, ◌≤◌, ◌<◌, drop, length, take};

use std::marker::Model;

/// What is left of a text: contracts see these bytes. Once some were let go of, those that still stand before the ones
/// that are left are at most an eighth of what is held.
#[derive(Drop)]
pub(crate) struct Held {
    bytes: Vec<u8>,
    // How many bytes stand before those that are left.
    before: usize,
}

impl Model for Held {
    ghost use Rattle.std.specs.Prelude.{ℕ, List, ◌≤◌, drop, length};

    ghost Value = { List ℕ };

    ghost view = { λ h. drop h.before h.bytes.items };

    ghost invariant = { λ h. h.before ≤ length h.bytes.items };
}

/// Moves the bytes from a place on to the front.
fn move_down(bytes: &mut [u8], from: usize)
    requires some { 0 < from }
    requires within { from ≤ length bytes.old }
    ensures { take (length bytes.old - from) bytes.new ≡ drop from bytes.old }
{
    let count = bytes.len() - from;
    let mut moved = 0;
    while moved < count {
        let (front, back) = bytes.split_at_mut(moved + from);
        let more = from.min(count - moved);
        front[moved..moved + more].copy_from_slice(&back[..more]);
        moved += more;
    }
}

impl Held {
    /// The bytes from a place on.
    pub(crate) fn new(bytes: Vec<u8>, before: usize) -> Held
        requires { before ≤ length bytes.items }
        ensures { result ≡ drop before bytes.items }
    {
        Held { bytes, before }
    }

    /// The bytes that are left.
    pub(crate) fn rest(&self) -> &[u8]
        ensures { result.now ≡ self.now }
    {
        &self.bytes[self.before..]
    }

    /// Gives back the memory of what stands before the bytes that are left, where it is more than an eighth of what is
    /// held: so a text of many tables is not moved for each of them.
    fn close_up(&mut self)
        ensures { self.new ≡ self.old }
    {
        let held = self.bytes.len();
        if self.before <= held / 8 {
            return;
        }
        move_down(&mut self.bytes, self.before);
        self.bytes.truncate(held - self.before);
        self.bytes.shrink_to_fit();
        self.before = 0;
    }

    /// Lets go of all but the last bytes, so many of them.
    pub(crate) fn keep(&mut self, left: usize)
        requires { left ≤ length self.old }
        ensures { self.new ≡ drop (length self.old - left) self.old }
    {
        self.before = self.bytes.len() - left;
        self.close_up();
    }
}
