// The next piece of a list of bytes.
ghost use Rattle.std.specs.Prelude.{◌≡◌, ◌+◌, ◌≤◌, ◌++◌, length, take, drop, min};

/// Copies the bytes from `at` on to the front of `into`: at most `most` and as many as there are and have room.
/// Says how many.
pub fn copy_piece(bytes: &[u8], at: usize, most: usize, into: &mut [u8]) -> usize
    requires { at ≤ length bytes.now }
    ensures count { result ≡ min (min most (length (drop at bytes.now))) (length into.old) }
    ensures copied { into.new ≡ take result (drop at bytes.now) ++ drop result into.old }
    ensures split { drop at bytes.now ≡ take result into.new ++ drop (at + result) bytes.now }
{
    let rest = &bytes[at..];
    let n = most.min(rest.len()).min(into.len());
    into[..n].copy_from_slice(&rest[..n]);
    n
}
