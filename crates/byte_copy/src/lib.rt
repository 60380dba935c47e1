// Copies bytes over the front of a buffer. The C libraries are built of this copy: it calls no function of C's own library.
#![tactic(auto)]

ghost use Rattle.std.specs.Prelude.{◌≡◌};
ghost use Rattle.logic.specs.Written.{length_in, written_in};

// Copies `source` over the front of `out` and returns how many bytes it copies: all where they fit, and none where they do not. The 0 is a count and
// no sign, which an `Option` would be: an empty source fits, and 0 bytes of it are copied.
pub fn copy(source: &[u8], out: &mut [u8]) -> usize
    ensures { (result ≡ length_in out.old source.now) × (out.new ≡ written_in out.old source.now) }
{
    if source.len() > out.len() {
        return 0;
    }
    // A `copy_from_slice` is a call of C's `memmove`. Over `iter_mut` with `zip`, which was tried, the loop's invariant has no name for the buffer, and the
    // proof did not close.
    for (i, byte) in source.iter().enumerate() {
        out[i] = *byte;
    }
    source.len()
}
