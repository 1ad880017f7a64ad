// Bytes at the end of a buffer whose memory was taken before, and at the front of a slice.
ghost use Rattle.std.specs.Prelude.{◌≡◌, ◌+◌, ◌≤◌, ◌++◌, drop, length, vec_len};
ghost use Rattle.std.specs.Vec.{vec_capacity};

/// Puts the bytes at the end. There is room, so this takes no memory.
pub fn append(buffer: &mut Vec<u8>, bytes: &[u8])
    requires { vec_len buffer.old + length bytes.now ≤ vec_capacity buffer.old }
    ensures items { buffer.new.items ≡ buffer.old.items ++ bytes.now }
    ensures capacity { vec_capacity buffer.old ≤ vec_capacity buffer.new }
{
    match buffer.extend_from_slice(bytes) {
        Ok(()) => {}
        Err(_) => unreachable!(),
    }
}

/// Puts the bytes at the front of a slice; what stands behind them stays.
pub fn copy_front(into: &mut [u8], bytes: &[u8])
    requires { length bytes.now ≤ length into.old }
    ensures { into.new ≡ bytes.now ++ drop (length bytes.now) into.old }
{
    into[..bytes.len()].copy_from_slice(bytes);
}
