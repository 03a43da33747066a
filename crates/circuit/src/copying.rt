// Numbers copied from one buffer to another.
ghost use Rattle.std.specs.Prelude.{◌≡◌, ◌≤◌, length};
ghost use Rattle.lines.specs.Calls.{over};

// Where it is called this compiles to `memcpy`. In trimming it was `memmove`, for which the archive for C is not to ask (`copy_front`).
pub fn copy_over(from: &[u32], to: &mut [u32])
    requires { length from.now ≤ length to.old }
    ensures { to.new ≡ over from.now to.old }
{
    to[..from.len()].copy_from_slice(from);
}
