// Working buffers, from a function of its own: proofs then take a buffer's length and do not write it out.
ghost use Rattle.lists.specs.Buffers.{Long};

// A working buffer, each element `value` at first.
pub fn buffer<T: Copy, const N: usize>(value: T) -> [T; N]
    ensures { Long N result }
{
    [value; N]
}
