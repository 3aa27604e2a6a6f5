// The numbers s and q, by which places are stepped along. 01 "Bit interleaving"; 001 clause 7.3.3.
ghost use Rattle.std.specs.Prelude.{◌≡◌, ◌-◌, ◌/◌, ◌≤◌};
ghost use Rattle.interleaver.specs.Interleaving.{size};
ghost use Rattle.interleaver.specs.Deinterleaving.{Sizes};

// Stays: by leading zeros, as 01 has it, in place of `next_power_of_two` (docs/PROMISES.md, its sentence on parities and s).
// s, the smallest power of two not below n: n - 1 has as many digits as s has zeros.
pub fn size_of(n: usize) -> usize
    requires { Sizes n }
    ensures { result ≡ size n }
{
    1usize << (32 - ((n - 1) as u32).leading_zeros())
}

// q, of s.
pub fn offset_of(s: usize) -> usize
    requires { 4 ≤ s }
    ensures { result ≡ s / 4 - 1 }
{
    s / 4 - 1
}
