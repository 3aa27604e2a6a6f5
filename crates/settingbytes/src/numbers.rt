// Answers of the lengths and sizes as the numbers that a caller lends.
ghost use Rattle.std.specs.Prelude.{◌≡◌, length};
ghost use Rattle.refusal.specs.Numbers.{answer};
ghost use Rattle.settings.specs.Lengths.{lengths_yield};
ghost use Rattle.settings.specs.Sizes.{sizes_yield};
ghost use Rattle.settingbytes.specs.Numbers.{yielded, lengths_into, sizes_into};

use refusal::Refusal;
use settings::{Lengths, Sizes};

// Answers into the caller's numbers, which a refusal leaves as they were.
#[tactic(auto, using(crate::proofs::Stores::lengths_refused), unfolding(crate::specs::Numbers::lengths_into))]
pub fn put_lengths(lengths: Result<Lengths, Refusal>, numbers: &mut [u16]) -> Result<(), Refusal>
    requires { length numbers.old ≡ 5 }
    ensures { yielded (answer result) numbers.new ≡ lengths_into (lengths_yield lengths) numbers.old }
{
    let l = lengths?;
    numbers.copy_from_slice(&[l.n1, l.n2, l.l1, l.l2, l.vspp]);
    Ok(())
}

// Sizes into the caller's numbers, which a refusal leaves as they were.
// Stays: `put_lengths` writes other fields; one function for both would be handed them as an array, and save `copy_from_slice` alone.
#[tactic(auto, using(crate::proofs::Stores::sizes_refused), unfolding(crate::specs::Numbers::sizes_into))]
pub fn put_sizes(sizes: Result<Sizes, Refusal>, numbers: &mut [u32]) -> Result<(), Refusal>
    requires { length numbers.old ≡ 6 }
    ensures { yielded (answer result) numbers.new ≡ sizes_into (sizes_yield sizes) numbers.old }
{
    let z = sizes?;
    let all = [
        z.sdcbytes,
        z.mscbytes,
        z.facnumbers,
        z.sdcnumbers,
        z.mscnumbers,
        z.memory,
    ];
    numbers.copy_from_slice(&all);
    Ok(())
}
