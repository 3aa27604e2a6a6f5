// What is proved of dispersal from any bit, over the definitions that the contracts cite. 02, S-6.
ghost use Rattle.halves.specs.Theorems.{FromAnyBit};

pub fn from_any_bit()
    ensures { FromAnyBit }
{}
