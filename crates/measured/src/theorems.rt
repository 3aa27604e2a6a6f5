// The theorems of S-10: the functions are empty and promise the statements.
ghost use Rattle.measured.specs.Theorems.{Decisions, BitsAgree, Undamaged};

// Theorem 1: the decision is the nearest coordinate, and the larger where two are equally near.
pub fn decisions()
    ensures { Decisions }
{}

// Theorem 2: bits and point agree.
pub fn bits_agree()
    ensures { BitsAgree }
{}

// Theorem 3: undamaged cells decide to themselves, and undamaged FAC cells give their block.
pub fn undamaged()
    ensures { Undamaged }
{}
