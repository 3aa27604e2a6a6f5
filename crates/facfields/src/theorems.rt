// The theorems of 02, S-1: the function is empty and promises the statement.
ghost use Rattle.facfields.specs.Theorems.{FacFields};

// Built blocks read back, blocks that read are rebuilt, and one wrong bit is seen.
pub fn fac_fields()
    ensures { FacFields }
{}
