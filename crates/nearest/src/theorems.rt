// The theorem of S-9: the function is empty and promises the statement.
ghost use Rattle.nearest.specs.Theorem.{NearestBlocks};

// 02, S-9.
pub fn nearest_blocks()
    ensures { NearestBlocks }
{}
