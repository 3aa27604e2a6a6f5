// The theorem of 02, S-7, on files: the function is empty and promises the statement.
ghost use Rattle.holdfile.specs.Theorems.{HoldFiles};

// Each way undoes the other on every valid file.
pub fn hold_files()
    ensures { HoldFiles }
{}
