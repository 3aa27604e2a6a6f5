// Theorem 2 of 02, S-12: the function is empty and promises the statement.
ghost use Rattle.listener.specs.Theorems.{PlanFollowed};

// Who follows an accepted plan from a reset is handed what was brought, and before each reset every frame that went before its closing.
#[tactic(auto, using(crate::proofs::Followed::plan_followed))]
pub fn plan_followed()
    ensures { PlanFollowed }
{}
