// Theorem 1 of 02, S-12: the function is empty and promises the statement.
ghost use Rattle.plan.specs.Theorems.{WeekPlan};

// An accepted plan covers every minute by exactly one rule, and the answer's place is that rule.
pub fn week_plan()
    ensures { WeekPlan }
{}
