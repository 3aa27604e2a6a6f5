// The frames that a call's rows finish, laid one behind the other as they were sent.
#![tactic(auto)]

pub mod finished;
