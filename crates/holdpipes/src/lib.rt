// Hold files over pipes: turned, begun from and stored. 02, S-7.
#![tactic(auto)]

pub mod files;
