// Units from and to Annex B.
#![tactic(auto)]

pub mod annexb;
