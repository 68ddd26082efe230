// A face written out: its tree as entries, and as a file of version 2. The crate has definitions and laws only.
#![tactic(auto)]
