// The unit squares of a face, and which of them its gauges cover. The crate has definitions and laws only.
#![tactic(auto)]
