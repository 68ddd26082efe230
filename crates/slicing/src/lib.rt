// Slicing trees and what document 01 says of them. The crate has definitions and laws only.
#![tactic(auto)]
