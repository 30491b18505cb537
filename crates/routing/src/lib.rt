// Networks: places with marks, and bindings that forward orders under conditions.
//
// specs/ has the meaning: positions, steps and routes (Net, Routes) and rules on them (Rules).
#![tactic(auto)]

pub mod binding;
pub mod empty;
pub mod lent;
pub mod network;
pub mod refusal;
pub mod site;
