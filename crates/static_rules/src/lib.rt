// The rules of the language, and the order of refusals.
#![tactic(auto)]

mod laws;
mod rules;

pub use laws::earlier_is_an_order;
pub use rules::{Refusal, Rule, earlier, rule_name, rule_text};
