// What crates of this language call: the checks of the tables of rules and sites, and work on rules that they have let pass. A `requires`
// here is asked by the prover of every caller, and no other language reaches these functions.
pub use crate::checking::{accept_match, accept_rules, accept_sites};
pub use crate::judging::Judgements;
pub use crate::matching::{match_left, start_bindings};
pub use crate::rule::{Rule, Rules};
pub use crate::site::Sites;
pub use crate::site_match::{early_verdict, match_judged};
pub use crate::table::{
    BINDINGS, Bindings, HEAD, MAX_LEFTS, MAX_RIGHTS, MAX_RULES, MAX_SITES, RULE_NUMBERS,
};
