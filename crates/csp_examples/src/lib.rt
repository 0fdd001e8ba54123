//! Worked examples of the definitions in `csp_model` and `csp_request`: what the standards say of single
//! headers, tokens, URLs and requests, and what descriptions in JSON stand for, computed by the definitions.
//! Each is a lemma in `proofs/`, and no crate stands on them.
#![tactic(auto)]
