//! Queries as plans, and the values that plans select of a value (RFC 9535, sections 2.3 and 2.5).
//!
//! What a query selects is defined in `specs/Evaluating`, when it is refused in `specs/TooMany`. In the plan of a query
//! over a document each absolute query of a filter is replaced by what was found of it, once, and each singular query by
//! the steps that it takes (`specs/Planned`; the crate `path_tables` makes plans). `passing` evaluates plans by values
//! alone, with no root and no locations: what choices take of a value, which values pass a test, and what a side of a
//! comparison is.
#![tactic(auto)]

pub mod passing;
pub mod plan;
