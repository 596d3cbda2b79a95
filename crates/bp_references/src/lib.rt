//! The definitions of LRU-K over the references of pages, in `specs/`, and their laws. No code stands here: the
//! contracts of other crates compare their code with these.
#![tactic(auto)]

pub mod laws;
