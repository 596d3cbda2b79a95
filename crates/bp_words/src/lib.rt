//! The word of a seat of the Rust pager, whose text is `word.rt`: who pins the frame's page, who reads it, who writes
//! it, whether threads wait for that, and whether the page's pass is out. And who of those that wait gets the latch
//! next, whose text is `waiters.rt`.
//!
//! A [`Frame`] is two words that threads share by reference: that word, and the page's number. A [`Visitor`] is a
//! thread that may add a share before it has looked: there are fewer than 2^18 of these for a frame, so no count goes
//! over into the next. It takes a share by one atomic step: a [`Pin`], a [`Reader`] or a [`Writer`]. None of these
//! waits, and what a blind share is it finds by the word that was there before. A share can be neither copied nor
//! dropped: only its `leave` takes it.
//!
//! One [`Keeper`] gives the frame to a page and takes it back, which it can do only while there is no share. One
//! [`Queue`] has those that wait for a latch, and lets them in. The word says whether there are any.
//!
//! [`latch_laws`] has what is so of any steps of threads that come, leave, wait and are let in: nobody is forgotten, and
//! nobody is skipped.
//!
//! `check/one_text` makes the pager's `word.rs` and `waiters.rs` of these two texts, by cutting off their clauses.
#![tactic(auto)]

mod frames;
pub mod latch_laws;
mod laws;
mod queues;
mod shares;
#[cfg(test)]
mod tests;
mod views;
mod waiters;
mod word;

pub use frames::{Frame, Keeper, Visitor};
pub use queues::Queue;
pub use shares::{Pin, Reader, Writer};
