// The receiver of confirmed messages: one transaction or none, its events and its responses. Its state is a struct by value; the
// message store is lent.
#![tactic(auto)]

pub mod event;
