//! Control panels and routing controls: which are kept, their names, and which controls are On.
//!
//! It stands on `arc_plain`, whose definitions its contracts cite, and `arc_batch` stands on it. It knows no safety rule
//! and no protocol.
//!
//! The law that it keeps: it is seen as the panels and controls of a plain state, and every call does what that state's
//! row says. After a refusal or want of memory nothing has changed.
//!
//! What the caller owes: fewer than 2^64 - 1 identifiers drawn of each kind, and for a control that is set, that it is
//! kept. Whether a safety rule names a control that is removed is for the caller to ask.
#![tactic(auto)]

mod panels;
mod tables;

pub use panels::Panels;
