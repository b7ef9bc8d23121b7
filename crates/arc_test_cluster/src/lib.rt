//! The tests of `arc_shift`, `arc_practice` and `arc_state` that no story can replace.
//!
//! They stand apart from those crates, so that each of those libraries is proved once, and not again with its tests. They
//! reach them by their public functions alone: `parts` those of shifts and runs, `reads` that of the
//! state. Whatever a list of commands makes is told by the stories of `arc_stories`. It exports nothing, and no promise
//! rests on it.
#![tactic(auto)]

#[cfg(test)]
mod parts;
#[cfg(test)]
mod reads;
