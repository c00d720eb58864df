// The survey of a path text (document 02, W-202): one pass finds whether it is outside the grammar, or its lowest fault. Open brackets beyond a
// window of 2,048 levels are forgotten and read again when they are needed.
#![tactic(auto)]

mod facts;
mod look;
mod refill;
mod walk;
mod window;

pub use walk::survey_text;
