//! A gate at which two workers meet, for tests.
//!
//! Layer: ground. [`Meeting`] holds the first two items of each phase until both have come, so that one worker alone is
//! seen: it waits in vain. No contract speaks of that, since none speaks of what an atomic cell holds.
#![tactic(auto)]

mod meeting;

pub use meeting::Meeting;
