//! A session of two threads: a script is done on a driver while a device serves it.
#![tactic(auto)]

mod acting;
mod answer;
mod attempting;
mod beside;
mod closing;
mod ending;
mod opening;
mod page_numbers;
mod pump;
mod race_end;
mod raced;
mod racing;
mod running;
mod stopping;
mod telling;
mod threads;
mod waiter;

pub use beside::Beside;
pub use pump::Pump;
pub use race_end::{NoRace, RaceEnd};
pub use raced::{Raced, Refusal};
pub use racing::race_script;
pub use threads::race;
pub use waiter::Waiter;

#[cfg(test)]
mod race_tests;
#[cfg(test)]
mod tests;
