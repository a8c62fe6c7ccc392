//! Only tests: the state that pages have, by a store of two tables that was written by hand, whole and with one fault each.
#![tactic(auto)]

#[cfg(test)]
mod faults;
#[cfg(test)]
mod found;
#[cfg(test)]
mod stores;
#[cfg(test)]
mod tests;
#[cfg(test)]
mod written;
