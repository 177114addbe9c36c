//! Worked calls: each public function that a builder calls does its work once, and each generic one at a concrete type.
#![tactic(auto)]

#[cfg(test)]
mod callers;
#[cfg(test)]
mod cells;
#[cfg(test)]
mod locks;
#[cfg(test)]
mod objects;
#[cfg(test)]
mod runs;
#[cfg(test)]
mod steps;
#[cfg(test)]
mod texts;
