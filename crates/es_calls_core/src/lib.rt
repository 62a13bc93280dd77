//! Each public call of the machine, of the book of points in time and of the core, called with stated answers. A history is a
//! text, a line for each event with the reply that it has to have, and is played on the machine and on the core.
#![tactic(auto)]

#[cfg(test)]
mod contexts;
#[cfg(test)]
mod events;
#[cfg(test)]
mod histories;
#[cfg(test)]
mod lent;
#[cfg(test)]
mod parts;
#[cfg(test)]
mod plans;
#[cfg(test)]
mod replies;
