//! Tests of the core: worked steps, with what is told of each, a crash between each two device calls of one, and random
//! lists of steps against a second, naive machine.
//! Stands on the core and on objects.
//! Nothing stands above it.
#![tactic(auto)]

#[cfg(test)]
mod crashes;
#[cfg(test)]
mod doing;
#[cfg(test)]
mod drawing;
#[cfg(test)]
mod images;
#[cfg(test)]
mod random;
#[cfg(test)]
mod scripts;
#[cfg(test)]
mod wished;
#[cfg(test)]
mod worked;
