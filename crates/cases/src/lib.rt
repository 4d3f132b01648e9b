// Tests of the libraries, in a crate of their own: a crate with tests is proved twice.
#![tactic(auto)]

#[cfg(test)]
mod branches;
#[cfg(test)]
mod caches;
#[cfg(test)]
mod checksums;
#[cfg(test)]
mod devices;
pub mod examples;
#[cfg(test)]
mod grown;
#[cfg(test)]
mod leaves;
#[cfg(test)]
mod limits;
#[cfg(test)]
mod metas;
#[cfg(test)]
mod texts;
