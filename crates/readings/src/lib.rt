// Tests of what reads a tree on pages: the walk, the check of a whole card, and the search.
#![tactic(auto)]

#[cfg(test)]
mod cards;
#[cfg(test)]
mod causes;
#[cfg(test)]
mod finding;
#[cfg(test)]
mod firsts;
#[cfg(test)]
mod makers;
#[cfg(test)]
mod marks;
#[cfg(test)]
mod parts;
#[cfg(test)]
mod refusals;
#[cfg(test)]
mod sound;
#[cfg(test)]
mod words;
