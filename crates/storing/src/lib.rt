// Tests of the store: what each call refuses, and which commit is found when power failed on a call.
#![tactic(auto)]

#[cfg(test)]
mod asking;
#[cfg(test)]
mod damage;
#[cfg(test)]
mod devices;
#[cfg(test)]
mod formats;
#[cfg(test)]
mod keys;
#[cfg(test)]
mod losses;
#[cfg(test)]
mod makers;
#[cfg(test)]
mod numbers;
#[cfg(test)]
mod returns;
#[cfg(test)]
mod sizes;
#[cfg(test)]
mod states;
