// Hand-worked vectors for the manager: every refusal that a list of calls can reach, full rolls, and a commit that just fits.
#![tactic(auto)]

#[cfg(test)]
mod desk;
#[cfg(test)]
mod numbers_by_hand;
#[cfg(test)]
mod refusals_by_hand;
#[cfg(test)]
mod rolls_by_hand;
