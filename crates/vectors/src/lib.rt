// Hand-worked vectors for kinds, rows, patterns and comparisons. They stand apart from the crates that they test, since a crate with
// tests is proved twice.
#![tactic(auto)]

#[cfg(test)]
mod compare_by_hand;
#[cfg(test)]
mod kinds_by_hand;
#[cfg(test)]
mod made;
#[cfg(test)]
mod terms_by_hand;
