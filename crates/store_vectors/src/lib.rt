// Hand-worked vectors for stores: damaged images of every sort, and a table that fills up.
#![tactic(auto)]

#[cfg(test)]
mod images_by_hand;
#[cfg(test)]
mod tables_by_hand;
