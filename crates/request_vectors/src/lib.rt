// Requests and answers by hand.
#![tactic(auto)]

#[cfg(test)]
mod answers_by_hand;
#[cfg(test)]
mod requests_by_hand;
