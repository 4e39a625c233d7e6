//! Tests of a pool and of a board in code: jobs that workers do, a board's turns by hand, the history that a whole run leaves, and seats that take their turns by hand and in threads.
#![tactic(auto)]

#[cfg(test)]
mod by_hand;
#[cfg(test)]
mod histories;
#[cfg(test)]
mod programs;
#[cfg(test)]
mod seats_at_work;
#[cfg(test)]
mod seats_by_hand;
#[cfg(test)]
mod test_board;
#[cfg(test)]
mod workers;
