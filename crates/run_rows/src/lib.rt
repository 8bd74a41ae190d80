//! Rows of the run of programs that no script plays: the host's files, a live view of a run, statuses, and histories.
#![tactic(auto)]

#[cfg(test)]
mod history_rows;
#[cfg(test)]
mod host_rows;
#[cfg(test)]
mod seen_rows;
#[cfg(test)]
mod status_rows;
