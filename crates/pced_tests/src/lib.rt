//! Tests of what no row of `pced script` can show: a book and its snapshots compared with plain sums; workers that meet
//! between taking a ticket and committing it; connections over readers, writers and stores that fail; and a router that
//! connects over loopback. Threads, sockets and waits have no contracts, so only these tests show how they behave here.
#![tactic(auto)]

#[cfg(test)]
mod tests;
