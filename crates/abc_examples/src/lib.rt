//! Worked rows of definitions that several crates share, computed: nothing else stands here, so that no crate below is proved again.
#![tactic(auto)]
