// The calls of a session: mount, put, remove, get, list, free, land, sync and unmount.
#![tactic(auto)]

use session::Opened;

// What sync gives back: the session after it, and how many sectors it wrote.
#[derive(Clone, Copy)]
pub struct Synced {
    pub session: Opened,
    pub written: u32,
}

// Both figures of free: the sectors clear in both views, and those that the next sync releases.
#[derive(Clone, Copy)]
pub struct Figures {
    pub free: u32,
    pub waiting: u32,
}
