//! Registrations, and the outcome of updating one.

/// The id of a registration: its serial number, from 0 in creation order. It is never reused.
#[derive(Clone, Copy, PartialEq, Eq, Debug)]
pub struct RegistrationId(pub u64);

/// The outcome of updating a registration.
#[derive(Clone, Copy, PartialEq, Eq, Debug)]
pub enum Settled {
    /// An entry was queued, since the threshold index or whether target and root intersect differs from before.
    Queued,
    /// Both are as before.
    Kept,
}

/// The state of a registration, stored under its target (Intersection Observer, 3.1: IntersectionObserverRegistration); it
/// has no previous index before its first update.
#[derive(Clone, Copy)]
pub(crate) struct Registered {
    pub(crate) registration: RegistrationId,
    pub(crate) previous: Option<u32>,
    pub(crate) met: bool,
}

/// The observer and the target of a registration.
#[derive(Clone, Copy)]
pub(crate) struct Place {
    pub(crate) watcher: u32,
    pub(crate) target: u32,
}
