//! What the world's lists are by its schedule: the fabric's bays and requests by what was plugged, pulled and run, the
//! controller's queues by what was read and answered, and the host's outbox by what was put. The proofs are all that it
//! is for.
#![tactic(auto)]
