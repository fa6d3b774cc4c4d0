//! What the controller puts for the host: the replies, the outboxes in which they wait, and the contexts of the
//! events that aren't acknowledged. A contract sees each as the component of the rules' `Ioc` that it stands for.
#![tactic(auto)]

mod contexts;
mod outbox;
mod outboxes;
mod replies;

pub use contexts::Contexts;
pub use outbox::Outbox;
pub use outboxes::{MAX_QUEUES, Outboxes};
pub use replies::{framed, paged, result_said};
