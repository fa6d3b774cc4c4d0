//! Laws of one end alone: what a host and a controller keep whatever the other side does. The functions do nothing: what
//! their contracts say is all that they are for.
#![tactic(auto)]

mod laws;

pub use laws::{
    controllers_come_back, frames_are_returned, hosts_answer_once, replies_are_for_posts,
    results_are_of_replies, strange_changes_nothing, tasks_go_where_bound,
};
