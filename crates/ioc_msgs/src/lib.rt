//! The messages that bring a controller up and that work on its ports, phys and devices: facts,
//! init, ports and unit control.
#![tactic(auto)]

mod ioc_facts;
mod ioc_facts_reply;
mod ioc_init;
mod ioc_init_reply;
mod port_enable;
mod port_enable_reply;
mod port_facts;
mod port_facts_reply;
mod unit_control;
mod unit_control_reply;

pub use ioc_facts::{IocFacts, decode_ioc_facts, encode_ioc_facts, ioc_facts_fits};
pub use ioc_facts_reply::{
    IocFactsReply, decode_ioc_facts_reply, encode_ioc_facts_reply, ioc_facts_reply_fits,
};
pub use ioc_init::{IocInit, decode_ioc_init, encode_ioc_init, ioc_init_fits};
pub use ioc_init_reply::{
    IocInitReply, decode_ioc_init_reply, encode_ioc_init_reply, ioc_init_reply_fits,
};
pub use port_enable::{PortEnable, decode_port_enable, encode_port_enable, port_enable_fits};
pub use port_enable_reply::{
    PortEnableReply, decode_port_enable_reply, encode_port_enable_reply, port_enable_reply_fits,
};
pub use port_facts::{PortFacts, decode_port_facts, encode_port_facts, port_facts_fits};
pub use port_facts_reply::{
    PortFactsReply, decode_port_facts_reply, encode_port_facts_reply, port_facts_reply_fits,
};
pub use unit_control::{UnitControl, decode_unit_control, encode_unit_control, unit_control_fits};
pub use unit_control_reply::{
    UnitControlReply, decode_unit_control_reply, encode_unit_control_reply, unit_control_reply_fits,
};
