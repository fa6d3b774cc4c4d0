//! The configuration messages, and SAS Device Page 0.
#![tactic(auto)]

mod config_ask;
mod config_reply;
mod device_page0;
mod page_form;

pub use config_ask::{ConfigAsk, config_ask_fits, decode_config_ask, encode_config_ask};
pub use config_reply::{ConfigReply, config_reply_fits, decode_config_reply, encode_config_reply};
pub use device_page0::{DevicePage0, decode_device_page0, device_page0_fits, encode_device_page0};
pub use page_form::{PageForm, page_address};
