//! Laws of drains: what is left to send is a measure that falls with each data PDU, whatever is
//! lost, named again or acknowledged. The functions do nothing: their contracts are the laws.
#![tactic(auto)]

pub mod am_bearer;
pub mod channel;
pub mod flow;
pub mod grant;
pub mod pdcp;
pub mod queue;
pub mod receiver;
pub mod sender;
