//! Laws of a bearer at one end of the link, over any calls and through lives. They speak of the
//! machine that `bearer` meets. The functions do nothing: their contracts are the laws.
#![tactic(auto)]

pub mod am_bearer;
pub mod any_bearer;
