// The rules of the station on the control part of its state: what a telegram, a tick or a user call changes there, what
// becomes of the buffers, and what is drawn. No buffer and no memory here.
#![tactic(auto)]

mod bits;
pub mod diagnosis;
pub mod kinds;
pub mod line;
pub mod modes;
pub mod outcome;
pub mod phases;
pub mod replies;
pub mod request;
pub mod requests;
pub mod retries;
pub mod services;
pub mod user;
pub mod watchdog;
