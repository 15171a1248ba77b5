//! The edge to the network: thousands of connections over a few workers. What connections give and take is in no
//! contract, since nothing tells it.
#![tactic(auto)]

mod clock;
mod connection;
mod deadline;
mod ending;
mod framing;
mod limits;
mod line;
mod log;
mod poller;
mod pool;
mod queue;
mod real_desk;
mod registration;
mod signals;
mod slots;
mod socket;
mod tcp_link;
mod trouble;
mod waiters;
mod waiting;
mod watch;

pub use log::Log;
pub use pool::Pool;
pub use real_desk::RealDesk;
pub use tcp_link::TcpLink;
