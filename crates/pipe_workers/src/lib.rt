//! Workers of a run: each takes its turns over chunks, keeps some keys and sends the rows of others to
//! partitions that all workers share.
#![tactic(auto)]

mod close;
mod ends;
mod groupby;
mod job;
mod laws;
mod paused;
mod pick;
mod round;
mod rows;
mod shared;
mod sink;
mod stop;
mod turn;
mod work;

pub use groupby::GenericGroupby2;
pub use job::Job;
pub use paused::PausedWorker;
pub use round::Round;
pub use stop::WorkerStop;
pub use work::work_round;
