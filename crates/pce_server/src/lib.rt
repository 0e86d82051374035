//! The server: threads that serve routers over TCP from one shared database (RFC 5440 section 4.2). `serve_run` is a
//! whole run: one thread for each connection, at most 64 at once; workers, which search for paths; a timer, which
//! forgets peers that stay down; the caller's own thread, which answers an operator's lines; a thread for each operator
//! at the control socket (`control_socket`), four at once; and one for all viewers over HTTP (`http_views`). At its end
//! the database is closed with the audit of all seats (`shared_pce`).
//!
//! `server_talk` proves what is sent on a connection and to an operator, and the layers below it prove what a session
//! makes of bytes, what a step does and what an audit says. Only tests show that threads run, that sockets deliver and
//! that nothing waits for ever.
//!
//! ```text
//! fn run<R: Wait + Threads + Clock + Net<Listener = TcpListener, Stream = TcpStream> + AllocGlobal + Log + Sync>(rt: &R, listener: &TcpListener, te: TeBase) -> Result<Audit, RunFault>
//! {
//!     let orders = Orders { workers: 2, sessions: Sessions::Endless, keep_seconds: 60, settle_seconds: 0, answer_seconds: 120, history_megabytes: 512, descriptors: None };
//!     let routers = Routers { known: &None, settle_for: &[] };
//!     let listeners = Listeners { routers: listener, control: None, viewers: None, journal: None };
//!     serve_run(rt, listeners, te, &plan, orders, routers, &mut io::empty(), &mut io::sink())
//! }
//! ```
//!
//! Each kind of thread has a crate of its own: `server_connections` (the acceptor and the connections),
//! `server_operators`, `server_viewers`, `server_journal`, `server_workers` (also the timer) and `server_log`. They are built on
//! `server_base`, which has what each thread is lent. Here they are started and joined.
//!
//! - `starting`: what a run logs when it starts, and how many connections have a place in it
//! - `server`: a whole run
#![tactic(auto)]

mod server;
mod starting;

pub use server::{Listeners, Routers, serve_run};
pub use server_journal::JournalPlace;
pub use server_log::ErrorOutput;
pub use server_operators::FilePlan;
pub use server_rules::{AT_ONCE, Orders, Sessions};
pub use server_signals::RunFault;
pub use server_viewers::ViewerListener;
pub use shared_pce::{Audit, AuditFault, Fault};
