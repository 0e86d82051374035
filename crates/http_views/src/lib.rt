//! HTTP for viewers of a running server: what a request asks for, the service that answers it, and a loop that serves a
//! few connections on one thread. No request changes anything.
//!
//! `asked_by` reads a request: its host, method, path and query (`specs/Asked.antt`). `ViewService` answers each
//! request by one call of a `ViewSource`, which says what documents and metrics are (`specs/Answers.antt`);
//! `http_server` says what is sent of an answer. `serve_views` moves the bytes; only tests show that sockets deliver.
//!
//! The modules, lowest first: `words` (numbers and addresses in a query), `query`, `asked` (paths and methods), `host`,
//! `source`, `service`, `turn` (a turn of one connection), `clients` (the connections), `page`.
//!
//! ```text
//! fn show<R: Net<Listener = TcpListener, Stream = TcpStream> + Wait, S: ViewSource, W: Watch>(rt: &R, alloc: Global, keys: RandomState, listener: &TcpListener, source: S, places: &[u8], watch: &W) -> io::Result<()>
//! {
//!     serve_views(rt, alloc, keys, listener, &mut ViewService { alloc, source, name: "", page: PAGE, places }, watch)
//! }
//! ```
#![tactic(auto)]

mod asked;
mod clients;
mod host;
mod page;
mod query;
mod service;
mod source;
mod turn;
mod words;

pub use asked::{Asked, Wrong, asked_by};
pub use clients::{AT_ONCE, IDLE_MS, Watch, serve_views};
pub use page::PAGE;
pub use service::{ViewService, give_document, give_metrics};
pub use source::ViewSource;
pub use turn::{Turn, take_turn};
