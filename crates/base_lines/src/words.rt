//! The words of a base.
ghost use Rattle.std.specs.Prelude.{◌≡◌, ◌++◌, OnOk, string_bytes, if◌then◌else◌};
ghost use Rattle.line_words.specs.Written.{address_word, or_dash};
ghost use Rattle.commit_core.specs.declared.ticket.Purpose.TheVariants as purposes;
ghost use Rattle.lsp_base.specs.declared.tunnel.Tunnel.TheVariants as tunnels;
ghost use Rattle.base_lines.specs.Words.{aim_words, bound_words, capability_words, constraint_words, end_words, links_word, name_word, part_words, purpose_words, share_words, tunnel_words};

use commit_core::Purpose;
use line_words::{add_hex, add_number_or_dash};
use lsp_base::{Constraints, Part, Tunnel};
use lsp_words::{Capabilities, Plsp};
use pcep_word::Ipv4;
use std::alloc::{AllocError, Global};
use std::fmt::Write;
use step_lines::{add_colours, add_numbered, add_path, metric_word};
use te_base::LinkNumber;

/// Chooses one of two words.
pub(crate) fn flag_word(flag: bool, on: &'static str, off: &'static str) -> &'static str
    ensures { result.now ≡ (if flag then on.now else off.now) }
{
    if flag { on } else { off }
}

/// Adds what a peer lets the PCE do.
pub(crate) fn add_capabilities(
    text: &mut String,
    capabilities: Capabilities,
) -> Result<(), AllocError>
    ensures { OnOk result (string_bytes text.new ≡ string_bytes text.old ++ capability_words capabilities) }
{
    let update = flag_word(capabilities.update, "update", "-");
    let create = flag_word(capabilities.create, "initiate", "-");
    write!(text, "{update} {create} ")
}

/// Adds a name, or `-` if it is empty.
pub(crate) fn add_name(alloc: Global, text: &mut String, name: &[u8]) -> Result<(), AllocError>
    ensures { OnOk result (string_bytes text.new ≡ string_bytes text.old ++ name_word name.now) }
{
    match name {
        [] => text.push_str("- "),
        [..] => add_hex(alloc, text, name),
    }
}

/// Adds link numbers joined by commas, or `-` if there are none.
pub(crate) fn add_links(text: &mut String, links: &[LinkNumber]) -> Result<(), AllocError>
    ensures { OnOk result (string_bytes text.new ≡ string_bytes text.old ++ links_word links.now) }
{
    match links {
        [] => text.push_str("- "),
        [..] => {
            add_path(text, links)?;
            text.push_str(" ")
        }
    }
}

/// Adds which of an LSP's paths a path is.
pub(crate) fn add_part(text: &mut String, part: Part) -> Result<(), AllocError>
    ensures { OnOk result (string_bytes text.new ≡ string_bytes text.old ++ part_words part) }
{
    match part {
        Part::Reported(lsp) => write!(text, "lsp {lsp} "),
        Part::Granted(srp) => write!(text, "srp {srp} "),
    }
}

fn add_signalled(
    text: &mut String,
    peer: u32,
    endpoint: Ipv4,
    tunnel: u16,
    extended: u32,
) -> Result<(), AllocError>
    ensures { OnOk result (string_bytes text.new ≡ string_bytes text.old ++ tunnel_words (tunnels.Signalled peer endpoint tunnel extended)) }
{
    let peer = Ipv4(peer);
    write!(text, "signalled {peer} {endpoint} {tunnel} {extended} ")
}

/// Adds a tunnel.
pub(crate) fn add_tunnel(text: &mut String, tunnel: Tunnel) -> Result<(), AllocError>
    ensures { OnOk result (string_bytes text.new ≡ string_bytes text.old ++ tunnel_words tunnel) }
{
    match tunnel {
        Tunnel::Signalled {
            peer,
            endpoint,
            tunnel,
            extended,
        } => add_signalled(text, peer, endpoint, tunnel, extended),
        Tunnel::Unsignalled { peer, plsp } => {
            add_numbered(text, "unsignalled ", peer, plsp.number())
        }
        Tunnel::Asked { peer, srp } => add_numbered(text, "asked ", peer, srp),
    }
}

/// Adds an address, or `-` if there is none.
fn add_address_or_dash(text: &mut String, address: Option<Ipv4>) -> Result<(), AllocError>
    ensures { OnOk result (string_bytes text.new ≡ string_bytes text.old ++ or_dash address_word address) }
{
    match address {
        Some(address) => write!(text, "{address} "),
        None => text.push_str("- "),
    }
}

/// Adds the source and the destination of a path.
fn add_ends(text: &mut String, constraints: &Constraints) -> Result<(), AllocError>
    ensures { OnOk result (string_bytes text.new ≡ string_bytes text.old ++ end_words constraints.now) }
{
    add_address_or_dash(text, constraints.source)?;
    add_address_or_dash(text, constraints.destination)
}

/// Adds the most of the metric that is to be least, the most hops, and the most of each other metric.
fn add_bounds(text: &mut String, constraints: &Constraints) -> Result<(), AllocError>
    ensures { OnOk result (string_bytes text.new ≡ string_bytes text.old ++ bound_words constraints.now) }
{
    add_number_or_dash(text, constraints.bound)?;
    add_number_or_dash(text, constraints.hop_bound)?;
    add_number_or_dash(text, constraints.other_bounds.igp)?;
    add_number_or_dash(text, constraints.other_bounds.te)
}

/// Adds the bandwidth, the priorities and the colours that are asked for.
fn add_share(text: &mut String, constraints: &Constraints) -> Result<(), AllocError>
    ensures { OnOk result (string_bytes text.new ≡ string_bytes text.old ++ share_words constraints.now) }
{
    let bandwidth = constraints.bandwidth.value();
    let (setup, hold) = (
        constraints.priorities.setup().number(),
        constraints.priorities.hold().number(),
    );
    write!(text, "{bandwidth} {setup} {hold} ")?;
    add_colours(text, constraints.colours)
}

/// Adds the metric that is to be least, all bounds, and whether local protection is wanted.
fn add_aim(text: &mut String, constraints: &Constraints) -> Result<(), AllocError>
    ensures { OnOk result (string_bytes text.new ≡ string_bytes text.old ++ aim_words constraints.now) }
{
    text.push_str(metric_word(constraints.minimise))?;
    add_bounds(text, constraints)?;
    let protection = flag_word(constraints.local_protection, "protect", "-");
    write!(text, "{protection} ")
}

/// Adds what is asked of a path.
#[tactic(auto, unfolding(crate::specs::Words::constraint_words))]
pub(crate) fn add_constraints(
    text: &mut String,
    constraints: &Constraints,
) -> Result<(), AllocError>
    ensures { OnOk result (string_bytes text.new ≡ string_bytes text.old ++ constraint_words constraints.now) }
{
    add_ends(text, constraints)?;
    add_share(text, constraints)?;
    add_aim(text, constraints)
}

fn add_initiate(
    alloc: Global,
    text: &mut String,
    name: &[u8],
    constraints: &Constraints,
) -> Result<(), AllocError>
    ensures { OnOk result (string_bytes text.new ≡ string_bytes text.old ++ purpose_words (purposes.Initiate name.now constraints.now)) }
{
    text.push_str("initiate ")?;
    add_hex(alloc, text, name)?;
    add_constraints(text, constraints)
}

fn add_answer(
    text: &mut String,
    request: u32,
    plsp: Option<Plsp>,
    constraints: &Constraints,
) -> Result<(), AllocError>
    ensures { OnOk result (string_bytes text.new ≡ string_bytes text.old ++ purpose_words (purposes.Answer request plsp constraints.now)) }
{
    write!(text, "answer {request} ")?;
    match plsp {
        Some(plsp) => {
            let plsp = plsp.number();
            write!(text, "{plsp} ")?
        }
        None => text.push_str("- ")?,
    }
    add_constraints(text, constraints)
}

/// Adds what a path is asked for.
pub(crate) fn add_purpose(
    alloc: Global,
    text: &mut String,
    purpose: &Purpose,
) -> Result<(), AllocError>
    ensures { OnOk result (string_bytes text.new ≡ string_bytes text.old ++ purpose_words purpose.now) }
{
    match purpose {
        Purpose::Update { plsp } => {
            let plsp = plsp.number();
            write!(text, "update {plsp} ")
        }
        Purpose::Initiate { name, constraints } => {
            add_initiate(alloc, text, name.as_slice(), constraints)
        }
        Purpose::Answer {
            request,
            plsp,
            constraints,
        } => add_answer(text, *request, *plsp, constraints),
    }
}
