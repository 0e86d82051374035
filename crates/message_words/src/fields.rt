//! The fields that objects and messages share.

ghost use Rattle.std.specs.Prelude.{◌≡◌, true, Some};
ghost use Rattle.std.specs.List.{list_all};
ghost use Rattle.hex.specs.Hex.{encode_lower};
ghost use Rattle.message_words.specs.Fields.{Adds, bit, word_digits, state_word, flag_words, lsp_field_words, is_plain, name_words, identifier_words, error_code_words, rsvp_error_words, lsp_error_words, protection_words, loose_mark, hop_words, hops_words, named_word, excluded, included_any, included_all, colour_words, capability_words, vector_words};

use pcep_objects::{
    Capabilities, Colours, Hop, Identifiers, NoPathVector, Operational, Plsp, RsvpError,
};
use pcep_word::Ipv4;
use std::alloc::{AllocError, Global};
use std::fmt;
use std::fmt::Write;

/// The fields of an LSP object that have a fixed length.
#[derive(Clone, Copy)]
pub struct LspFields {
    pub plsp: Plsp,
    pub delegate: bool,
    pub sync: bool,
    pub remove: bool,
    pub admin: bool,
    pub operational: Operational,
    pub created: bool,
}

/// A flag, which is written as 0 or 1.
#[derive(Clone, Copy)]
pub struct Bit(pub bool);

impl fmt::Display for Bit {
    ghost output = { λ b. Some (bit b.0) };

    fn fmt<W: fmt::Write>(&self, f: &mut fmt::Formatter<W>) -> fmt::Result {
        match self.0 {
            false => f.write_str("0"),
            true => f.write_str("1"),
        }
    }
}

/// Adds bytes in lower-case hexadecimal digits.
pub fn add_hex(alloc: Global, bytes: &[u8], text: &mut String) -> Result<(), AllocError>
    ensures { Adds result text.old text.new (encode_lower bytes.now) }
{
    let digits = hex::encode(alloc, bytes)?;
    text.push_str(digits.as_str())
}

/// Adds a word of 32 bits in eight digits.
fn add_word(alloc: Global, word: u32, text: &mut String) -> Result<(), AllocError>
    ensures { Adds result text.old text.new (word_digits word) }
{
    add_hex(alloc, &word.to_be_bytes(), text)
}

fn state_word(operational: Operational) -> &'static str
    ensures { result.now ≡ state_word operational }
{
    match operational {
        Operational::Down => "down",
        Operational::Up => "up",
        Operational::Active => "active",
        Operational::GoingDown => "going-down",
        Operational::GoingUp => "going-up",
    }
}

fn add_flags(fields: LspFields, text: &mut String) -> Result<(), AllocError>
    ensures { Adds result text.old text.new (flag_words fields) }
{
    let (delegate, sync) = (Bit(fields.delegate), Bit(fields.sync));
    let (remove, admin) = (Bit(fields.remove), Bit(fields.admin));
    write!(
        text,
        " delegate {delegate} sync {sync} remove {remove} admin {admin}"
    )
}

/// Adds `LSP plsp-id 1 delegate 1 sync 0 remove 0 admin 1 oper up create 0`.
pub fn add_lsp_fields(fields: LspFields, text: &mut String) -> Result<(), AllocError>
    ensures { Adds result text.old text.new (lsp_field_words fields) }
{
    let plsp = fields.plsp.number();
    let (state, create) = (state_word(fields.operational), Bit(fields.created));
    write!(text, "LSP plsp-id {plsp}")?;
    add_flags(fields, text)?;
    write!(text, " oper {state} create {create}")
}

/// Tests whether the byte is a printed character of ASCII or a space, and not a quotation mark.
fn is_plain(byte: u8) -> bool
    ensures { result ≡ is_plain byte }
{
    (0x20..=0x7e).contains(&byte) && byte != b'"'
}

/// Tests whether a name is written as it is.
fn are_plain(name: &[u8]) -> bool
    ensures { result ≡ list_all is_plain name.now }
{
    name.iter().all(|byte| is_plain(*byte))
}

/// Adds ` name "t1"`, or a name with other bytes in digits.
pub fn add_name(alloc: Global, name: &[u8], text: &mut String) -> Result<(), AllocError>
    ensures { Adds result text.old text.new (name_words name.now) }
{
    if are_plain(name) {
        text.push_str(" name \"")?;
        add_plain(name, text)?;
        return text.push_str("\"");
    }
    text.push_str(" name 0x")?;
    add_hex(alloc, name, text)
}

/// Adds a name of plain bytes, which are UTF-8.
fn add_plain(name: &[u8], text: &mut String) -> Result<(), AllocError>
    requires { list_all is_plain name.now ≡ true }
    ensures { Adds result text.old text.new name.now }
{
    let Ok(name) = str::from_utf8(name) else {
        unreachable!()
    };
    text.push_str(name)
}

/// Adds the fields of IPV4-LSP-IDENTIFIERS, if there are any.
pub fn add_identifiers(
    identifiers: Option<Identifiers>,
    text: &mut String,
) -> Result<(), AllocError>
    ensures { Adds result text.old text.new (identifier_words identifiers) }
{
    let Some(found) = identifiers else {
        return Ok(());
    };
    let (sender, extended, endpoint) = (found.sender, Ipv4(found.extended), found.endpoint);
    let (lsp, tunnel) = (found.lsp, found.tunnel);
    write!(text, " sender {sender} lsp-id {lsp} tunnel-id {tunnel}")?;
    write!(text, " extended-tunnel-id {extended} endpoint {endpoint}")
}

/// Adds LSP-ERROR-CODE, if there is one.
fn add_error_code(error_code: Option<u32>, text: &mut String) -> Result<(), AllocError>
    ensures { Adds result text.old text.new (error_code_words error_code) }
{
    match error_code {
        Some(code) => write!(text, " error-code {code}"),
        None => Ok(()),
    }
}

/// Adds the fields of RSVP-ERROR-SPEC, if there is one.
fn add_rsvp_error(error: Option<RsvpError>, text: &mut String) -> Result<(), AllocError>
    ensures { Adds result text.old text.new (rsvp_error_words error) }
{
    let Some(found) = error else {
        return Ok(());
    };
    let (node, flags, code, value) = (found.node, found.flags, found.code, found.value);
    write!(
        text,
        " rsvp-error node {node} flags {flags} code {code} value {value}"
    )
}

/// Adds the errors of an LSP that there are.
pub fn add_errors(
    error_code: Option<u32>,
    rsvp_error: Option<RsvpError>,
    text: &mut String,
) -> Result<(), AllocError>
    ensures { Adds result text.old text.new (lsp_error_words error_code rsvp_error) }
{
    add_error_code(error_code, text)?;
    add_rsvp_error(rsvp_error, text)
}

/// Returns the words of local protection, if it is wanted.
pub fn protection_words(is_protected: bool) -> &'static str
    ensures { result.now ≡ protection_words is_protected }
{
    if is_protected {
        " local-protection 1"
    } else {
        ""
    }
}

fn loose_mark(loose: bool) -> &'static str
    ensures { result.now ≡ loose_mark loose }
{
    if loose { "(loose)" } else { "" }
}

/// Adds a hop: `10.0.1.1/32`, followed by `(loose)` if it is, or any other subobject by its first byte and what follows
/// its length.
fn add_hop(alloc: Global, hop: &Hop, text: &mut String) -> Result<(), AllocError>
    ensures { Adds result text.old text.new (hop_words hop.now) }
{
    match hop {
        Hop::Host(address, loose) => {
            let (address, mark) = (*address, loose_mark(*loose));
            write!(text, " {address}/32{mark}")
        }
        Hop::Other(first, rest) => {
            text.push_str(" 0x")?;
            add_hex(alloc, &[*first], text)?;
            text.push_str(":")?;
            add_hex(alloc, rest.as_slice(), text)
        }
    }
}

/// Adds the hops of a route, each after a space.
pub fn add_hops(alloc: Global, hops: &[Hop], text: &mut String) -> Result<(), AllocError>
    ensures { Adds result text.old text.new (hops_words hops.now) }
{
    for hop in hops {
        add_hop(alloc, hop, text)?;
    }
    Ok(())
}

/// Adds a name and a word of 32 bits in digits.
fn add_named_word(alloc: Global, name: &str, word: u32, text: &mut String) -> Result<(), AllocError>
    ensures { Adds result text.old text.new (named_word name.now word) }
{
    text.push_str(name)?;
    add_word(alloc, word, text)
}

#[tactic(auto, unfolding(crate::specs::Fields::excluded))]
fn add_excluded(alloc: Global, word: u32, text: &mut String) -> Result<(), AllocError>
    ensures { Adds result text.old text.new (excluded word) }
{
    add_named_word(alloc, " exclude-any ", word, text)
}

#[tactic(auto, unfolding(crate::specs::Fields::included_any))]
fn add_included_any(alloc: Global, word: u32, text: &mut String) -> Result<(), AllocError>
    ensures { Adds result text.old text.new (included_any word) }
{
    add_named_word(alloc, " include-any ", word, text)
}

#[tactic(auto, unfolding(crate::specs::Fields::included_all))]
fn add_included_all(alloc: Global, word: u32, text: &mut String) -> Result<(), AllocError>
    ensures { Adds result text.old text.new (included_all word) }
{
    add_named_word(alloc, " include-all ", word, text)
}

/// Adds the colours that a path must and must not have, in digits.
#[tactic(auto, unfolding(crate::specs::Fields::colour_words))]
pub fn add_colours(alloc: Global, colours: Colours, text: &mut String) -> Result<(), AllocError>
    ensures { Adds result text.old text.new (colour_words colours) }
{
    add_excluded(alloc, colours.exclude_any, text)?;
    add_included_any(alloc, colours.include_any, text)?;
    add_included_all(alloc, colours.include_all, text)
}

/// Adds the flags of STATEFUL-PCE-CAPABILITY, if there is one.
pub fn add_capabilities(
    capabilities: Option<Capabilities>,
    text: &mut String,
) -> Result<(), AllocError>
    ensures { Adds result text.old text.new (capability_words capabilities) }
{
    let Some(found) = capabilities else {
        return Ok(());
    };
    let (update, create) = (Bit(found.update), Bit(found.create));
    write!(text, " lsp-update {update} lsp-instantiation {create}")
}

/// Adds the flags of NO-PATH-VECTOR, if there is one.
pub fn add_vector(vector: Option<NoPathVector>, text: &mut String) -> Result<(), AllocError>
    ensures { Adds result text.old text.new (vector_words vector) }
{
    let Some(found) = vector else {
        return Ok(());
    };
    let (unavailable, destination) = (Bit(found.pce_unavailable), Bit(found.unknown_destination));
    let source = Bit(found.unknown_source);
    write!(
        text,
        " pce-unavailable {unavailable} unknown-destination {destination} unknown-source {source}"
    )
}
