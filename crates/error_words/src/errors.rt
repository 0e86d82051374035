//! What the RFCs call errors.
ghost use Rattle.std.specs.Prelude.{◌≡◌};
ghost use Rattle.error_words.specs.Errors.{bad_parameter, close_words, error_words, instantiation_error, invalid_object, invalid_operation, invalid_setup_type, missing_object, policy_violation, session_failure, synchronization_error, unknown_object, unsupported_object};

fn session_failure(value: u8) -> &'static str
    ensures { result.now ≡ session_failure value }
{
    match value {
        1 => "invalid Open message",
        2 => "no Open before the OpenWait timer expired",
        3 => "unacceptable session characteristics",
        4 => "unacceptable but negotiable session characteristics",
        5 => "session characteristics still unacceptable",
        6 => "PCErr proposing unacceptable session characteristics",
        7 => "no Keepalive or PCErr before the KeepWait timer expired",
        8 => "PCEP version not supported",
        _ => "PCEP session establishment failure",
    }
}

fn unknown_object(value: u8) -> &'static str
    ensures { result.now ≡ unknown_object value }
{
    match value {
        1 => "unrecognized object class",
        2 => "unrecognized object type",
        _ => "unknown object",
    }
}

fn unsupported_object(value: u8) -> &'static str
    ensures { result.now ≡ unsupported_object value }
{
    match value {
        1 => "not supported object class",
        2 => "not supported object type",
        _ => "not supported object",
    }
}

fn policy_violation(value: u8) -> &'static str
    ensures { result.now ≡ policy_violation value }
{
    match value {
        1 => "policy violation: C flag of METRIC set",
        2 => "policy violation: O flag of RP clear",
        _ => "policy violation",
    }
}

fn missing_object(value: u8) -> &'static str
    ensures { result.now ≡ missing_object value }
{
    match value {
        1 => "RP object missing",
        2 => "RRO missing for a reoptimization request",
        3 => "END-POINTS object missing",
        8 => "LSP object missing",
        9 => "ERO object missing",
        10 => "SRP object missing",
        11 => "LSP-IDENTIFIERS TLV missing",
        _ => "mandatory object missing",
    }
}

fn invalid_object(value: u8) -> &'static str
    ensures { result.now ≡ invalid_object value }
{
    match value {
        1 => "object with P flag not set",
        8 => "SYMBOLIC-PATH-NAME TLV missing",
        11 => "malformed object",
        _ => "invalid object",
    }
}

fn invalid_operation(value: u8) -> &'static str
    ensures { result.now ≡ invalid_operation value }
{
    match value {
        1 => "update request for a non-delegated LSP",
        2 => "update request without the stateful capability",
        3 => "update request for an unknown PLSP-ID",
        5 => "state report without the stateful capability",
        6 => "PCE-initiated LSP limit reached",
        7 => "delegation for a PCE-initiated LSP cannot be revoked",
        8 => "non-zero PLSP-ID in an initiate request",
        9 => "LSP is not PCE-initiated",
        10 => "PCE-initiated operation-frequency limit reached",
        _ => "invalid operation",
    }
}

fn synchronization_error(value: u8) -> &'static str
    ensures { result.now ≡ synchronization_error value }
{
    match value {
        1 => "state report cannot be processed",
        5 => "state synchronization cannot be completed",
        _ => "LSP state synchronization error",
    }
}

fn invalid_setup_type(value: u8) -> &'static str
    ensures { result.now ≡ invalid_setup_type value }
{
    match value {
        1 => "unsupported path setup type",
        2 => "mismatched path setup type",
        _ => "invalid path setup type",
    }
}

fn bad_parameter(value: u8) -> &'static str
    ensures { result.now ≡ bad_parameter value }
{
    match value {
        1 => "SYMBOLIC-PATH-NAME in use",
        2 => "speaker identity for an LSP that is not PCE-initiated",
        _ => "bad parameter value",
    }
}

fn instantiation_error(value: u8) -> &'static str
    ensures { result.now ≡ instantiation_error value }
{
    match value {
        1 => "unacceptable instantiation parameters",
        2 => "internal error",
        3 => "signaling error",
        _ => "LSP instantiation error",
    }
}

/// Returns what the RFCs call the error of a PCEP-ERROR object, by its Error-Type and Error-value (RFC 5440 section 7.15, RFC
/// 8231 section 8.5, RFC 8281 section 8.5, RFC 8408). For a value that isn't assigned these are the words of its type.
#[tactic(auto, unfolding(crate::specs::Errors::error_words))]
pub fn error_words(error_type: u8, value: u8) -> &'static str
    ensures { result.now ≡ error_words error_type value }
{
    match error_type {
        1 => session_failure(value),
        2 => "capability not supported",
        3 => unknown_object(value),
        4 => unsupported_object(value),
        5 => policy_violation(value),
        6 => missing_object(value),
        7 => "synchronized path computation request missing",
        8 => "unknown request reference",
        9 => "attempt to establish a second PCEP session",
        10 => invalid_object(value),
        19 => invalid_operation(value),
        20 => synchronization_error(value),
        21 => invalid_setup_type(value),
        23 => bad_parameter(value),
        24 => instantiation_error(value),
        _ => "unknown error",
    }
}

/// Returns what RFC 5440 section 7.17 calls the reason of a CLOSE object.
#[tactic(auto, unfolding(crate::specs::Errors::close_words))]
pub fn close_words(reason: u8) -> &'static str
    ensures { result.now ≡ close_words reason }
{
    match reason {
        1 => "no explanation",
        2 => "DeadTimer expired",
        3 => "malformed message",
        4 => "too many unknown requests or replies",
        5 => "too many unrecognized messages",
        _ => "unknown reason",
    }
}
