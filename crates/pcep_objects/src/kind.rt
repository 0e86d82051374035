//! The kinds of objects, by class and type (RFC 5440 section 7, RFC 8231 section 7).

ghost use Rattle.std.specs.Prelude.{◌≡◌};
ghost use Rattle.pcep_objects.specs.Kinds.{first_type, kind_at, is_known, class_number, type_number};

/// A class of objects with one of its types.
#[derive(Clone, Copy, Debug, PartialEq, Eq)]
pub enum Kind {
    Open,
    Rp,
    NoPath,
    EndPoints,
    RequestedBandwidth,
    CurrentBandwidth,
    Metric,
    Ero,
    Rro,
    Lspa,
    Iro,
    Svec,
    Notification,
    Error,
    LoadBalancing,
    Close,
    Lsp,
    Srp,
}

/// Returns the kind of type 1 of a class.
fn first_type(class: u8) -> Option<Kind>
    ensures { result ≡ first_type class }
{
    match class {
        1 => Some(Kind::Open),
        2 => Some(Kind::Rp),
        3 => Some(Kind::NoPath),
        4 => Some(Kind::EndPoints),
        5 => Some(Kind::RequestedBandwidth),
        6 => Some(Kind::Metric),
        7 => Some(Kind::Ero),
        8 => Some(Kind::Rro),
        9 => Some(Kind::Lspa),
        10 => Some(Kind::Iro),
        11 => Some(Kind::Svec),
        12 => Some(Kind::Notification),
        13 => Some(Kind::Error),
        14 => Some(Kind::LoadBalancing),
        15 => Some(Kind::Close),
        32 => Some(Kind::Lsp),
        33 => Some(Kind::Srp),
        _ => None,
    }
}

/// Returns the kind of this class and type, or None if it isn't known.
pub fn kind_at(class: u8, object_type: u8) -> Option<Kind>
    ensures { result ≡ kind_at class object_type }
{
    if object_type == 1 {
        return first_type(class);
    }
    if class == 5 && object_type == 2 {
        return Some(Kind::CurrentBandwidth);
    }
    None
}

/// Tests whether a type of the class is known.
pub fn is_known(class: u8) -> bool
    ensures { result ≡ is_known class }
{
    first_type(class).is_some()
}

/// Returns the number of the class.
pub fn class_number(kind: Kind) -> u8
    ensures { result ≡ class_number kind }
{
    match kind {
        Kind::Open => 1,
        Kind::Rp => 2,
        Kind::NoPath => 3,
        Kind::EndPoints => 4,
        Kind::RequestedBandwidth | Kind::CurrentBandwidth => 5,
        Kind::Metric => 6,
        Kind::Ero => 7,
        Kind::Rro => 8,
        Kind::Lspa => 9,
        Kind::Iro => 10,
        Kind::Svec => 11,
        Kind::Notification => 12,
        Kind::Error => 13,
        Kind::LoadBalancing => 14,
        Kind::Close => 15,
        Kind::Lsp => 32,
        Kind::Srp => 33,
    }
}

/// Returns the number of the type within its class.
pub fn type_number(kind: Kind) -> u8
    ensures { result ≡ type_number kind }
{
    match kind {
        Kind::CurrentBandwidth => 2,
        _ => 1,
    }
}
