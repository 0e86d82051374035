//! The values of a link that may change while its network stays the same.
ghost use Rattle.std.specs.Prelude.{◌≡◌, ◌<◌, ◌^◌};
ghost use Rattle.te_base.specs.Values.{AreInRange, checked_values, values_of, with_values};

use crate::keys::Key;
use crate::network::Link;
use sequence::PlainData;
use std::alloc::AllocError;
use std::marker::Model;

/// The values of a link, each in its range. A contract sees the four numbers.
#[derive(Clone, Copy, Debug, PartialEq, Eq)]
pub struct LinkValues {
    igp: u32,
    te: u32,
    colour: u32,
    reservable: u64,
}

impl Model for LinkValues {
    ghost use Rattle.te_base.specs.Values.{AreInRange, Values};

    ghost Value = { Values };

    ghost view = { λ v. record { igp = v.igp; te = v.te; colour = v.colour; reservable = v.reservable } };

    ghost invariant = { λ v. AreInRange (record { igp = v.igp; te = v.te; colour = v.colour; reservable = v.reservable }) };

    ghost inverse = { λ v. record { igp = v.igp; te = v.te; colour = v.colour; reservable = v.reservable } };
}

impl LinkValues {
    /// Makes the values of these numbers. Returns None if one is out of the range of its key.
    #[tactic(auto, unfolding(crate::specs::Values::checked_values))]
    pub fn new(igp: u64, te: u64, colour: u64, reservable: u64) -> Option<LinkValues>
        ensures { result ≡ checked_values igp te colour reservable }
    {
        if Key::Igp.is_within(igp)
            && Key::Te.is_within(te)
            && Key::Colour.is_within(colour)
            && Key::Reservable.is_within(reservable)
        {
            Some(LinkValues {
                igp: igp as u32,
                te: te as u32,
                colour: colour as u32,
                reservable,
            })
        } else {
            None
        }
    }

    /// Returns the IGP metric, 1 to 16,777,215.
    pub fn igp(self) -> u32
        ensures number { result ≡ self.igp }
        ensures positive { 0 < result }
        ensures small { result < 2 ^ 24 }
    {
        self.igp
    }

    /// Returns the traffic engineering metric, 1 to 16,777,215 (RFC 3630 section 2.5.5).
    pub fn te(self) -> u32
        ensures number { result ≡ self.te }
        ensures positive { 0 < result }
        ensures small { result < 2 ^ 24 }
    {
        self.te
    }

    /// Returns the administrative groups, one per bit (RFC 3630 section 2.5.9).
    pub fn colour(self) -> u32
        ensures { result ≡ self.colour }
    {
        self.colour
    }

    /// Returns the bandwidth that may be reserved, in bytes per second, below 2^48 (RFC 3630 section 2.5.7).
    pub fn reservable(self) -> u64
        ensures number { result ≡ self.reservable }
        ensures small { result < 2 ^ 48 }
    {
        self.reservable
    }
}

impl PlainData for LinkValues {
    fn copy(&self) -> Result<LinkValues, AllocError> {
        Ok(*self)
    }
}

impl Link {
    /// Returns its values.
    pub fn values(self) -> LinkValues
        requires { AreInRange (values_of self) }
        ensures { result ≡ values_of self }
    {
        LinkValues {
            igp: self.igp,
            te: self.te,
            colour: self.colour,
            reservable: self.reservable,
        }
    }

    /// Returns the link with other values.
    pub fn with_values(self, values: LinkValues) -> Link
        ensures link { result ≡ with_values self values }
        ensures ranges { AreInRange values }
    {
        Link {
            igp: values.igp,
            te: values.te,
            colour: values.colour,
            reservable: values.reservable,
            ..self
        }
    }
}
