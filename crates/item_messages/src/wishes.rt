//! What a report and a request both say of a path: LSPA and BANDWIDTH, each if it says something.
ghost use Rattle.std.specs.Prelude.{◌≡◌, ◌++◌, true, IfOk, OnOk};
ghost use Rattle.pcep_messages.specs.Spelling.{objects_spelled, objects_fit};
ghost use Rattle.pcep_objects.specs.declared.object.BandwidthType.TheVariants.{Requested};
ghost use Rattle.pcep_objects.specs.declared.object.Object.TheVariants as objects;
ghost use Rattle.item_messages.specs.Objects.{if_any, are_usual, lspa_of, bandwidth_of, wish_objects};

use lsp_words::Colours;
use pcep_objects::{BandwidthType, Lspa, put_bandwidth, put_lspa};
use pcep_word::{Bandwidth, Priorities};
use std::alloc::AllocError;

/// What an LSPA says.
#[derive(Clone, Copy)]
pub(crate) struct Wishes {
    pub(crate) priorities: Priorities,
    pub(crate) colours: Colours,
    pub(crate) local_protection: bool,
    pub(crate) bandwidth: Bandwidth,
}

/// Tests whether they are what counts if there is no LSPA.
fn are_usual(priorities: Priorities, colours: Colours, local_protection: bool) -> bool
    ensures { result ≡ are_usual priorities colours local_protection }
{
    priorities.setup().number() == 7
        && priorities.hold().number() == 7
        && colours.exclude_any == 0
        && colours.include_any == 0
        && colours.include_all == 0
        && !local_protection
}

/// Appends an LSPA, unless it is of defaults.
#[tactic(auto, unfolding(pcep_messages::specs::Spelling::object_spelled, pcep_messages::specs::Spelling::object_fits, pcep_objects::specs::Spelling::colours_written))]
fn put_attributes(
    priorities: Priorities,
    colours: Colours,
    local_protection: bool,
    out: &mut Vec<u8>,
) -> Result<(), AllocError>
    ensures written { OnOk result (out.new.items ≡ out.old.items ++ objects_spelled (if_any (λ lspa. objects.Lspa lspa) (lspa_of priorities colours local_protection))) }
    ensures fits { objects_fit (if_any (λ lspa. objects.Lspa lspa) (lspa_of priorities colours local_protection)) ≡ true }
{
    if are_usual(priorities, colours, local_protection) {
        return Ok(());
    }
    let lspa = Lspa {
        colours,
        setup: priorities.setup(),
        hold: priorities.hold(),
        local_protection,
    };
    put_lspa(&lspa, out)
}

/// Appends the BANDWIDTH that is asked for, unless it is 0.
#[tactic(auto, unfolding(pcep_messages::specs::Spelling::object_spelled, pcep_messages::specs::Spelling::object_fits))]
fn put_flow(bandwidth: Bandwidth, out: &mut Vec<u8>) -> Result<(), AllocError>
    ensures written { OnOk result (out.new.items ≡ out.old.items ++ objects_spelled (if_any (λ b. objects.Bandwidth Requested b) (bandwidth_of bandwidth))) }
    ensures fits { objects_fit (if_any (λ b. objects.Bandwidth Requested b) (bandwidth_of bandwidth)) ≡ true }
{
    if bandwidth.value() == 0 {
        return Ok(());
    }
    put_bandwidth(BandwidthType::Requested, bandwidth, out)
}

/// Appends LSPA and BANDWIDTH.
pub(crate) fn put_wishes(wishes: Wishes, out: &mut Vec<u8>) -> Result<(), AllocError>
    ensures written { OnOk result (out.new.items ≡ out.old.items ++ objects_spelled (wish_objects wishes.priorities wishes.colours wishes.local_protection wishes.bandwidth)) }
    ensures fits { IfOk result (λ _. objects_fit (wish_objects wishes.priorities wishes.colours wishes.local_protection wishes.bandwidth) ≡ true) }
{
    put_attributes(
        wishes.priorities,
        wishes.colours,
        wishes.local_protection,
        out,
    )?;
    put_flow(wishes.bandwidth, out)
}
