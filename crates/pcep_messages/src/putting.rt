//! The objects of written messages, in place. All except a route and a name have a length that fits.

ghost use Rattle.std.specs.Prelude.{◌≡◌, ◌++◌, length, take, true, false, Some, None, IfOk, IfErr, OnOk, OnErr};
ghost use Rattle.pcep_messages.specs.Spelling.{rp_object, srp_object, lsp_object, end_points_object, no_path_object, attributes_objects, bandwidth_objects, constraint_objects, cost_objects, object_spelled, object_fits, objects_spelled, objects_fit};
ghost use Rattle.pcep_objects.specs.declared.fault.WriteFault.TheVariants.{TooLong};
ghost use Rattle.pcep_objects.specs.declared.object.Object.TheVariants.{Ero, Lsp};
ghost use Rattle.pcep_objects.specs.declared.object.Object.TheVariants as objects;

use crate::message::{Attributes, Cost};
use pcep_objects::{
    BandwidthType, EndPoints, Hop, LspObject, Lspa, Metric, NoPath, NoPathVector, Operational,
    PcepError, Plsp, Rp, Srp, WriteFault, put_ero, put_lspa, put_metric, put_named_lsp,
};
use pcep_word::{Bandwidth, Ipv4};
use std::alloc::AllocError;

/// Appends an RP with this P flag and no other flag.
#[tactic(auto, unfolding(crate::specs::Spelling::object_spelled, crate::specs::Spelling::object_fits))]
pub fn put_rp(p: bool, id: u32, out: &mut Vec<u8>) -> Result<(), AllocError>
    ensures written { OnOk result (out.new.items ≡ out.old.items ++ object_spelled (rp_object p id)) }
    ensures fits { object_fits (rp_object p id) ≡ true }
    ensures unchanged { OnErr result (out.new.items ≡ out.old.items) }
{
    let rp = Rp {
        p,
        priority: 0,
        reoptimize: false,
        bidirectional: false,
        loose: false,
        id,
    };
    pcep_objects::put_rp(rp, out)
}

/// Appends an SRP.
#[tactic(auto, unfolding(crate::specs::Spelling::object_spelled, crate::specs::Spelling::object_fits))]
pub fn put_srp(remove: bool, id: u32, out: &mut Vec<u8>) -> Result<(), AllocError>
    ensures written { OnOk result (out.new.items ≡ out.old.items ++ object_spelled (srp_object remove id)) }
    ensures fits { object_fits (srp_object remove id) ≡ true }
    ensures unchanged { OnErr result (out.new.items ≡ out.old.items) }
{
    pcep_objects::put_srp(Srp { remove, id }, out)
}

/// Appends a PCEP-ERROR.
#[tactic(auto, unfolding(crate::specs::Spelling::object_spelled))]
pub fn put_error(error: PcepError, out: &mut Vec<u8>) -> Result<(), AllocError>
    ensures written { OnOk result (out.new.items ≡ out.old.items ++ object_spelled (objects.Error error)) }
    ensures unchanged { OnErr result (out.new.items ≡ out.old.items) }
{
    pcep_objects::put_error(error, out)
}

/// Makes an LSP with flags D and A, and no name.
fn lsp_object(plsp: Plsp, delegate: bool, admin: bool) -> LspObject
    ensures { result ≡ lsp_object plsp delegate admin None }
{
    LspObject {
        plsp,
        delegate,
        sync: false,
        remove: false,
        admin,
        operational: Operational::Down,
        created: false,
        name: None,
        identifiers: None,
        error_code: None,
        rsvp_error: None,
    }
}

/// Appends an LSP with flags D and A, and no name.
#[tactic(auto, unfolding(crate::specs::Spelling::object_spelled, crate::specs::Spelling::object_fits))]
pub fn put_lsp(plsp: Plsp, delegate: bool, admin: bool, out: &mut Vec<u8>) -> Result<(), AllocError>
    ensures written { OnOk result (out.new.items ≡ out.old.items ++ object_spelled (Lsp (lsp_object plsp delegate admin None))) }
    ensures fits { object_fits (Lsp (lsp_object plsp delegate admin None)) ≡ true }
    ensures unchanged { OnErr result (out.new.items ≡ out.old.items) }
{
    let lsp = lsp_object(plsp, delegate, admin);
    pcep_objects::put_lsp(&lsp, out)
}

/// Appends the LSP of a new path: PLSP-ID 0, flags D and A, and a name.
#[tactic(auto, unfolding(crate::specs::Spelling::object_spelled, crate::specs::Spelling::object_fits))]
pub fn put_new_lsp(name: &[u8], out: &mut Vec<u8>) -> Result<(), WriteFault>
    ensures written { OnOk result (out.new.items ≡ out.old.items ++ object_spelled (Lsp (lsp_object 0 true true (Some name.now)))) }
    ensures fits { IfOk result (λ _. object_fits (Lsp (lsp_object 0 true true (Some name.now))) ≡ true) }
    ensures too_long { IfErr result (λ e. e ≡ TooLong → object_fits (Lsp (lsp_object 0 true true (Some name.now))) ≡ false) }
    ensures unchanged { OnErr result (out.new.items ≡ out.old.items) }
{
    let lsp = lsp_object(Plsp::new(0), true, true);
    put_named_lsp(&lsp, name, out)
}

/// Appends END-POINTS.
#[tactic(auto, unfolding(crate::specs::Spelling::object_spelled, crate::specs::Spelling::object_fits))]
pub fn put_end_points(source: Ipv4, destination: Ipv4, out: &mut Vec<u8>) -> Result<(), AllocError>
    ensures written { OnOk result (out.new.items ≡ out.old.items ++ object_spelled (end_points_object source destination)) }
    ensures fits { object_fits (end_points_object source destination) ≡ true }
    ensures unchanged { OnErr result (out.new.items ≡ out.old.items) }
{
    let end_points = EndPoints {
        p: true,
        source,
        destination,
    };
    pcep_objects::put_end_points(end_points, out)
}

/// Appends an ERO.
#[tactic(auto, unfolding(crate::specs::Spelling::object_spelled, crate::specs::Spelling::object_fits))]
pub fn put_route(hops: &[Hop], out: &mut Vec<u8>) -> Result<(), WriteFault>
    ensures written { OnOk result (out.new.items ≡ out.old.items ++ object_spelled (Ero hops.now)) }
    ensures fits { IfOk result (λ _. object_fits (Ero hops.now) ≡ true) }
    ensures too_long { IfErr result (λ e. e ≡ TooLong → object_fits (Ero hops.now) ≡ false) }
    ensures unchanged { OnErr result (out.new.items ≡ out.old.items) }
{
    put_ero(hops, out)
}

/// Appends a NO-PATH with nature 0 and C clear.
#[tactic(auto, unfolding(crate::specs::Spelling::object_spelled, crate::specs::Spelling::object_fits))]
pub fn put_no_path(vector: Option<NoPathVector>, out: &mut Vec<u8>) -> Result<(), AllocError>
    ensures written { OnOk result (out.new.items ≡ out.old.items ++ object_spelled (no_path_object vector)) }
    ensures fits { object_fits (no_path_object vector) ≡ true }
    ensures unchanged { OnErr result (out.new.items ≡ out.old.items) }
{
    let no_path = NoPath {
        nature: 0,
        constraints: false,
        vector,
    };
    pcep_objects::put_no_path(&no_path, out)
}

/// Appends the METRIC of a cost, with C set.
#[tactic(auto, unfolding(crate::specs::Spelling::object_spelled, crate::specs::Spelling::object_fits))]
pub fn put_cost(cost: Option<Cost>, out: &mut Vec<u8>) -> Result<(), AllocError>
    ensures written { OnOk result (out.new.items ≡ out.old.items ++ objects_spelled (cost_objects cost)) }
    ensures fits { objects_fit (cost_objects cost) ≡ true }
    ensures unchanged { OnErr result (out.new.items ≡ out.old.items) }
{
    let Some(cost) = cost else {
        return Ok(());
    };
    let metric = Metric {
        bound: false,
        computed: true,
        metric_type: cost.metric_type,
        value: cost.value,
    };
    put_metric(metric, out)
}

/// Appends the LSPA of attributes.
#[tactic(auto, unfolding(crate::specs::Spelling::object_spelled, crate::specs::Spelling::object_fits, pcep_objects::specs::Spelling::colours_written))]
fn put_attributes(attributes: Option<Attributes>, out: &mut Vec<u8>) -> Result<(), AllocError>
    ensures written { OnOk result (out.new.items ≡ out.old.items ++ objects_spelled (attributes_objects attributes)) }
    ensures fits { objects_fit (attributes_objects attributes) ≡ true }
    ensures unchanged { OnErr result (out.new.items ≡ out.old.items) }
{
    let Some(attributes) = attributes else {
        return Ok(());
    };
    let lspa = Lspa {
        colours: attributes.colours,
        setup: attributes.priorities.setup(),
        hold: attributes.priorities.hold(),
        local_protection: attributes.local_protection,
    };
    put_lspa(&lspa, out)
}

/// Appends the BANDWIDTH that is asked for.
#[tactic(auto, unfolding(crate::specs::Spelling::object_spelled, crate::specs::Spelling::object_fits))]
fn put_bandwidth(bandwidth: Option<Bandwidth>, out: &mut Vec<u8>) -> Result<(), AllocError>
    ensures written { OnOk result (out.new.items ≡ out.old.items ++ objects_spelled (bandwidth_objects bandwidth)) }
    ensures fits { objects_fit (bandwidth_objects bandwidth) ≡ true }
    ensures unchanged { OnErr result (out.new.items ≡ out.old.items) }
{
    let Some(bandwidth) = bandwidth else {
        return Ok(());
    };
    pcep_objects::put_bandwidth(BandwidthType::Requested, bandwidth, out)
}

/// Appends LSPA and BANDWIDTH.
#[tactic(auto, using(crate::proofs::Fronts::front_same, crate::proofs::Fronts::front_one))]
pub fn put_constraints(
    attributes: Option<Attributes>,
    bandwidth: Option<Bandwidth>,
    out: &mut Vec<u8>,
) -> Result<(), AllocError>
    ensures written { OnOk result (out.new.items ≡ out.old.items ++ objects_spelled (constraint_objects attributes bandwidth)) }
    ensures fits { IfOk result (λ _. objects_fit (constraint_objects attributes bandwidth) ≡ true) }
    ensures front { OnErr result (take (length out.old.items) out.new.items ≡ out.old.items) }
{
    put_attributes(attributes, out)?;
    put_bandwidth(bandwidth, out)
}
