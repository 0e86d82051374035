//! What has been read of a request.

ghost use Rattle.std.specs.Prelude.{◌≡◌};
ghost use Rattle.pcep_messages.specs.RequestSteps.{begun, taken};
ghost use Rattle.pcep_objects.specs.declared.object.Object.TheVariants as objects;

use crate::constraints::{bandwidth_asked, bounded, minimised_by};
use crate::counting::{greater, keep_first};
use crate::message::Bounds;
use pcep_objects::{BandwidthType, EndPoints, Lspa, MetricType, Object, Plsp, Rp};
use pcep_word::Bandwidth;

/// An RP, and what counts of the objects after it that were read.
#[derive(Clone, Copy, Debug)]
pub struct Asked {
    pub rp: Rp,
    pub ends: Option<EndPoints>,
    pub plsp: Option<Plsp>,
    pub lspa: Option<Lspa>,
    pub has_rro: bool,
    /// There is a bandwidth above 0, asked for or of an existing LSP.
    pub has_bandwidth: bool,
    /// The greatest bandwidth that is asked for.
    pub bandwidth: Bandwidth,
    /// What the path is to minimise, if an object says so.
    pub minimised: Option<MetricType>,
    pub bounds: Bounds,
}

/// Makes a request of which only the RP was read.
pub fn begun(rp: Rp) -> Asked
    ensures { result ≡ begun rp }
{
    Asked {
        rp,
        ends: None,
        plsp: None,
        lspa: None,
        has_rro: false,
        has_bandwidth: false,
        bandwidth: Bandwidth::zero(),
        minimised: None,
        bounds: Bounds {
            igp: None,
            te: None,
            hops: None,
        },
    }
}

/// Takes in END-POINTS.
#[inline(always)]
pub fn take_end_points(asked: &mut Asked, ends: EndPoints)
    ensures { asked.new ≡ taken asked.old (objects.EndPoints ends) }
{
    keep_first(&mut asked.ends, ends);
}

/// Takes in a bandwidth.
#[inline(always)]
pub fn take_bandwidth(asked: &mut Asked, kind: BandwidthType, bandwidth: Bandwidth)
    ensures { asked.new ≡ taken asked.old (objects.Bandwidth kind bandwidth) }
{
    asked.has_bandwidth = asked.has_bandwidth || 0 < bandwidth.value();
    asked.bandwidth = greater(asked.bandwidth, bandwidth_asked(kind, bandwidth));
}

/// Takes in one more object. One that a request doesn't name is ignored.
#[inline(always)]
pub fn take(asked: &mut Asked, object: &Object)
    ensures { asked.new ≡ taken asked.old object.now }
{
    match object {
        Object::EndPoints(ends) => take_end_points(asked, *ends),
        Object::Lsp(lsp) => keep_first(&mut asked.plsp, lsp.plsp),
        Object::Lspa(lspa) => keep_first(&mut asked.lspa, *lspa),
        Object::Rro(_) => asked.has_rro = true,
        Object::Bandwidth(kind, bandwidth) => take_bandwidth(asked, *kind, *bandwidth),
        Object::Metric(metric) => {
            asked.minimised = asked.minimised.or(minimised_by(metric));
            asked.bounds = bounded(asked.bounds, metric);
        }
        _ => {}
    }
}
