//! What the start of an autoshift does to the parts that are kept.
ghost use Rattle.std.specs.Prelude.{◌≡◌, IfOk, OnErr};
ghost use Rattle.arc_data.specs.declared.practice.Ending.TheVariants.{Interrupt};
ghost use Rattle.arc_plain.specs.Practice.{after_event};
ghost use Rattle.arc_plain.specs.PracticeRuns.{start_autoshift, yields_to};
ghost use Rattle.arc_practice.specs.Kept.{HaveStarted};
ghost use Rattle.arc_state.specs.Standing.{AreReady, Does};

use crate::ends::refused;
use crate::parts::Parts;
use crate::shifts::has_zone;
use arc_bytes::Memory;
use arc_data::{Body, Reply, ResourceId, ZoneName};
use arc_practice::Practices;
use arc_shift::Resources;

/// Puts a zone into autoshift. Pending runs of the resources that yield to it are interrupted.
#[tactic(auto, unfolding(arc_plain::specs::PracticeRuns::start_autoshift))]
pub(crate) fn start_autoshift(parts: &mut Parts, zone: ZoneName) -> Result<Reply, Memory>
    requires { AreReady parts.old }
    ensures does { IfOk result (λ reply. Does (λ plain. start_autoshift plain zone) parts.old reply parts.new) }
    ensures unchanged { OnErr result (parts.new ≡ parts.old) }
{
    match parts.resources.start_autoshift(zone) {
        Ok(()) => {
            yield_to(&mut parts.practices, &parts.resources, zone, parts.time);
            Ok(Reply::Done(Body::Empty))
        }
        Err(end) => refused(end),
    }
}

/// Interrupts the pending runs of the resources that yield to a zone.
fn yield_to(practices: &mut Practices, resources: &Resources, zone: ZoneName, now: u64)
    requires { HaveStarted practices.old.runs now }
    ensures { practices.new ≡ after_event (λ r. yields_to resources.now zone r.resource) Interrupt now practices.old }
{
    for i in 0..practices.list().len() {
        let resource = practices.list()[i].resource;
        if yields_to(resources, zone, resource) {
            practices.interrupt(resource, now);
        }
    }
}

/// Whether autoshift is enabled for a resource that has this zone.
fn yields_to(resources: &Resources, zone: ZoneName, resource: ResourceId) -> bool
    ensures { result ≡ yields_to resources.now zone resource }
{
    let Some(zones) = resources.zones_of(resource) else {
        return false;
    };
    match resources.autoshift_of(resource) {
        Some(true) => has_zone(zones, zone),
        _ => false,
    }
}
