//! The first alert event.
ghost use Rattle.std.specs.Prelude.{◌≡◌, IfOk, is_some, string_bytes};
ghost use Rattle.replay_probes.specs.Meaning.{is_stop};
ghost use Rattle.standard_probes.specs.ProbeLines.{alert_text};
ghost use Rattle.standard_probes.specs.Probes.{first_alert_of};

use pl_base::NoMemory;
use pl_event::{Event, is_alert};
use replay_probes::{Probe, See, Shown};
use std::alloc::{AllocError, Global};

/// The first event that the other harts are told of; it stops there.
#[derive(Drop)]
pub struct AlertProbe {
    first: Option<Shown>,
}

impl AlertProbe {
    ghost use Rattle.std.specs.Prelude.{[]};
    ghost use Rattle.standard_probes.specs.Probes.{first_alert};

    /// It has seen no event.
    pub fn new() -> AlertProbe
        ensures { result.first ≡ first_alert [] }
    {
        AlertProbe { first: None }
    }
}

impl Probe for AlertProbe {
    ghost use Rattle.std.specs.Prelude.{◌≡◌};
    ghost use Rattle.standard_probes.specs.Probes.{alert_meaning, first_alert};

    ghost meaning = { λ _. alert_meaning };

    ghost has_seen = { λ probe seen. probe.first ≡ first_alert seen };

    fn name(&self) -> &str {
        "alert"
    }

    fn see(
        &mut self,
        _alloc: Global,
        place: u32,
        number: u32,
        event: &Event,
    ) -> Result<See, NoMemory> {
        let first = first_of(
            self.first,
            Shown {
                place,
                number,
                event: *event,
            },
        );
        self.first = first;
        Ok(see_of(&first))
    }

    fn finish(&self, alloc: Global) -> Result<Vec<u8>, NoMemory> {
        let line = alert_line(alloc, &self.first)?;
        Ok(line.into_bytes())
    }
}

/// The first alert of an earlier one, if there is one, and an event.
#[inline]
fn first_of(earlier: Option<Shown>, shown: Shown) -> Option<Shown>
    ensures { result ≡ first_alert_of earlier shown }
{
    match earlier {
        Some(first) => Some(first),
        None if is_alert(&shown.event.kind) => Some(shown),
        None => None,
    }
}

/// It stops once there is an alert.
#[inline]
fn see_of(first: &Option<Shown>) -> See
    ensures { is_stop result ≡ is_some first.now }
{
    match first {
        Some(_) => See::Stop,
        None => See::Go,
    }
}

fn alert_line(alloc: Global, first: &Option<Shown>) -> Result<String, AllocError>
    ensures { IfOk result (λ line. string_bytes line ≡ alert_text first.now) }
{
    match *first {
        None => String::from_str(alloc, "probe alert none"),
        Some(shown) => {
            let place = shown.place;
            let hart = shown.event.hart;
            let number = shown.number;
            let mut out = String::new(alloc);
            write!(out, "probe alert {place} h{hart} {number}")?;
            Ok(out)
        }
    }
}
