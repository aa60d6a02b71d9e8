//! Time zones: UTC, or a POSIX rule.

ghost use Rattle.std.specs.Prelude.{◌≡◌, ◌↔◌, Ok, IsOk, IsSome, IfOk, IfErr};
ghost use Rattle.jiff.specs.Placed.{IsPosixZone};
ghost use Rattle.jiff_core.specs.DateTime.{civil_nanos};
ghost use Rattle.jiff.specs.ZoneView.{plain_zone};
ghost use Rattle.jiff_tz.specs.PosixReader.{read_whole};
ghost use Rattle.jiff_tz.specs.declared.timezone.TimeZone.TheVariants.{UTC};
ghost use Rattle.ctf_timestamp.specs.Zones.{civil_at, instant_in, IsUtcOrRule};

use ctf_list::NoMemory;
use jiff::Timestamp;
use jiff::civil::DateTime;
use jiff::tz::{Disambiguation, TimeZone};
use jiff_tz::posix;
use std::alloc::Global;
use std::marker::Model;
use thiserror::Error;

/// Why a zone was refused.
#[derive(Clone, Copy, Debug, PartialEq, Eq, Error)]
pub enum ZoneFault {
    /// The text is no POSIX rule.
    #[error("no time zone rule")]
    Bad,
    /// An allocation failed.
    #[error("no memory")]
    NoMemory,
}

/// UTC or a POSIX rule. Contracts see it as jiff's zone.
#[derive(Clone, Copy)]
pub struct Zone {
    // None is UTC.
    rule: Option<posix::TimeZone>,
}

impl Model for Zone {
    ghost use Rattle.std.specs.Prelude.{Option};
    ghost use Rattle.std.proofs.Common.{ap};
    ghost use Rattle.jiff_tz.specs.declared.posix.TimeZone.{TimeZone as Rule};
    ghost use Rattle.jiff_tz.specs.declared.timezone.TimeZone.{TimeZone as PlainZone};
    ghost use Rattle.ctf_timestamp.specs.Zones.{zone_of, rule_of, rule_back};

    ghost Value = { PlainZone };

    ghost view = { λ zone. zone_of zone.rule };

    ghost inverse = { λ zone. record { rule = rule_of zone } };

    ghost inverse_ok = { λ zone _.
        ap (λ (rule : Option Rule). record { rule = rule }) (rule_back zone.rule) };
}

impl Zone {
    /// UTC.
    pub fn utc() -> Zone
        ensures { result ≡ UTC }
    {
        Zone { rule: None }
    }

    /// The zone of a POSIX rule, as `EST5EDT,M3.2.0,M11.1.0`. `Bad` exactly where jiff does not read the
    /// text as one. It takes no memory.
    pub fn rule(_alloc: Global, text: &str) -> Result<Zone, ZoneFault>
        ensures succeeds { IsOk result ↔ IsSome (read_whole text.now) }
        ensures value { IfOk result (λ zone. IsPosixZone text.now zone) }
        ensures refusal { IfErr result (λ fault. fault ≡ ZoneFault.Bad) }
    {
        match posix::TimeZone::parse(text.as_bytes()) {
            Ok(rule) => Ok(Zone { rule: Some(rule) }),
            Err(_) => Err(ZoneFault::Bad),
        }
    }

    /// The zone of jiff.
    fn to_jiff(self) -> TimeZone<'static>
        ensures zone { plain_zone result ≡ self }
        ensures kind { IsUtcOrRule self }
    {
        match self.rule {
            Some(rule) => TimeZone::from_plain(jiff_tz::TimeZone::Posix(rule)),
            None => TimeZone::UTC,
        }
    }

    /// The instant of a civil time, in nanoseconds since the epoch. In a fold it is the earlier one, in a
    /// gap that of the offset before the gap. `None` where it has more than 64 bits. It takes no memory.
    pub fn instant(&self, _alloc: Global, civil: DateTime) -> Result<Option<i64>, NoMemory>
        ensures { result ≡ Ok (instant_in self.now civil) }
    {
        Ok(self.library_instant(civil))
    }

    /// The instant of a civil time, in nanoseconds since the epoch, as the time-zone library gives it.
    fn library_instant(&self, civil: DateTime) -> Option<i64>
        ensures { result ≡ instant_in self.now civil }
    {
        let instants = self.to_jiff().to_ambiguous_timestamp(civil);
        let instant = instants.disambiguate(Disambiguation::Compatible).ok()?;
        i64::try_from(instant.as_nanosecond()).ok()
    }

    /// What a clock in the zone shows at a time, in nanoseconds since the epoch.
    pub(crate) fn civil(&self, time: i64) -> DateTime
        ensures civil { civil_nanos result ≡ civil_at self.now time }
        ensures kind { IsUtcOrRule self.now }
    {
        let nanosecond = i128::from(time);
        let instant = Timestamp::from_plain(jiff_core::Timestamp { nanosecond });
        self.to_jiff().to_datetime(instant)
    }
}
