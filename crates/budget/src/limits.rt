ghost use Rattle.std.specs.Prelude.{◌≡◌, is_err, IfOk, IfErr};
ghost use Rattle.budget.specs.Limits.{is_bad_limit, bounds_of, or_greatest, AreLimits};

use std::marker::Model;
use thiserror::Error;

/// The greatest number that a limit may be, and what a limit of 0 is kept as where 0 means none.
pub const GREATEST_LIMIT: u32 = 65_535;

/// Why numbers were refused as limits.
#[derive(Clone, Copy, Debug, PartialEq, Eq, Error)]
pub enum LimitsFault {
    /// At least one connection must be allowed to be kept, and no limit is above 65,535.
    #[error("bad limits")]
    BadLimit,
}

/// How many connections may be open to one host, how many in total, and how many may be kept open
/// after their use. Contracts see the three numbers.
///
/// Sources: `CURLMOPT_MAX_HOST_CONNECTIONS`, `CURLMOPT_MAX_TOTAL_CONNECTIONS` and
/// `CURLMOPT_MAXCONNECTS` of libcurl. In the first two 0 means no limit; here it is kept as 65,535.
#[derive(Clone, Copy, Debug, PartialEq, Eq)]
pub struct Limits {
    host: u32,
    total: u32,
    connects: u32,
}

impl Model for Limits {
    ghost use Rattle.budget.specs.Limits.{Bounds, bounds, AreLimits};

    ghost Value = { Bounds };

    ghost view = { λ limits. bounds limits.host limits.total limits.connects };

    ghost inverse = { λ b. record { host = b.host; total = b.total; connects = b.connects } };

    ghost invariant = { λ limits. AreLimits (bounds limits.host limits.total limits.connects) };
}

impl Limits {
    /// The limits for one host, for the total and for connections kept. A 0 for host or total means
    /// none.
    ///
    /// Refused with [`LimitsFault::BadLimit`] exactly where `connects` is 0 or a number is above
    /// 65,535.
    pub fn new(host: u32, total: u32, connects: u32) -> Result<Limits, LimitsFault>
        ensures bad { is_err result ≡ is_bad_limit host total connects }
        ensures ok { IfOk result (λ limits. limits ≡ bounds_of host total connects) }
        ensures within { IfOk result AreLimits }
    {
        let is_past = host > GREATEST_LIMIT || total > GREATEST_LIMIT || connects > GREATEST_LIMIT;
        if connects == 0 || is_past {
            return Err(LimitsFault::BadLimit);
        }
        Ok(Limits {
            host: or_greatest(host),
            total: or_greatest(total),
            connects,
        })
    }

    /// The most connections that may be open to one host.
    pub fn host(&self) -> u32
        ensures host { result ≡ self.now.host }
        ensures within { AreLimits self.now }
    {
        self.host
    }

    /// The most connections that may be open in total.
    pub fn total(&self) -> u32
        ensures total { result ≡ self.now.total }
        ensures within { AreLimits self.now }
    {
        self.total
    }

    /// The most connections that may be kept open after their use. It is at least 1.
    pub fn connects(&self) -> u32
        ensures connects { result ≡ self.now.connects }
        ensures within { AreLimits self.now }
    {
        self.connects
    }
}

// 0 means no limit.
fn or_greatest(limit: u32) -> u32
    ensures { result ≡ or_greatest limit }
{
    if limit == 0 { GREATEST_LIMIT } else { limit }
}
