//! The count of headers examined.

ghost use Rattle.std.specs.Prelude.{◌≡◌, ◌+◌, ◌<◌, ◌^◌};

use crate::exact_eq::ExactEq;
use std::marker::Model;

/// A count of headers examined: those of which all four bytes are there.
#[derive(Debug, PartialEq, Eq, Clone, Drop)]
pub struct HeaderCount {
    headers: usize,
}

impl Model for HeaderCount {
    ghost use Rattle.std.specs.Prelude.{ℕ};

    ghost Value = { ℕ };

    ghost view = { λ c. c.headers };

    ghost inverse = { λ n. record { headers = n } };
}

impl HeaderCount {
    /// A count of zero.
    #[inline(always)]
    pub const fn new() -> HeaderCount
        ensures { result ≡ 0 }
    {
        HeaderCount { headers: 0 }
    }

    /// The number of headers counted.
    #[inline(always)]
    pub const fn get(&self) -> usize
        ensures { result ≡ self.now }
    {
        self.headers
    }

    /// Adds `headers` to the count. Requires that the sum fits into a `usize`.
    #[inline(always)]
    pub fn add(&mut self, headers: usize)
        requires { self.old + headers < 2 ^ 64 }
        ensures { self.new ≡ self.old + headers }
    {
        self.headers += headers;
    }
}

impl Default for HeaderCount {
    ghost is_default = { λ count. count ≡ 0 };

    fn default() -> HeaderCount {
        HeaderCount::new()
    }
}

impl ExactEq for HeaderCount {
    ghost use Rattle.std.proofs.Common.{rules};

    ghost exact = { Prim.search rules };
}
