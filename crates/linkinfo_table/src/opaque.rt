//! Families without rows: each of their attributes is opaque.

ghost use Rattle.std.specs.Prelude.{◌≡◌, Ok, false, refl, true};
ghost use Rattle.nla_frame.specs.Kept.{attribute_of, kept};
ghost use Rattle.linkinfo_table.specs.FamilyRows.{Absent};
ghost use Rattle.linkinfo_table.specs.Opaque.{opaque_family};
ghost use Rattle.linkinfo_table.specs.declared.opaque.Opaque.TheVariants as opaque;

use crate::decoded::Decoded;
use crate::encodable::Encodable;
use crate::lookup::Lookup;
use crate::row_family::RowFamily;
use crate::slot::Slot;
use crate::table_family::TableFamily;
use nla_frame::{DecodeError, DefaultNla, ExactEq, Family, Nla, NlaBuffer, Parseable};
use std::alloc::{AllocError, Global};

/// The number of the family `bond`.
pub const BOND: u8 = 1;

/// The number of the family of ports of a `bond`.
pub const BOND_PORT: u8 = 2;

/// The number of the family `bridge`.
pub const BRIDGE: u8 = 3;

/// The number of the family of ports of a `bridge`.
pub const BRIDGE_PORT: u8 = 4;

/// The number of the family `can`.
pub const CAN: u8 = 5;

/// The number of the family `dsa`.
pub const DSA: u8 = 6;

/// The number of the family `hsr`.
pub const HSR: u8 = 7;

/// The number of the family `pfcp`.
pub const PFCP: u8 = 8;

/// The number of the family of ports of a `team`.
pub const TEAM_PORT: u8 = 9;

/// The number of the family `tun`.
pub const TUN: u8 = 10;

/// The number of the family `vlan`.
pub const VLAN: u8 = 11;

/// The number of the family `wireguard`.
pub const WIREGUARD: u8 = 12;

/// An attribute of a family without rows. It is opaque, whatever its type: kept verbatim, flag bits
/// of its type included.
///
/// `NUMBER` selects the family, by the constants from `BOND` on. Any other number selects
/// `Family::Frame`, and has no name.
#[derive(Debug, PartialEq, Eq, Clone, Drop)]
pub enum Opaque<const NUMBER: u8> {
    /// An opaque attribute of any type.
    Other(DefaultNla),
}

/// The family with this number.
const fn family_of(number: u8) -> Family
    ensures { result ≡ opaque_family number }
{
    match number {
        BOND => Family::Bond,
        BOND_PORT => Family::BondPort,
        BRIDGE => Family::Bridge,
        BRIDGE_PORT => Family::BridgePort,
        CAN => Family::Can,
        DSA => Family::Dsa,
        HSR => Family::Hsr,
        PFCP => Family::Pfcp,
        TEAM_PORT => Family::TeamPort,
        TUN => Family::Tun,
        VLAN => Family::Vlan,
        WIREGUARD => Family::Wireguard,
        _ => Family::Frame,
    }
}

impl<const NUMBER: u8> Opaque<NUMBER> {
    /// The opaque attribute of the value.
    fn kept(&self) -> &DefaultNla
        ensures { self.now ≡ opaque.Other result.now }
    {
        match self {
            Opaque::Other(nla) => nla,
        }
    }
}

impl<const NUMBER: u8> RowFamily for Opaque<NUMBER> {
    type Context = ();

    const FAMILY: Family = family_of(NUMBER);

    ghost FAMILY = { opaque_family NUMBER };

    ghost rows = { λ _ _. Absent };

    ghost other = { λ nla. opaque.Other nla };

    ghost canonical = { elim [ opaque.Other nla ↦ attribute_of nla ] };

    ghost is_custom = { λ _. false };

    ghost owes = { λ _ _. tt };

    ghost keeps_other = { λ _. refl };

    #[inline(always)]
    fn shape(_ctx: (), _kind: u16) -> Lookup {
        Lookup::Unknown
    }

    #[inline(always)]
    fn store_decoded<P: Slot<Opaque<NUMBER>>>(
        slot: &mut P,
        _alloc: Global,
        _ctx: (),
        decoded: Decoded<'_>,
    ) -> Result<(), AllocError> {
        match decoded {
            Decoded::Kept(nla) => slot.store(Opaque::Other(nla)),
            Decoded::Typed(_, _) => unreachable!(),
        }
    }

    #[inline(always)]
    fn to_encodable(&self) -> Encodable<'_> {
        Encodable::Kept(self.kept())
    }
}

impl<const NUMBER: u8> Nla for Opaque<NUMBER> {
    ghost attribute = { elim [ opaque.Other nla ↦ attribute_of nla ] };

    fn value_len(&self) -> usize {
        self.kept().value_len()
    }

    fn kind(&self) -> u16 {
        self.kept().kind()
    }

    fn emit_value(&self, buffer: &mut [u8]) {
        self.kept().emit_value(buffer);
    }

    fn fit_len(&self) -> Option<usize> {
        self.kept().fit_len()
    }
}

impl<const NUMBER: u8> TableFamily for Opaque<NUMBER> {
    type Custom = ();

    const IS_SET: bool = false;

    ghost IS_SET = { false };

    ghost flat_elsewhere = { λ _ _ _. tt };

    ghost plain_elsewhere = { λ _ _. refl };

    ghost written = { λ _. refl };
}

/// Keeps the attribute verbatim. Reading fails only if memory runs out.
impl<'a, const NUMBER: u8> Parseable<NlaBuffer<'a>> for Opaque<NUMBER> {
    ghost meaning = { λ nla. Ok (opaque.Other (kept nla)) };

    ghost needs_memory = { λ _. true };

    fn parse(alloc: Global, buffer: &NlaBuffer<'a>) -> Result<Opaque<NUMBER>, DecodeError> {
        Ok(Opaque::Other(DefaultNla::parse(alloc, buffer)?))
    }
}

impl<const NUMBER: u8> ExactEq for Opaque<NUMBER> {
    ghost use Rattle.std.proofs.Common.{rules};

    ghost exact = { Prim.search rules };
}
