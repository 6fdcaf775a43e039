//! Attributes of the list inside `IFLA_LINKINFO`, include/uapi/linux/if_link.h.

use crate::xstats::LinkXstats;
use linkinfo_data::{DataLayer, FitLen, Write};
use linkinfo_numbers::{
    IFLA_INFO_DATA, IFLA_INFO_SLAVE_DATA, IFLA_INFO_XSTATS, InfoKind, InfoPortKind,
};
use nla_frame::{Bytes, DefaultNla, Emitable, ExactEq, Nla, fitting};

/// An attribute in `IFLA_LINKINFO`, over the layer `P`: with peers of its type, and attributes of
/// its families.
#[derive(Debug, PartialEq, Eq, Clone, Drop)]
pub enum LinkInfoOf<P: DataLayer> {
    /// The statistics of the link (`IFLA_INFO_XSTATS`).
    Xstats(LinkXstats),
    /// The kind of the link (`IFLA_INFO_KIND`).
    Kind(InfoKind),
    /// The data of the link (`IFLA_INFO_DATA`).
    Data(P::Data),
    /// The kind of the port, which is the kind of the link that the port belongs to
    /// (`IFLA_INFO_SLAVE_KIND`).
    PortKind(InfoPortKind),
    /// The data of the port (`IFLA_INFO_SLAVE_DATA`).
    PortData(P::PortData),
    /// An attribute of any other type, kept verbatim.
    Other(DefaultNla),
}

/// An attribute in `IFLA_LINKINFO`, with peers kept as bytes, and opaque families.
pub type LinkInfo = LinkInfoOf<Bytes>;

impl<P: DataLayer> Nla for LinkInfoOf<P> {
    ghost use Rattle.linkinfo.specs.Items.{link_attribute};

    ghost attribute = { link_attribute P.families };

    fn value_len(&self) -> usize {
        match self {
            LinkInfoOf::Xstats(xstats) => xstats.buffer_len(),
            LinkInfoOf::Kind(kind) => kind.value_len(),
            LinkInfoOf::Data(data) => P::encode_data(data, FitLen, &mut []).unwrap_or(0),
            LinkInfoOf::PortKind(kind) => kind.value_len(),
            LinkInfoOf::PortData(data) => P::encode_port_data(data, FitLen, &mut []).unwrap_or(0),
            LinkInfoOf::Other(nla) => nla.value_len(),
        }
    }

    fn kind(&self) -> u16 {
        match self {
            LinkInfoOf::Xstats(_) => IFLA_INFO_XSTATS,
            LinkInfoOf::Kind(kind) => kind.kind(),
            LinkInfoOf::Data(_) => IFLA_INFO_DATA,
            LinkInfoOf::PortKind(kind) => kind.kind(),
            LinkInfoOf::PortData(_) => IFLA_INFO_SLAVE_DATA,
            LinkInfoOf::Other(nla) => nla.kind(),
        }
    }

    fn emit_payload(&self, buffer: &mut [u8]) -> usize {
        match self {
            LinkInfoOf::Xstats(xstats) => {
                xstats.emit(buffer);
                xstats.buffer_len()
            }
            LinkInfoOf::Kind(kind) => kind.emit_payload(buffer),
            LinkInfoOf::Data(data) => P::encode_data(data, Write, buffer),
            LinkInfoOf::PortKind(kind) => kind.emit_payload(buffer),
            LinkInfoOf::PortData(data) => P::encode_port_data(data, Write, buffer),
            LinkInfoOf::Other(nla) => nla.emit_payload(buffer),
        }
    }

    #[tactic(auto, using(nla_frame::proofs::Emitting::whole))]
    fn emit_value(&self, buffer: &mut [u8]) {
        self.emit_payload(buffer);
    }

    fn fit_len(&self) -> Option<usize> {
        match self {
            LinkInfoOf::Xstats(xstats) => fitting(xstats.buffer_len()),
            LinkInfoOf::Kind(kind) => kind.fit_len(),
            LinkInfoOf::Data(data) => P::encode_data(data, FitLen, &mut []),
            LinkInfoOf::PortKind(kind) => kind.fit_len(),
            LinkInfoOf::PortData(data) => P::encode_port_data(data, FitLen, &mut []),
            LinkInfoOf::Other(nla) => nla.fit_len(),
        }
    }
}

impl<P: DataLayer> ExactEq for LinkInfoOf<P>
where
    P::Data: ExactEq + Eq,
    P::PortData: ExactEq + Eq,
{
    ghost use Rattle.nla_frame.specs.Derived.{one_field};
    ghost use Rattle.nla_frame.specs.Pairs.{◌&◌};
    ghost use Rattle.linkinfo.specs.LinkVariants.{by_variants};
    ghost use Rattle.linkinfo.specs.contracts.link_info.LinkInfoOf.{enum};
    ghost use Rattle.linkinfo.specs.contracts.xstats.LinkXstatsExactEq.TheImpl.Laws.{
      exact-law as xstats_exact,
    };
    ghost use Rattle.linkinfo_numbers.specs.contracts.kind.InfoKindExactEq.TheImpl.Laws.{
      exact-law as kind_exact,
    };
    ghost use Rattle.linkinfo_numbers.specs.contracts.port_kind.InfoPortKindExactEq.TheImpl.Laws.{
      exact-law as port_kind_exact,
    };
    ghost use Rattle.nla_frame.specs.contracts.default_nla.DefaultNlaExactEq.TheImpl.Laws.{
      exact-law as kept_exact,
    };

    ghost exact = { by_variants enum P.PartialEq P.Data.ExactEq P.PortData.ExactEq _
        (one_field xstats_exact
        & one_field kind_exact
        & one_field P.Data.exact
        & one_field port_kind_exact
        & one_field P.PortData.exact
        & one_field kept_exact
        & tt) };
}
